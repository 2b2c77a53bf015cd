//! Requests as lines.
ghost use Rattle.std.specs.Prelude.{◌≡◌, ℕ, List, ◌∷◌, ◌++◌, false, IfOk, IfSome, OnOk};
ghost use Rattle.std.specs.Io.BufRead.{DropsThrough, first_piece, strip_last};
ghost use Rattle.std.specs.Io.KnownBytes.{IsAtEnd};
ghost use Rattle.client.specs.Asked.{words_of, one_word, words_behind};

use bytes::Bytes;
use std::alloc::{AllocError, Global};
use std::io::{self, BufRead};

/// Reads the next line in place of what `line` held, without its line feed. `false` if there is none.
pub fn read_line<I: BufRead>(input: &mut I, line: &mut Vec<u8>) -> io::Result<bool>
    ensures line { OnOk result (IfSome (I.remaining input.old) (λ text. line.new.items ≡ first_piece 10 text)) }
    ensures rest { OnOk result (DropsThrough (I.remaining input.old) (I.remaining input.new) 10) }
    ensures end { IfOk result (λ is_there. is_there ≡ false → IsAtEnd (I.remaining input.old)) }
{
    line.clear();
    let count = input.read_until(b'\n', line)?;
    cut(line);
    Ok(count > 0)
}

/// Takes the line feed off the end, where there is one.
fn cut(line: &mut Vec<u8>)
    ensures { line.new.items ≡ strip_last 10 line.old.items }
{
    let count = line.len();
    if count == 0 {
        return;
    }
    if line[count - 1] == b'\n' {
        line.truncate(count - 1);
    }
}

/// The words of a line: what stands between runs of spaces. Fails only with `AllocError`.
pub fn words_of(alloc: Global, line: &[u8]) -> Result<Vec<Bytes>, AllocError>
    ensures { IfOk result (λ words. words.items ≡ words_of line.now) }
{
    let mut words = Vec::new(alloc);
    let mut word = Vec::new(alloc);
    for byte in line {
        take_byte(alloc, *byte, &mut word, &mut words)?;
    }
    put_word(alloc, &word, &mut words)?;
    Ok(words)
}

/// Takes the next byte of a line: a space ends the word so far, any other byte is its next.
fn take_byte(
    alloc: Global,
    byte: u8,
    word: &mut Vec<u8>,
    words: &mut Vec<Bytes>,
) -> Result<(), AllocError>
    ensures { OnOk result ((rest : List ℕ) → words.new.items ++ words_behind word.new.items rest ≡ words.old.items ++ words_behind word.old.items (byte ∷ rest)) }
{
    if byte == b' ' {
        put_word(alloc, word, words)?;
        word.clear();
    } else {
        word.push(byte)?;
    }
    Ok(())
}

/// Puts a word behind the others, unless it is empty.
fn put_word(alloc: Global, word: &[u8], words: &mut Vec<Bytes>) -> Result<(), AllocError>
    ensures { OnOk result (words.new.items ≡ words.old.items ++ one_word word.now) }
{
    if !word.is_empty() {
        words.push(Bytes::copy_from_slice(alloc, word)?)?;
    }
    Ok(())
}
