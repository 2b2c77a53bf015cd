// Words to bytes and back.
ghost use Rattle.std.specs.Prelude.{◌≡◌, ◌↔◌, ◌+◌, ◌*◌, ◌/◌, ◌%◌, ◌++◌, ◌≤◌, length, replicate, vec_len, vec_capacity, IsTrue, OnOk};
ghost use Rattle.std.specs.Int.{w64, from_le_bytes};
ghost use Rattle.pmem_file.specs.Byte.{bytes_of, words_in, eight_at};

use std::alloc::AllocError;

/// Whether each word that these bytes are is 0.
pub fn are_zeros(bytes: &[u8]) -> bool
    ensures { IsTrue result ↔ (words_in bytes.now ≡ replicate (length bytes.now / 8) 0) }
{
    for i in 0..bytes.len() / 8 {
        if word_at(bytes, 8 * i) != 0 {
            return false;
        }
    }
    true
}

/// Adds the words that these bytes are.
pub fn decode(bytes: &[u8], words: &mut Vec<u64>) -> Result<(), AllocError>
    ensures words { OnOk result (words.new.items ≡ words.old.items ++ words_in bytes.now) }
    ensures count { OnOk result (vec_len words.new ≡ vec_len words.old + length bytes.now / 8) }
    ensures whole { OnOk result (length bytes.now % 8 ≡ 0 → bytes_of (words_in bytes.now) ≡ bytes.now) }
{
    for i in 0..bytes.len() / 8 {
        words.push(word_at(bytes, 8 * i))?;
    }
    Ok(())
}

/// The word that the eight bytes from this one on are.
#[inline]
pub fn word_at(bytes: &[u8], at: usize) -> u64
    requires { at + 8 ≤ length bytes.now }
    ensures { result ≡ from_le_bytes w64 (eight_at bytes.now at) }
{
    u64::from_le_bytes([
        bytes[at],
        bytes[at + 1],
        bytes[at + 2],
        bytes[at + 3],
        bytes[at + 4],
        bytes[at + 5],
        bytes[at + 6],
        bytes[at + 7],
    ])
}

/// Puts the bytes of these words in the place of what the buffer held. It takes no memory.
pub fn encode(words: &[u64], buffer: &mut Vec<u8>)
    requires { 8 * length words.now ≤ vec_capacity buffer.old }
    ensures bytes { buffer.new.items ≡ bytes_of words.now }
    ensures capacity { vec_capacity buffer.old ≤ vec_capacity buffer.new }
{
    buffer.clear();
    for word in words {
        if buffer.extend_from_slice(&word.to_le_bytes()).is_err() {
            unreachable!();
        }
    }
}

/// Puts so many zeros in the place of what the buffer held. It takes no memory.
pub fn fill_zeros(buffer: &mut Vec<u8>, count: usize)
    requires { count ≤ vec_capacity buffer.old }
    ensures bytes { buffer.new.items ≡ replicate count 0 }
    ensures capacity { vec_capacity buffer.old ≤ vec_capacity buffer.new }
{
    buffer.clear();
    while buffer.len() < count {
        buffer.push_reserved(0);
    }
}
