//! How much a command may put, told from its words before it runs.
ghost use Rattle.std.specs.Prelude.{◌≡◌, ◌*◌, ◌≤◌, take, drop};
ghost use Rattle.kv_types.specs.Word.{IsWithin};
ghost use Rattle.kv_types.specs.declared.limits.TheConstants.{REQUEST_LIMITS};
ghost use Rattle.cmd_core.specs.Puts as spec;

use bytes::Bytes;
use kv_types::MAX_VALUE_BYTES;

/// The longest text of a 64-bit integer, in bytes: nineteen digits and a sign.
pub const MAX_INTEGER_BYTES: usize = 20;

/// Which versions a command may put, told from the words after its name.
#[derive(Clone, Copy, Debug, PartialEq, Eq)]
pub enum Puts {
    /// None.
    Nothing,
    /// One: the first so many words are its key, its field if it has one, and its value.
    Words(usize),
    /// One: the first so many words are its key, and its field if it has one; its value is the text of an integer.
    Integer(usize),
    /// One: the first word is its key, and its value goes on from the one that is there, to be at most as long as a value may be.
    Appended,
    /// One for each two words behind the first so many, which are part of each.
    Pairs(usize),
}

/// At most so many versions, each of at most so many bytes of key, field and value together.
#[derive(Clone, Copy, Debug, PartialEq, Eq)]
pub struct PutBound {
    pub count: usize,
    pub bytes: usize,
}

impl Puts {
    /// The most that is put where these words stand after the command's name.
    pub fn most(self, arguments: &[Bytes]) -> PutBound
        requires { IsWithin REQUEST_LIMITS arguments.now }
        ensures { result ≡ spec.most self arguments.now }
    {
        match self {
            Puts::Nothing => PutBound { count: 0, bytes: 0 },
            Puts::Words(n) => one(bytes_of_words(first(arguments, n))),
            Puts::Integer(n) => one(bytes_of_words(first(arguments, n)) + MAX_INTEGER_BYTES),
            Puts::Appended => one(bytes_of_words(first(arguments, 1)) + MAX_VALUE_BYTES),
            Puts::Pairs(n) => {
                let pairs = behind(arguments, n);
                PutBound {
                    count: pairs.len() / 2,
                    bytes: bytes_of_words(first(arguments, n)) + longest_pair(pairs),
                }
            }
        }
    }
}

fn one(bytes: usize) -> PutBound
    ensures { result ≡ spec.one bytes }
{
    PutBound { count: 1, bytes }
}

/// The first so many words, or all where there are fewer.
fn first(words: &[Bytes], count: usize) -> &[Bytes]
    requires { IsWithin REQUEST_LIMITS words.now }
    ensures value { result.now ≡ take count words.now }
    ensures within { IsWithin REQUEST_LIMITS result.now }
{
    if count < words.len() {
        &words[..count]
    } else {
        words
    }
}

/// The words behind the first so many, none where there are fewer.
fn behind(words: &[Bytes], count: usize) -> &[Bytes]
    requires { IsWithin REQUEST_LIMITS words.now }
    ensures value { result.now ≡ drop count words.now }
    ensures within { IsWithin REQUEST_LIMITS result.now }
{
    if count < words.len() {
        &words[count..]
    } else {
        &[]
    }
}

/// The bytes of the words together.
fn bytes_of_words(words: &[Bytes]) -> usize
    requires { IsWithin REQUEST_LIMITS words.now }
    ensures value { result ≡ spec.bytes_of_words words.now }
    ensures bound { result ≤ REQUEST_LIMITS.words * REQUEST_LIMITS.word_bytes }
{
    let mut bytes = 0;
    for word in words {
        bytes += word.len();
    }
    bytes
}

/// Of pairs of words, one after another, the bytes of the longest.
fn longest_pair(words: &[Bytes]) -> usize
    requires { IsWithin REQUEST_LIMITS words.now }
    ensures value { result ≡ spec.longest_pair words.now }
    ensures bound { result ≤ 2 * REQUEST_LIMITS.word_bytes }
{
    let mut longest = 0;
    let mut left = words;
    while let [first, second, rest @ ..] = left {
        longest = longest.max(first.len() + second.len());
        left = rest;
    }
    longest
}
