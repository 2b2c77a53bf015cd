//! The shapes of requests: how many words, and which of them are keys or fields.
ghost use Rattle.std.specs.Prelude.{◌≡◌};
ghost use Rattle.cmd_core.specs.Shape as spec;

use bytes::Bytes;
use kv_types::MAX_KEY_BYTES;

/// How many words a request has, the name among them.
#[derive(Clone, Copy, Debug, PartialEq, Eq)]
pub enum WordCount {
    Exactly(usize),
    AtLeast(usize),
    Between(usize, usize),
    /// An odd number, and at least so many.
    OddFrom(usize),
    /// An even number, and at least so many.
    EvenFrom(usize),
}

/// Which of the words after the name are keys or fields.
#[derive(Clone, Copy, Debug, PartialEq, Eq)]
pub enum Keys {
    None,
    First,
    FirstTwo,
    All,
    /// The first, the third, the fifth ..
    EverySecond,
    /// The second, the fourth ..
    SkipOne,
    /// The first, the second, the fourth, the sixth ..
    FirstAndPairs,
}

impl WordCount {
    /// Whether a request may have so many words, the name among them.
    pub fn takes(self, count: usize) -> bool
        ensures { result ≡ spec.takes self count }
    {
        match self {
            WordCount::Exactly(n) => count == n,
            WordCount::AtLeast(least) => least <= count,
            WordCount::Between(least, most) => least <= count && count <= most,
            WordCount::OddFrom(least) => least <= count && count % 2 == 1,
            WordCount::EvenFrom(least) => least <= count && count % 2 == 0,
        }
    }
}

impl Keys {
    /// Whether those of the words after the name that are keys or fields are short enough.
    pub fn are_short(self, arguments: &[Bytes]) -> bool
        ensures { result ≡ spec.are_short self arguments.entry.now }
    {
        let mut keys = self;
        let mut words = arguments;
        while let [word, rest @ ..] = words {
            if keys.names_next() && word.len() > MAX_KEY_BYTES {
                return false;
            }
            keys = keys.after_next();
            words = rest;
        }
        true
    }

    /// Whether the next word is a key or a field.
    fn names_next(self) -> bool
        ensures { result ≡ spec.names_next self }
    {
        match self {
            Keys::None | Keys::SkipOne => false,
            Keys::First | Keys::FirstTwo | Keys::All => true,
            Keys::EverySecond | Keys::FirstAndPairs => true,
        }
    }

    /// Which are keys or fields among the words after the next.
    fn after_next(self) -> Keys
        ensures { result ≡ spec.after_next self }
    {
        match self {
            Keys::None | Keys::First => Keys::None,
            Keys::FirstTwo => Keys::First,
            Keys::All => Keys::All,
            Keys::EverySecond => Keys::SkipOne,
            Keys::SkipOne | Keys::FirstAndPairs => Keys::EverySecond,
        }
    }
}
