//! The limits that a client meets, each defined once.

/// The longest key, and the longest field, in bytes.
pub const MAX_KEY_BYTES: usize = 512;

/// The longest value, in bytes.
pub const MAX_VALUE_BYTES: usize = 1_048_576;

/// The longest change, in bytes of a frame: the longest value put into the longest field of the longest key.
pub const MAX_CHANGE_BYTES: usize = 1
    + (2 + MAX_KEY_BYTES)
    + (2 + MAX_KEY_BYTES)
    + (4 + MAX_VALUE_BYTES);

/// How long a request may be.
#[derive(Clone, Copy, Debug, PartialEq, Eq)]
pub struct Limits {
    /// The most words in a request, the command's name among them.
    pub words: u64,
    /// The longest word, in bytes.
    pub word_bytes: u64,
}

/// The limits of the protocol. The type `Request` holds no request beyond them.
pub const REQUEST_LIMITS: Limits = Limits {
    words: 1_024,
    word_bytes: 1_048_576,
};
