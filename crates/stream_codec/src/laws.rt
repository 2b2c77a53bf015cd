//! Laws of frames and their bytes, each the contract of a function that does nothing.
ghost use Rattle.std.specs.Prelude.{◌≡◌, ◌↔◌, ℕ, List, ◌++◌, Option};
ghost use Rattle.stream_codec.specs.Message.{Sent, IsSent, sent_text};
ghost use Rattle.stream_codec.specs.Stream.{Stream, with_first, stream_at, IsStream, Reaches};

/// No frame's bytes begin another's: a frame can be read back in only one way, whatever follows it.
pub fn one_spelling()
    ensures { (a b : Sent) (x y : List ℕ) → IsSent a → IsSent b → sent_text a ++ x ≡ sent_text b ++ y → (a ≡ b) × (x ≡ y) }
{}

/// What was written is read back, whatever follows it.
pub fn written_is_read()
    ensures { (message : Sent) (more : List ℕ) → IsSent message → stream_at (sent_text message ++ more) ≡ with_first message (stream_at more) }
{}

/// The frames computed from a text are those whose bytes it is. Behind them it begins one more frame; or, where nothing is left unread, no
/// continuation of it does.
pub fn frames_are_read()
    ensures { (text : List ℕ) (messages : List Sent) (unread : Option (List ℕ)) →
        IsStream text messages unread ↔ (stream_at text ≡ record { messages = messages; unread = unread }) }
{}

/// However the bytes are cut into pieces: the frames given are just the whole frames of all bytes taken, in order, and the decoder
/// is at a fault just where no continuation of those bytes has a further frame.
pub fn in_any_pieces()
    ensures { (text : List ℕ) (given : List Sent) (held : Option (List ℕ)) → Reaches text given held → IsStream text given held }
{}
