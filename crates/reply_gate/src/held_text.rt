//! What a gate keeps of a reply besides its text.
use kv_types::Seen;

/// A held reply: the position in the list of calls at which it was made, and how many bytes it has.
#[derive(Clone, Copy, Debug, PartialEq, Eq)]
pub struct HeldText {
    pub position: u64,
    pub bytes: usize,
}

impl HeldText {
    ghost use Rattle.std.specs.Prelude.{◌≡◌};
    ghost use Rattle.reply_gate.specs.Gate.{is_covered};

    /// Whether both nodes hold the position at which the reply was made.
    pub fn is_covered(&self, seen: &Seen) -> bool
        ensures { result ≡ is_covered seen.now self.now }
    {
        seen.covers(self.position)
    }
}
