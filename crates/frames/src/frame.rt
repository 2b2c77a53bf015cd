//! What the primary sends to the standby.
ghost use Rattle.std.specs.Prelude.{◌≡◌, ◌↔◌, IsTrue, OnOk, OnErr};
ghost use Rattle.frames.specs.Copy.{IsCopy};
ghost use Rattle.frames.specs.Joining.{IsJoined, JoinsOn};

use kv_types::Change;
use std::alloc::AllocError;

/// The changes of the list of calls between two positions, as the primary of an epoch sends them.
#[derive(Debug, Drop)]
pub struct Frame {
    pub epoch: u64,
    /// The position before the changes.
    pub before: u64,
    /// The position after them.
    pub after: u64,
    pub changes: Vec<Change>,
}

impl Frame {
    /// Whether the next frame follows this one: it is of the same epoch and begins where this one ends, and the position rises in both.
    pub fn is_joined_by(&self, next: &Frame) -> bool
        ensures { IsTrue result ↔ JoinsOn self.now next.now }
    {
        next.epoch == self.epoch
            && next.before == self.after
            && self.before < self.after
            && next.before < next.after
    }

    /// Takes the changes of the next frame behind its own, and its end: one frame then says what the two said. The next one is left without changes.
    ///
    /// # Errors
    ///
    /// `AllocError` if an allocation was refused, and then both say what they said.
    pub fn join(&mut self, next: &mut Frame) -> Result<(), AllocError>
        ensures joined { OnOk result (IsJoined self.old next.old self.new) }
        ensures kept { OnErr result (IsCopy self.old self.new × IsCopy next.old next.new) }
    {
        self.changes.append(&mut next.changes)?;
        self.after = next.after;
        Ok(())
    }
}

impl Clone for Frame {
    ghost is_clone = { IsCopy };

    fn clone(&self) -> Result<Frame, AllocError> {
        Ok(Frame {
            epoch: self.epoch,
            before: self.before,
            after: self.after,
            changes: self.changes.clone()?,
        })
    }
}
