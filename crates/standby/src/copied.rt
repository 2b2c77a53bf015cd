//! What a standby answers to the frames of a copy: it has one already.
ghost use Rattle.std.specs.Prelude.{◌≡◌, Ok, Err, IfOk, OnErr, IfErr};
ghost use Rattle.wbl_engine.specs.Contents.{IsDurable};
ghost use Rattle.standby.specs.Copied.{judged};

use crate::standby::Standby;
use frames::{Ack, CopyEnd, CopyPart};
use kv_types::Refusal;
use mv_keyspace::Keyspace;
use wbl_engine::Durable;

impl<E: Durable, K: Keyspace> Standby<E, K> {
    /// A part of a copy came. One of the node's epoch and of no later position than the node's own tells nothing new: it changes nothing.
    ///
    /// # Errors
    ///
    /// `WrongEpoch` where it is of another epoch, and else `PositionGap` where the copy is of a later position.
    pub fn on_part(&self, part: &CopyPart) -> Result<(), Refusal>
        ensures { result ≡ judged (E.contents self.now.engine).current part.now.epoch part.now.position }
    {
        self.judge_copy(part.epoch, part.position)
    }

    /// The end of a copy came. One of the node's epoch and of no later position than the node's own is acknowledged by where the node is. The engine's record has
    /// to be durable, as it is of a standby that `Stands`.
    ///
    /// # Errors
    ///
    /// As at `on_part`.
    pub fn on_end(&self, end: CopyEnd) -> Result<Ack, Refusal>
        requires { IsDurable (E.device self.now.engine) (E.contents self.now.engine) }
        ensures taken { IfOk result (λ ack. (judged (E.contents self.now.engine).current end.epoch end.position ≡ Ok tt)
            × (ack ≡ record { epoch = (E.contents self.now.engine).current.epoch; position = (E.contents self.now.engine).current.position })) }
        ensures refused { IfErr result (λ refusal. judged (E.contents self.now.engine).current end.epoch end.position ≡ Err refusal) }
    {
        self.judge_copy(end.epoch, end.position)?;
        Ok(self.ack())
    }

    /// Whether a copy of this epoch and position tells nothing new.
    fn judge_copy(&self, epoch: u64, position: u64) -> Result<(), Refusal>
        ensures { result ≡ judged (E.contents self.now.engine).current epoch position }
    {
        if epoch != self.epoch() {
            return Err(Refusal::WrongEpoch);
        }
        if position > self.position() {
            return Err(Refusal::PositionGap);
        }
        Ok(())
    }
}
