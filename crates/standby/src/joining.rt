//! Whether a frame can be taken as the image is, which is asked of frames that are joined before they are.
ghost use Rattle.std.specs.Prelude.{◌≡◌, ◌↔◌, true, IsTrue, OnErr, Ok, Err};
ghost use Rattle.placing.specs.Place.{HasRoomFor};
ghost use Rattle.standby.specs.Taking.{IsDue};

use crate::spare::spare_line;
use crate::standby::Standby;
use crate::taking::{is_next, would_exhaust};
use frames::Frame;
use kv_types::Refusal;
use mv_keyspace::Keyspace;
use placing::fits_surely_below;
use std::alloc::Global;
use wbl_engine::Durable;

impl<E: Durable, K: Keyspace> Standby<E, K> {
    /// Whether the frame comes next here, its commit brings no counter to the limit, and its puts have room with nothing freed and nothing moved: below the
    /// spare place, while that is free. It changes nothing. A frame of which it says no may be taken all the same.
    ///
    /// # Errors
    ///
    /// Only `Memory`.
    pub fn takes_at_once(&mut self, alloc: Global, frame: &Frame) -> Result<bool, Refusal>
        ensures due { result ≡ Ok true → IsDue (E.contents self.old.engine).current frame.now }
        ensures fits { result ≡ Ok true → HasRoomFor self.old.heap frame.now.changes.items }
        ensures same { self.new ≡ self.old }
        ensures cause { OnErr result (result ≡ Err Refusal.Memory) }
    {
        let end = spare_line(self.engine.lines());
        if !self.is_due(frame) || !self.has_spare(end) {
            return Ok(false);
        }
        if !fits_surely_below(&self.heap, &frame.changes, end) {
            return Ok(false);
        }
        self.fits_below(alloc, frame, end)
    }

    /// Whether the frame comes next here, and its commit brings no counter to the limit.
    fn is_due(&self, frame: &Frame) -> bool
        ensures { IsTrue result ↔ IsDue (E.contents self.now.engine).current frame.now }
    {
        self.takes_epoch(frame.epoch)
            && is_next(self.position(), frame)
            && !would_exhaust(self.engine.record(), frame)
    }
}
