//! A standby that cannot follow is told so.
ghost use Rattle.std.specs.Prelude.{◌≡◌, ℕ, IfOk, take};
ghost use Rattle.frames.specs.declared.frame.Frame.{Frame as Begun};
ghost use Rattle.stream_codec.specs.Message.{sent_of_frame, sent_text};

use frames::Frame;
use kv_types::{Change, Key, RecordId};
use standby_stream::Outgoing;
use std::alloc::{AllocError, Global};
use std::io::Write;
use stream_codec::{GROUP_HEAD_BYTES, write_group};

/// Has a standby tell that it cannot follow, which `Outgoing::open_at` has refused: writes the beginning of a frame that does not join on where it is, and that
/// it refuses by its numbers. None of the frame's changes is ever sent.
pub(crate) fn tell_gap<O: Write>(alloc: Global, outgoing: &Outgoing, to: &mut O) {
    if let Ok(head) = gap_head(alloc, outgoing.epoch(), outgoing.level()) {
        let _ = to.write_all(&head);
    }
}

/// The beginning of a frame of this epoch that joins on at this position alone, up to its changes.
fn gap_head(alloc: Global, epoch: u64, before: u64) -> Result<Vec<u8>, AllocError>
    ensures { IfOk result (λ head. (frame : Begun) × (frame.epoch ≡ epoch) × (frame.before ≡ before)
        × (head.items ≡ take GROUP_HEAD_BYTES (sent_text (sent_of_frame frame)))) }
{
    let mut changes = Vec::new(alloc);
    changes.push(Change::Drop(RecordId::Str(Key::new(alloc, b"")?)))?;
    let frame = Frame {
        epoch,
        before,
        after: before.saturating_add(1),
        changes,
    };
    let mut head = Vec::new(alloc);
    write_group(&frame, &mut head)?;
    head.truncate(GROUP_HEAD_BYTES);
    Ok(head)
}
