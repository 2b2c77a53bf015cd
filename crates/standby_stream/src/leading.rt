//! Frames that are aside: told to a standby as one frame, and moved in a queue.
ghost use Rattle.std.specs.Prelude.{◌≡◌, ◌+◌, ◌<◌, ◌≤◌, ◌++◌, [], length, drop, take, OnOk};
ghost use Rattle.std.specs.VecDeque.{deque_capacity};
ghost use Rattle.standby_stream.specs.Copying.{above};
ghost use Rattle.standby_stream.specs.Leading.{Leads, ending_above, reaches_above};

use frames::Frame;
use std::alloc::AllocError;
use std::collections::VecDeque;

/// Whether one of these frames ends above the position.
pub(crate) fn reaches_above(frames: &VecDeque<Frame>, position: u64) -> bool
    ensures { result ≡ reaches_above position frames.now.items }
{
    for frame in frames {
        if frame.after > position {
            return true;
        }
    }
    false
}

/// Leads a frame on over those of the others that end above where it begins: their changes come behind its own, in order.
pub(crate) fn lead_over(whole: &mut Frame, frames: &VecDeque<Frame>) -> Result<(), AllocError>
    ensures { OnOk result (Leads whole.old.epoch whole.old.before whole.old.after whole.old.changes.items (ending_above whole.old.before frames.now.items) whole.new) }
{
    for frame in frames {
        if frame.after > whole.before {
            let mut copy = frame.clone()?;
            whole.join(&mut copy)?;
        }
    }
    Ok(())
}

/// How many of the first frames end at the position or below it, up to the first that does not.
pub(crate) fn count_up_to(frames: &VecDeque<Frame>, position: u64) -> usize
    ensures { result + length (above position frames.now.items) ≡ length frames.now.items }
{
    let mut count = 0;
    for frame in frames {
        if frame.after > position {
            return count;
        }
        count += 1;
    }
    count
}

/// Moves what comes from this index on to another queue, which is empty and has the room.
pub(crate) fn move_tail(from: &mut VecDeque<Frame>, index: usize, to: &mut VecDeque<Frame>)
    requires within { index ≤ length from.old.items }
    requires empty { to.old.items ≡ [] }
    requires room { length from.old.items ≤ index + deque_capacity to.old }
    ensures left { from.new.items ≡ take index from.old.items }
    ensures moved { to.new.items ≡ drop index from.old.items }
    ensures capacity { deque_capacity to.new ≡ deque_capacity to.old }
{
    while from.len() > index {
        if let Some(frame) = from.pop_back() {
            to.push_front_reserved(frame);
        }
    }
}
