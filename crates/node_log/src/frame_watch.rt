//! For how long a standby has been taking what came.
ghost use Rattle.std.specs.Prelude.{◌≡◌, false, None};

use std::time::Instant;

/// How long the same thing is not told again at most, in seconds.
const MOST_SECONDS: u64 = 600;

/// What looks now and then at whether a standby is taking what came, and finds that it takes long.
#[derive(Clone, Copy)]
pub(crate) struct FrameWatch {
    /// Which turn the node was in when it was looked at last, and since when it was seen there.
    seen: Option<(u64, Instant)>,
    /// After how many seconds it is told next.
    due: u64,
}

impl FrameWatch {
    /// Nothing was seen yet.
    pub(crate) fn new() -> FrameWatch {
        FrameWatch { seen: None, due: 1 }
    }

    /// Looks: the node is in this turn, and takes what came in it or rests. Answers for how many seconds it has been seen to take that, where it is time to
    /// tell of it: after a second, and then after twice as long each time, or ten minutes more.
    pub(crate) fn look(&mut self, now: Instant, turn: u64, is_at_work: bool) -> Option<u64>
        ensures rests { is_at_work ≡ false → result ≡ None }
    {
        let since = match self.seen {
            Some((last, since)) if is_at_work && last == turn => since,
            _ => {
                self.seen = is_at_work.then_some((turn, now));
                self.due = 1;
                return None;
            }
        };
        let seconds = now.duration_since(since).as_secs();
        if seconds < self.due {
            return None;
        }
        self.due = seconds.saturating_add(seconds.min(MOST_SECONDS));
        Some(seconds)
    }
}
