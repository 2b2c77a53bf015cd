//! How long a primary's link rests between two connections.
use node_log::{Log, News};
use std::io::Write;
use std::sync::Wait;
use std::thread;
use std::time::{Clock, Duration};

/// A pause, in milliseconds.
const PAUSE_MILLISECONDS: u64 = 100;

/// How long a node whose standby is ahead waits at least and at most before it says so again, in such pauses: doubled each time.
const FIRST_TELLING_PAUSES: u32 = 10;

const MOST_TELLING_PAUSES: u32 = 6_000;

/// Tells for good that the standby is ahead: at first each second, then ever more seldom.
pub(crate) fn stay_apart<R: Wait + Clock, W: Write>(rt: &R, log: &mut Log<W>) {
    let mut pauses = FIRST_TELLING_PAUSES;
    for _ in rt.forever() {
        log.say(News::StandbyAhead);
        pause(rt, pauses);
        pauses = pauses.saturating_mul(2).min(MOST_TELLING_PAUSES);
    }
}

/// Lets so many pauses pass.
pub(crate) fn pause<R: Clock>(rt: &R, pauses: u32) {
    for _ in 0..pauses {
        thread::sleep(rt, Duration::from_millis(PAUSE_MILLISECONDS));
    }
}
