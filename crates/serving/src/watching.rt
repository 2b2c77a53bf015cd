//! What a primary tells of itself while it runs: how long replies wait for the standby, of an image that fills, and now and then how far both nodes are.
ghost use Rattle.std.specs.Prelude.{◌<◌};

use crate::setup::Watch;
use kv_types::Seen;
use marks::ThreadMarks;
use node_log::{FillReader, Filling, Log, News, Rate, Shown, Usage};
use std::io::Write;
use std::sync::{Arc, Wait};
use std::thread;
use std::time::{Clock, Duration, Instant};

/// How often it looks.
const LOOK_SECONDS: u64 = 1;

/// A wait is told each second up to so many, and then after these, and at each whole minute.
const FIRST_SECONDS: u64 = 5;

static NEXT_SECONDS: [u64; 4] = [10, 20, 30, 60];

const MINUTE_SECONDS: u64 = 60;

/// What looks once a second, and tells what there is to tell.
#[derive(Drop)]
pub(crate) struct Watcher {
    marks: ThreadMarks,
    /// What each driver shows of its connections.
    shown: Vec<Arc<Shown>>,
    /// What the node's thread shows of what it holds.
    fill: FillReader,
}

/// What it has found so far.
#[derive(Drop)]
struct Watched {
    waiting: Waiting,
    filling: Filling,
    rate: Rate,
}

/// For how long replies have waited for the standby.
#[derive(Clone, Copy)]
struct Waiting {
    /// When it looked last, and the remote mark then.
    last: Option<(Instant, u64)>,
    /// Since when a reply waits and the remote mark stays.
    since: Option<Instant>,
    /// After how many seconds that was told last, or 0.
    told: u64,
}

impl Watcher {
    /// What looks at these marks, and at what the drivers and the node's thread show.
    pub(crate) fn new(marks: ThreadMarks, shown: Vec<Arc<Shown>>, fill: FillReader) -> Watcher {
        Watcher { marks, shown, fill }
    }

    /// Looks and tells for ever.
    pub(crate) fn run<R: Wait + Clock, W: Write + Drop>(self, rt: &R, watch: Watch<W>) {
        let Watcher {
            mut marks,
            shown,
            fill,
        } = self;
        let Watch {
            mut log,
            report_seconds,
            capacity,
        } = watch;
        let mut watched = Watched {
            waiting: Waiting::not(),
            filling: Filling::new(fill, capacity),
            rate: Rate::new(),
        };
        for _ in rt.forever() {
            thread::sleep(rt, Duration::from_secs(LOOK_SECONDS));
            if let Ok(now) = Instant::now(rt) {
                let seen = marks.read();
                watched.look(now, &seen, &shown, report_seconds, &mut log);
            }
        }
    }
}

impl Watched {
    /// Looks once, and tells what there is to tell.
    fn look<W: Write>(
        &mut self,
        now: Instant,
        seen: &Seen,
        shown: &[Arc<Shown>],
        every: Option<u64>,
        log: &mut Log<W>,
    ) {
        let is_waiting = seen.remote < seen.local && is_waiting(shown);
        if let Some(news) = self.waiting.look(now, seen.remote, is_waiting) {
            log.say(news);
        }
        let usage = self.filling.look(log);
        self.tell_report(now, seen, shown, usage, every, log);
    }

    /// Tells how far both nodes are, if that is wanted and due.
    fn tell_report<W: Write>(
        &mut self,
        now: Instant,
        seen: &Seen,
        shown: &[Arc<Shown>],
        usage: Usage,
        every: Option<u64>,
        log: &mut Log<W>,
    ) {
        let Some(every) = every else {
            return;
        };
        if let Some(requests) = self.rate.look(now, every, count_requests(shown)) {
            log.say(News::PrimaryAt {
                position: seen.local,
                standby: seen.remote,
                usage,
                clients: count_connections(shown),
                requests,
                longest_wait: take_longest_wait(shown),
            });
        }
    }
}

/// Whether a reply waits for a mark.
fn is_waiting(shown: &[Arc<Shown>]) -> bool {
    shown.iter().any(|one| one.is_waiting())
}

/// How many connections there are.
fn count_connections(shown: &[Arc<Shown>]) -> u64 {
    let mut all: u64 = 0;
    for one in shown {
        all = all.saturating_add(one.connections());
    }
    all
}

/// How many requests have come so far.
fn count_requests(shown: &[Arc<Shown>]) -> u64 {
    let mut all: u64 = 0;
    for one in shown {
        all = all.wrapping_add(one.requests());
    }
    all
}

/// How many milliseconds a reply was waited for at most since this was asked last.
fn take_longest_wait(shown: &[Arc<Shown>]) -> u64 {
    let mut longest: u64 = 0;
    for one in shown {
        longest = longest.max(one.take_longest_wait());
    }
    longest
}

impl Waiting {
    /// Nothing waits.
    fn not() -> Waiting {
        Waiting {
            last: None,
            since: None,
            told: 0,
        }
    }

    /// Looks: this is the remote mark now, and a reply waits for it or none does. Answers what there is to tell. A reply that waits while the mark stays waits
    /// since the look before.
    fn look(&mut self, now: Instant, remote: u64, is_waiting: bool) -> Option<News<'static>> {
        let last = self.last.replace((now, remote));
        match last {
            Some((before, then)) if then == remote && is_waiting => self.go_on(before, now),
            Some((_, then)) => self.end(now, then < remote),
            None => None,
        }
    }

    /// A reply waits on, and did so at the look before.
    fn go_on(&mut self, before: Instant, now: Instant) -> Option<News<'static>> {
        let since = self.since.unwrap_or(before);
        self.since = Some(since);
        let seconds = now.duration_since(since).as_secs();
        if seconds < next_telling(self.told) {
            return None;
        }
        self.told = seconds;
        Some(News::Waiting { seconds })
    }

    /// None waits any more, or the mark has risen. The latter is told where it was told that one waits.
    fn end(&mut self, now: Instant, has_risen: bool) -> Option<News<'static>> {
        let told = self.told;
        self.told = 0;
        let since = self.since.take()?;
        if told == 0 || !has_risen {
            return None;
        }
        let seconds = now.duration_since(since).as_secs();
        Some(News::Answered { seconds })
    }
}

/// After how many seconds a wait is told again that was told after so many.
fn next_telling(told: u64) -> u64 {
    if told < FIRST_SECONDS {
        return told.saturating_add(1);
    }
    for next in &NEXT_SECONDS {
        if told < *next {
            return *next;
        }
    }
    (told / MINUTE_SECONDS)
        .saturating_add(1)
        .saturating_mul(MINUTE_SECONDS)
}
