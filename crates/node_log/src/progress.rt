//! How far a standby is, as it shows whoever tells of it.
use crate::filling::Filling;
use crate::frame_watch::FrameWatch;
use crate::log::{Log, News};
use crate::rate::Rate;
use frames::Ack;
use std::io::Write;
use std::sync::atomic::{AtomicBool, AtomicU64, Ordering};
use std::sync::{Arc, Wait};
use std::thread;
use std::time::{Clock, Duration, Instant};

/// Where the position stands in the bytes of an acknowledgement, with the epoch before it.
const NUMBERS_BYTES: usize = 16;

/// How often it is looked at.
const LOOK_SECONDS: u64 = 1;

/// How far a standby is, as it shows whoever tells of it.
#[derive(Drop)]
pub struct Progress {
    position: AtomicU64,
    frames: AtomicU64,
    /// How often it began to take what came, modulo 2^64, and whether it does so now.
    turns: AtomicU64,
    is_at_work: AtomicBool,
}

impl Progress {
    /// Of a standby that is at this position.
    pub fn new(position: u64) -> Progress {
        Progress {
            position: AtomicU64::new(position),
            frames: AtomicU64::new(0),
            turns: AtomicU64::new(0),
            is_at_work: AtomicBool::new(false),
        }
    }

    /// Something came, and the node takes it from now on.
    pub fn begin_turn(&self) {
        let turns = self.turns.load(Ordering::SeqCst).wrapping_add(1);
        self.turns.store(turns, Ordering::SeqCst);
        self.is_at_work.store(true, Ordering::SeqCst);
    }

    /// The node has taken what came, or left its link.
    pub fn end_turn(&self) {
        self.is_at_work.store(false, Ordering::SeqCst);
    }

    /// These bytes of an acknowledgement went out, of where the standby is, or of a frame that it took.
    pub fn note(&self, text: &[u8], is_frame: bool) {
        if let Some(numbers) = text.last_chunk::<NUMBERS_BYTES>() {
            self.position
                .store(Ack::read(numbers).position(), Ordering::SeqCst);
        }
        if is_frame {
            let frames = self.frames.load(Ordering::SeqCst).wrapping_add(1);
            self.frames.store(frames, Ordering::SeqCst);
        }
    }
}

/// What looks once a second at a standby, and tells what there is to tell.
#[derive(Drop)]
pub struct StandbyWatcher {
    progress: Arc<Progress>,
    filling: Filling,
}

impl StandbyWatcher {
    /// What looks at what is shown there.
    pub fn new(progress: Arc<Progress>, filling: Filling) -> StandbyWatcher {
        StandbyWatcher { progress, filling }
    }

    /// Looks and tells for ever: of an image that fills, of a frame that takes long and, with a number of seconds, each time that so many have passed, how far the standby is.
    pub fn run<R: Wait + Clock, W: Write + Drop>(
        self,
        rt: &R,
        log: Log<W>,
        report_seconds: Option<u64>,
    ) {
        let mut watcher = self;
        let mut log = log;
        let mut rate = Rate::new();
        let mut frame = FrameWatch::new();
        for _ in rt.forever() {
            thread::sleep(rt, Duration::from_secs(LOOK_SECONDS));
            if let Ok(now) = Instant::now(rt) {
                watcher.look_at_frame(&mut frame, now, &mut log);
                watcher.look(&mut rate, now, report_seconds, &mut log);
            }
        }
    }

    /// Tells for how long the standby has been taking what came, where that is long.
    fn look_at_frame<W: Write>(&self, frame: &mut FrameWatch, now: Instant, log: &mut Log<W>) {
        let turn = self.progress.turns.load(Ordering::SeqCst);
        let is_at_work = self.progress.is_at_work.load(Ordering::SeqCst);
        if let Some(seconds) = frame.look(now, turn, is_at_work) {
            log.say(News::Taking { seconds });
        }
    }

    /// Looks once.
    fn look<W: Write>(
        &mut self,
        rate: &mut Rate,
        now: Instant,
        every: Option<u64>,
        log: &mut Log<W>,
    ) {
        let usage = self.filling.look(log);
        let Some(every) = every else {
            return;
        };
        let frames = self.progress.frames.load(Ordering::SeqCst);
        if let Some(frames) = rate.look(now, every, frames) {
            log.say(News::StandbyAt {
                position: self.progress.position.load(Ordering::SeqCst),
                usage,
                frames,
            });
        }
    }
}
