//! What a newcomer tells of its copy.
use crate::link_acceptor::LinkAcceptor;
use node_log::News;
use standby::Half;
use std::cell::Cell;
use std::io::Write;
use std::time::{Clock, Duration, Instant};

/// How often it is told how far the copy is, in seconds.
const TELL_SECONDS: u64 = 10;

/// How far a newcomer has come with a copy of which it has a part.
#[derive(Clone, Copy, Debug, PartialEq, Eq)]
pub struct CopyProgress {
    /// The position that the copy is of.
    pub position: u64,
    /// How many parts it has.
    pub parts: u64,
    /// How many keys are in them.
    pub keys: u64,
}

impl CopyProgress {
    /// That of a newcomer with this half copy, if it has one, in which are so many keys.
    pub(crate) fn of_half(half: &Option<Half>, keys: u64) -> Option<CopyProgress> {
        match half {
            Some(half) => Some(CopyProgress {
                position: half.position,
                parts: half.parts,
                keys,
            }),
            None => None,
        }
    }
}

/// What was told of a copy.
#[derive(Clone, Copy, Debug)]
struct Told {
    /// The position of the copy that has begun.
    position: Option<u64>,
    /// When it began.
    begun: Option<Instant>,
    /// When something was told of it last.
    last: Option<Instant>,
}

/// Tells when a copy begins, now and then how far it is, and when it is whole.
#[derive(Drop)]
pub(crate) struct CopyTeller {
    /// How far the newcomer has come, as it put it there.
    seen: Cell<Option<CopyProgress>>,
    told: Cell<Told>,
}

impl CopyTeller {
    /// No copy has begun yet.
    pub(crate) fn new() -> CopyTeller {
        CopyTeller {
            seen: Cell::new(None),
            told: Cell::new(Told {
                position: None,
                begun: None,
                last: None,
            }),
        }
    }

    /// Where the newcomer puts how far it has come.
    pub(crate) fn seen(&self) -> &Cell<Option<CopyProgress>> {
        &self.seen
    }

    /// Tells what there is to tell by now: that a copy has begun, or how far it is, where that was not told for some seconds.
    pub(crate) fn look<C: Clock, W: Write>(&self, acceptor: &mut LinkAcceptor<'_, C, W>) {
        let Some(seen) = self.seen.get() else {
            return;
        };
        let told = self.told.get();
        let now = Instant::now(acceptor.clock()).ok();
        if told.position != Some(seen.position) {
            self.begin(seen.position, now, acceptor);
        } else if seconds_between(told.last, now) >= TELL_SECONDS {
            self.told.set(Told { last: now, ..told });
            acceptor.say(News::CopyAt {
                parts: seen.parts,
                keys: seen.keys,
            });
        }
    }

    /// Tells that the copy of this position is whole, with so many keys. It has begun before, unless it is empty.
    pub(crate) fn end<C: Clock, W: Write>(
        &self,
        position: u64,
        keys: u64,
        acceptor: &mut LinkAcceptor<'_, C, W>,
    ) {
        let now = Instant::now(acceptor.clock()).ok();
        if keys > 0 && self.told.get().position != Some(position) {
            self.begin(position, now, acceptor);
        }
        let begun = if keys > 0 {
            self.told.get().begun
        } else {
            None
        };
        acceptor.say(News::CopyTaken {
            position,
            keys,
            seconds: seconds_between(begun, now),
        });
    }

    /// Tells that the copy of this position begins.
    fn begin<C: Clock, W: Write>(
        &self,
        position: u64,
        now: Option<Instant>,
        acceptor: &mut LinkAcceptor<'_, C, W>,
    ) {
        self.told.set(Told {
            position: Some(position),
            begun: now,
            last: now,
        });
        acceptor.say(News::CopyBegun { position });
    }
}

/// How many whole seconds lie between these two, or none where one of them is not known.
fn seconds_between(first: Option<Instant>, last: Option<Instant>) -> u64 {
    match (first, last) {
        (Some(first), Some(last)) => last.duration_since(first).as_secs(),
        _ => 0,
    }
}
