//! What a primary tells of the copies that it sends.
ghost use Rattle.std.specs.Prelude.{◌≡◌, false, None, Some};

use crate::log::{Log, News};
use crate::throttle::Throttle;
use std::io::Write;
use std::time::{Clock, Instant};

/// How often it is told how much of a copy was sent, in seconds.
const TELL_SECONDS: u64 = 10;

/// How many links in a row end without a copy before that is told.
const LEAST_LINKS: u32 = 3;

/// The copy that a primary sends, as it was told of.
#[derive(Drop)]
pub struct CopySending {
    /// The position that the copy is of, if one is pinned.
    position: Option<u64>,
    /// When it was pinned.
    begun: Option<Instant>,
    /// When something was told of it last.
    told: Option<Instant>,
    /// How many links in a row a newcomer ended before it had its copy.
    links: u32,
    refused: Throttle,
    other_epoch: Throttle,
}

impl CopySending {
    /// No copy is pinned, and no link has ended so.
    pub fn new() -> CopySending
        ensures position { result.position ≡ None }
        ensures links { result.links ≡ 0 }
    {
        CopySending {
            position: None,
            begun: None,
            told: None,
            links: 0,
            refused: Throttle::new(),
            other_epoch: Throttle::new(),
        }
    }

    /// A copy of this position is pinned for the newcomer at this address, with so many keys where that is known. It is told once, also where the copy is sent
    /// on one link after another.
    pub fn pin<C: Clock, W: Write>(
        &mut self,
        clock: &C,
        log: &mut Log<W>,
        address: &str,
        position: u64,
        keys: Option<u64>,
    )
        ensures position { self.new.position ≡ Some position }
        ensures again { self.old.position ≡ Some position → self.new ≡ self.old }
        ensures links { self.new.links ≡ self.old.links }
    {
        if self.position == Some(position) {
            return;
        }
        let now = Instant::now(clock).ok();
        self.position = Some(position);
        self.begun = now;
        self.told = now;
        log.say(News::CopyPinned {
            address,
            position,
            keys,
        });
    }

    /// So many parts of the copy, of so many bytes in all, were sent on this link. That is told now and then.
    pub fn look<C: Clock, W: Write>(
        &mut self,
        clock: &C,
        log: &mut Log<W>,
        address: &str,
        parts: u64,
        bytes: u64,
    )
        ensures position { self.new.position ≡ self.old.position }
        ensures links { self.new.links ≡ self.old.links }
    {
        let now = Instant::now(clock).ok();
        if seconds_between(self.told, now) < TELL_SECONDS {
            return;
        }
        self.told = now;
        log.say(News::CopySent {
            address,
            parts,
            bytes,
        });
    }

    /// The newcomer has acknowledged the copy that is pinned, if one is. None is any more.
    pub fn end<C: Clock, W: Write>(&mut self, clock: &C, log: &mut Log<W>, address: &str)
        ensures position { self.new.position ≡ None }
        ensures links { self.new.links ≡ 0 }
    {
        if let Some(position) = self.position {
            let now = Instant::now(clock).ok();
            log.say(News::CopyAcknowledged {
                address,
                position,
                seconds: seconds_between(self.begun, now),
            });
        }
        *self = CopySending::new();
    }

    /// The node at this address is a standby at this position. Where a copy is pinned it has all of that, if it is there or above, as `end` tells; else it needs
    /// none, which is told. None is pinned any more.
    pub fn meet_standby<C: Clock, W: Write>(
        &mut self,
        clock: &C,
        log: &mut Log<W>,
        address: &str,
        position: u64,
    )
        ensures position { self.new.position ≡ None }
        ensures links { self.new.links ≡ 0 }
    {
        if let Some(pinned) = self.position {
            if position < pinned {
                let position = pinned;
                log.say(News::CopyGivenUp { address, position });
                self.position = None;
            }
        }
        self.end(clock, log, address);
    }

    /// A newcomer's link has ended before it had its copy; `is_refused` says that something was sent on it, and that it was the newcomer that ended it. Tells
    /// of several in a row: at once, and then ever more seldom.
    pub fn note_end<C: Clock, W: Write>(
        &mut self,
        clock: &C,
        log: &mut Log<W>,
        address: &str,
        is_refused: bool,
    )
        ensures position { self.new.position ≡ self.old.position }
        ensures none { is_refused ≡ false → self.new.links ≡ 0 }
    {
        if !is_refused {
            self.links = 0;
            self.refused = Throttle::new();
            return;
        }
        self.links = self.links.saturating_add(1);
        if self.links >= LEAST_LINKS && self.refused.is_due(clock) {
            log.say(News::CopyRefused {
                address,
                links: self.links,
            });
        }
    }

    /// The node at this address is of another epoch than the primary, which is of this one. That is told at once, and then ever more seldom.
    pub fn tell_epoch<C: Clock, W: Write>(
        &mut self,
        clock: &C,
        log: &mut Log<W>,
        address: &str,
        own: u64,
    )
        ensures position { self.new.position ≡ self.old.position }
        ensures links { self.new.links ≡ self.old.links }
    {
        if self.other_epoch.is_due(clock) {
            log.say(News::OtherEpoch { address, own });
        }
    }
}

/// How many whole seconds lie between these two, or none where one of them is not known.
fn seconds_between(first: Option<Instant>, last: Option<Instant>) -> u64 {
    match (first, last) {
        (Some(first), Some(last)) => last.duration_since(first).as_secs(),
        _ => 0,
    }
}
