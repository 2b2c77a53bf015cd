//! Links that the standby ends again and again without taking what was sent on them.
ghost use Rattle.std.specs.Prelude.{◌≡◌, false};

use crate::log::{Log, News};
use crate::throttle::Throttle;
use std::io::Write;
use std::time::Clock;

/// How many such links there are in a row before that is told.
const LEAST_LINKS: u32 = 3;

/// Links in a row that the standby ended at one position without taking what was sent on them.
#[derive(Drop)]
pub struct RefusedLinks {
    position: u64,
    links: u32,
    telling: Throttle,
}

impl RefusedLinks {
    /// No link has ended so.
    pub fn new() -> RefusedLinks
        ensures { result.links ≡ 0 }
    {
        RefusedLinks {
            position: 0,
            links: 0,
            telling: Throttle::new(),
        }
    }

    /// A link has ended, with the standby at this position; `is_refused` says that something was sent on it, that nothing of it was acknowledged, and that it
    /// was the standby that ended it. Tells of several in a row: at once, and then ever more seldom.
    pub fn note<C: Clock, W: Write>(
        &mut self,
        clock: &C,
        log: &mut Log<W>,
        address: &str,
        position: u64,
        is_refused: bool,
    )
        ensures position { self.new.position ≡ position }
        ensures none { is_refused ≡ false → self.new.links ≡ 0 }
    {
        if !is_refused || position != self.position {
            *self = RefusedLinks::new();
            self.position = position;
        }
        if is_refused {
            self.links = self.links.saturating_add(1);
        }
        if self.links >= LEAST_LINKS && self.telling.is_due(clock) {
            log.say(News::NotTaken {
                address,
                position,
                links: self.links,
            });
        }
    }
}
