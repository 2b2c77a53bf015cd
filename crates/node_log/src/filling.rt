//! What is told of an image that fills.
ghost use Rattle.std.specs.Prelude.{◌≡◌};
ghost use Rattle.node_log.specs.Usage.{news_of, told_after};

use crate::fill_gauges::FillReader;
use crate::log::{Log, News};
use crate::usage::{Capacity, Share, Usage};
use std::io::Write;

/// Which share of the room for something was told last as taken.
#[derive(Clone, Copy, Debug, PartialEq, Eq)]
pub struct Alarm {
    /// 90 or 99 of 100, or 0.
    told: u64,
}

impl Alarm {
    /// Nothing was told yet.
    pub fn new() -> Alarm
        ensures { result.told ≡ 0 }
    {
        Alarm { told: 0 }
    }

    /// Looks at what is taken. Answers how many of 100 are to be told of, 90 or 99, where it has come to as many. So many are told of again once fewer than 80
    /// or 90 were taken.
    pub fn look(&mut self, share: Share) -> Option<u64>
        ensures told { self.new.told ≡ told_after self.old.told share }
        ensures news { result ≡ news_of self.old.told share }
    {
        let before = self.told;
        let percent = share.percent();
        self.told = if percent >= 90 {
            before.max(percent)
        } else if percent >= 80 {
            before.min(90)
        } else {
            0
        };
        if before < self.told {
            Some(self.told)
        } else {
            None
        }
    }
}

/// What looks how much a node holds, and tells of an image that fills.
#[derive(Drop)]
pub struct Filling {
    fill: FillReader,
    capacity: Capacity,
    versions: Alarm,
    lines: Alarm,
}

impl Filling {
    /// What looks at what is shown there, of a node whose image has room for so many.
    pub fn new(fill: FillReader, capacity: Capacity) -> Filling {
        Filling {
            fill,
            capacity,
            versions: Alarm::new(),
            lines: Alarm::new(),
        }
    }

    /// How much the node holds now. Where its versions or its lines have come to nine tenths, or to 99 of 100, that is told.
    pub fn look<W: Write>(&mut self, log: &mut Log<W>) -> Usage {
        let usage = Usage::of(&self.fill.read(), self.capacity);
        if let Some(percent) = self.versions.look(usage.versions) {
            log.say(News::Filling {
                what: "versions",
                share: usage.versions,
                percent,
            });
        }
        if let Some(percent) = self.lines.look(usage.lines) {
            log.say(News::Filling {
                what: "lines",
                share: usage.lines,
                percent,
            });
        }
        usage
    }
}
