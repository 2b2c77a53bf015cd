//! Events, each with the line that it comes from.
ghost use Rattle.std.specs.Prelude.{◌≡◌, [], ◌∷◌, ◌++◌, length, replicate, OnOk};
ghost use Rattle.simulator.specs.Copy.{AppendsCopies};

use crate::cause::{Cause, LineError};
use machine::Event;
use std::alloc::{AllocError, Global};

/// The most events that are played.
pub const MOST_EVENTS: u64 = 16_777_216;

/// Events to play, one after another, each with the number of its line.
#[derive(Drop)]
pub struct Schedule {
    events: Vec<Event>,
    lines: Vec<u64>,
    ghost placed: { length events.items ≡ length lines.items },
}

impl Schedule {
    pub fn new(alloc: Global) -> Schedule {
        Schedule {
            events: Vec::new(alloc),
            lines: Vec::new(alloc),
        }
    }

    pub fn events(&self) -> &[Event] {
        self.events.as_slice()
    }

    /// The lines of the events.
    pub fn lines(&self) -> &[u64] {
        self.lines.as_slice()
    }

    /// Adds the event of a line `times` times.
    #[tactic(auto, using(crate::proofs::RepeatLemmas::once_more))]
    pub fn add(&mut self, event: &Event, times: u64, line: u64) -> Result<(), LineError>
        ensures events { OnOk result (AppendsCopies self.old.events.items self.new.events.items times event.now) }
        ensures lines { OnOk result (self.new.lines.items ≡ self.old.lines.items ++ replicate times line) }
    {
        let room = MOST_EVENTS.saturating_sub(self.events.len() as u64);
        if room < times {
            return Err(LineError::Bad(Cause::TooManyEvents));
        }
        for _time in 0..times {
            self.add_one(event.try_clone()?, line)?;
        }
        Ok(())
    }

    fn add_one(&mut self, event: Event, line: u64) -> Result<(), AllocError>
        ensures events { OnOk result (self.new.events.items ≡ self.old.events.items ++ event ∷ []) }
        ensures lines { OnOk result (self.new.lines.items ≡ self.old.lines.items ++ line ∷ []) }
    {
        self.events.reserve(1)?;
        self.lines.reserve(1)?;
        self.events.push_reserved(event);
        self.lines.push_reserved(line);
        Ok(())
    }
}
