//! How much was explored.
use std::fmt;

/// How much was explored.
#[derive(Clone, Copy, Debug, PartialEq, Eq)]
pub struct Tally {
    pub events: u64,
    pub histories: u64,
    pub crashes: u64,
    pub promotions: u64,
    /// Fences that failed.
    pub faults: u64,
    /// Calls that were answered.
    pub replies: u64,
    /// Links that were opened after an older image was put back, and those of them that were taken.
    pub restores: u64,
    pub taken: u64,
}

impl Tally {
    pub fn new() -> Tally {
        Tally {
            events: 0,
            histories: 0,
            crashes: 0,
            promotions: 0,
            faults: 0,
            replies: 0,
            restores: 0,
            taken: 0,
        }
    }

    /// One event more was reached.
    pub fn count_event(&mut self) {
        self.events = self.events.saturating_add(1);
    }

    /// One more older image was put back, and the link was taken or not.
    pub fn count_restore(&mut self, is_taken: bool) {
        self.restores = self.restores.saturating_add(1);
        if is_taken {
            self.taken = self.taken.saturating_add(1);
        }
    }

    /// What was counted of one history more.
    pub fn add(&mut self, more: Tally) {
        self.events = self.events.saturating_add(more.events);
        self.histories = self.histories.saturating_add(1);
        self.crashes = self.crashes.saturating_add(more.crashes);
        self.promotions = self.promotions.saturating_add(more.promotions);
        self.faults = self.faults.saturating_add(more.faults);
        self.replies = self.replies.saturating_add(more.replies);
        self.restores = self.restores.saturating_add(more.restores);
        self.taken = self.taken.saturating_add(more.taken);
    }
}

impl fmt::Display for Tally {
    fn fmt<W: fmt::Write>(&self, f: &mut fmt::Formatter<W>) -> fmt::Result {
        let Tally {
            events,
            histories,
            crashes,
            promotions,
            faults,
            replies,
            restores,
            taken,
        } = *self;
        let refused = restores.saturating_sub(taken);
        write!(
            f,
            "events {events}, histories {histories}, crashes {crashes}, failed fences {faults}, promotions {promotions}, replies {replies}, restores {restores}, refused {refused}, taken {taken}"
        )
    }
}
