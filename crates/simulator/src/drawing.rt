//! Histories that are drawn.
use crate::acts::Step;
use crate::dice::Dice;
use crate::replies::unreleased;
use machine::{Cut, Event, Node};
use std::alloc::{AllocError, Global};
use std::collections::VecDeque;
use world::History;

/// The fewest events of a history, but for those of its end; it has less than twice as many.
const LEAST_EVENTS: u64 = 150;

/// After so many calls to a device a crash in the middle of an event comes, at most.
const MOST_CALLS: u64 = 40;

/// So many acts come while a node has stopped, on average.
const ACTS_WHILE_STOPPED: u64 = 3;

/// The bytes that many replies have.
const REPLY_BYTES: [u64; 4] = [1, 4, 5, 7];

/// Draws one history, event by event.
#[derive(Drop)]
pub struct Drawing {
    pub alloc: Global,
    pub dice: Dice,
    /// What was drawn and did not happen yet.
    steps: VecDeque<Step>,
    /// How many connections entered so far.
    pub entered: u64,
    /// How many events are left.
    left: u64,
    /// With so many events left the primary is fenced; 0: never.
    failover: u64,
    /// Both nodes crash, and then it is over.
    is_ending: bool,
}

impl Drawing {
    /// A new history, which begins with two connections.
    pub fn new(alloc: Global, seed: u64) -> Result<Drawing, AllocError> {
        let mut dice = Dice::new(seed);
        let left = LEAST_EVENTS + dice.below(LEAST_EVENTS);
        let failover = if dice.is_one_of(2) {
            dice.below(LEAST_EVENTS)
        } else {
            0
        };
        let mut drawing = Drawing {
            alloc,
            dice,
            steps: VecDeque::new(alloc),
            entered: 0,
            left,
            failover,
            is_ending: false,
        };
        drawing.add(Step::As(Event::Enter))?;
        drawing.add(Step::As(Event::Enter))?;
        Ok(drawing)
    }

    /// How many events are left, but for those of the end.
    pub fn left(&self) -> u64 {
        self.left
    }

    /// The next event, or `None` where the history is over. This node has stopped, if one has.
    pub fn next(
        &mut self,
        history: &History,
        stopped: Option<Node>,
    ) -> Result<Option<Event>, AllocError> {
        self.entered = history.transcript.released.len() as u64;
        self.come_on(stopped)?;
        match self.steps.pop_front() {
            Some(step) => Ok(Some(self.event_of(step, history)?)),
            None => Ok(None),
        }
    }

    /// What comes at the end, and where a fence failed unasked and ended the run: both nodes crash.
    pub fn end(&mut self) -> Result<(), AllocError> {
        self.is_ending = true;
        self.steps.clear();
        self.add(Step::Crash(Node::Primary, Cut::Between))?;
        self.add(Step::Crash(Node::Standby, Cut::Between))
    }

    /// Draws what comes next, where nothing is left of what was drawn. A node that has stopped crashes soon.
    fn come_on(&mut self, stopped: Option<Node>) -> Result<(), AllocError> {
        if self.is_ending {
            return Ok(());
        }
        if self.left == 0 {
            return self.end();
        }
        self.left = self.left.saturating_sub(1);
        if !self.steps.is_empty() {
            return Ok(());
        }
        if self.left < self.failover {
            self.failover = 0;
            return self.fail_over();
        }
        if let Some(node) = stopped
            && self.dice.is_one_of(ACTS_WHILE_STOPPED)
        {
            return self.come_back(node, Cut::Between);
        }
        self.act()
    }

    /// Adds a step to what comes.
    pub fn add(&mut self, step: Step) -> Result<(), AllocError> {
        self.steps.push_back(step)?;
        Ok(())
    }

    /// A connection: mostly one of the newest.
    pub fn connection(&mut self) -> u64 {
        let newest = self.entered.saturating_sub(1);
        if self.dice.is_one_of(30) {
            return self.dice.below(newest.saturating_add(3));
        }
        newest.saturating_sub(self.dice.below(3))
    }

    /// A number up to this one, which is below 2^64 - 1.
    pub fn up_to(&mut self, most: u64) -> u64 {
        self.dice.below(most.saturating_add(1).max(1))
    }

    /// In pieces of how many bytes a frame comes; 0: whole.
    pub fn piece(&mut self) -> u64 {
        if self.dice.is_one_of(4) {
            self.dice.below(20)
        } else {
            0
        }
    }

    /// How many bytes are written to a connection: mostly all that there may be.
    pub fn bytes(&mut self, connection: u64, history: &History) -> Result<u64, AllocError> {
        if self.dice.is_one_of(3) {
            Ok(self.dice.one_of(&REPLY_BYTES).copied().unwrap_or(1))
        } else {
            Ok(unreleased(self.alloc, history, connection)? as u64)
        }
    }

    /// A crash of this node, with one to three picks.
    pub fn crash(&mut self, node: Node, cut: Cut) -> Result<Event, AllocError> {
        let after = if cut.is_between() {
            0
        } else {
            self.dice.below(MOST_CALLS)
        };
        let mut picks = vec![in self.alloc; self.dice.below(4)]?;
        for _more in 0..self.dice.below(3) {
            picks.push(self.dice.below(4))?;
        }
        Ok(Event::Crash(node, cut, after, picks))
    }
}
