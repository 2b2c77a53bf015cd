//! What a history is drawn of: acts, and the steps that they are made of.
use crate::drawing::Drawing;
use crate::drawn_requests::{alone, draw_command, draw_request};
use bytes::Bytes;
use machine::{Cut, Event, Mark, Node};
use std::alloc::AllocError;
use world::History;

/// One of so many steps is left out.
const STEPS_TO_MISS: u64 = 24;

/// Which fence from now is to fail, at most.
const MOST_FENCES: u64 = 6;

/// An event that comes, or one whose numbers are drawn when it comes to it. A connection is named by its number.
#[derive(Debug, Drop)]
pub enum Step {
    As(Event),
    /// The frame that was sent last.
    DeliverLast,
    /// Any frame.
    DeliverAny,
    /// The acknowledgement that was made last.
    AckLast,
    /// Any acknowledgement.
    AckAny,
    /// Some bytes, or all that there may be.
    Write(u64),
    FailFence(Node),
    Crash(Node, Cut),
}

/// What a history is drawn of: a few steps that belong together.
#[derive(Clone, Copy, Debug, PartialEq, Eq)]
enum Act {
    /// A connection enters.
    Enter,
    /// A request of a connection is fed and called.
    Ask,
    /// So is a transaction.
    Transact,
    /// What waits is committed, or a part of that way.
    Commit,
    /// What was committed goes to the standby, and its acknowledgement comes back.
    Follow,
    /// What was answered is released.
    Release,
    /// What has ended is listed and freed, and a gap is cleared.
    Free,
    /// A frame or an acknowledgement of before comes once more.
    Repeat,
    /// The link opens.
    Link,
    /// A connection is over.
    Leave,
    /// A node crashes and is opened again.
    Crash(Node),
    /// A fence of a node's device fails, and the node is opened again.
    Fail(Node),
    /// A node crashes in the middle of a call, and is opened again.
    CutCall(Cut),
}

/// How often each is drawn, of the sum of all.
const ACTS: [(u64, Act); 20] = [
    (30, Act::Ask),
    (6, Act::Transact),
    (20, Act::Commit),
    (24, Act::Follow),
    (24, Act::Release),
    (8, Act::Free),
    (5, Act::Repeat),
    (3, Act::Link),
    (3, Act::Enter),
    (1, Act::Leave),
    (3, Act::Crash(Node::Primary)),
    (2, Act::Crash(Node::Standby)),
    (1, Act::Fail(Node::Primary)),
    (1, Act::Fail(Node::Standby)),
    (1, Act::CutCall(Cut::Commit)),
    (1, Act::CutCall(Cut::Apply)),
    (1, Act::CutCall(Cut::Free)),
    (1, Act::CutCall(Cut::ClearGap)),
    (1, Act::CutCall(Cut::Reopen)),
    (1, Act::CutCall(Cut::Promote)),
];

impl Drawing {
    /// The event of a step, whose numbers are drawn now.
    pub fn event_of(&mut self, step: Step, history: &History) -> Result<Event, AllocError> {
        let frames = history.frames.len() as u64;
        let acknowledgements = history.acknowledgements.len() as u64;
        Ok(match step {
            Step::As(event) => event,
            Step::DeliverLast => Event::Deliver(frames.saturating_sub(1), self.piece()),
            Step::DeliverAny => Event::Deliver(self.up_to(frames), self.piece()),
            Step::AckLast => Event::AckDelivered(acknowledgements.saturating_sub(1)),
            Step::AckAny => Event::AckDelivered(self.up_to(acknowledgements)),
            Step::Write(connection) => Event::Write(connection, self.bytes(connection, history)?),
            Step::FailFence(node) => Event::FailFence(node, self.up_to(MOST_FENCES)),
            Step::Crash(node, cut) => self.crash(node, cut)?,
        })
    }

    /// Draws a few steps that belong together.
    pub fn act(&mut self) -> Result<(), AllocError> {
        match self.drawn_act() {
            Act::Ask => self.ask(),
            Act::Transact => self.transact(),
            Act::Commit => self.commit(),
            Act::Follow => self.replicate(),
            Act::Release => self.release(),
            Act::Free => self.free(),
            Act::Repeat => self.repeat(),
            Act::Link => self.link(),
            Act::Enter => self.add(Step::As(Event::Enter)),
            Act::Leave => self.leave(),
            Act::Crash(node) => self.crash_and_reopen(node),
            Act::Fail(node) => self.fail_a_fence(node),
            Act::CutCall(cut) => self.cut_a_call(cut),
        }
    }

    /// The primary is fenced, which may have stopped, and its standby promoted, which may crash before.
    pub fn fail_over(&mut self) -> Result<(), AllocError> {
        if self.dice.is_one_of(4) {
            self.ask_a_fence(Node::Primary)?;
        }
        self.add(Step::As(Event::Fence))?;
        if self.dice.is_one_of(2) {
            self.follow()?;
        }
        if self.dice.is_one_of(3) {
            self.add(Step::Crash(Node::Standby, Cut::Between))?;
            self.add(Step::As(Event::Reopen(Node::Standby)))?;
        }
        if self.dice.is_one_of(3) {
            self.fail_a_promotion()?;
        }
        self.add(Step::As(Event::Promote))?;
        self.add(Step::As(Event::Enter))?;
        self.add(Step::As(Event::Enter))
    }

    /// A fence fails while the standby is promoted. It crashes, and is opened as what it is by then.
    fn fail_a_promotion(&mut self) -> Result<(), AllocError> {
        self.add(Step::FailFence(Node::Standby))?;
        self.add(Step::As(Event::Promote))?;
        self.add(Step::Crash(Node::Standby, Cut::Between))?;
        self.add(Step::As(Event::Reopen(Node::Standby)))?;
        self.add(Step::As(Event::Reopen(Node::Primary)))
    }

    fn drawn_act(&mut self) -> Act {
        let mut place = self.dice.below(sum_of_weights().max(1));
        for (weight, act) in ACTS {
            if place < weight {
                return act;
            }
            place = place.saturating_sub(weight);
        }
        Act::Ask
    }

    /// Adds a step, or now and then leaves it out.
    fn mostly(&mut self, step: Step) -> Result<(), AllocError> {
        if self.dice.is_one_of(STEPS_TO_MISS) {
            return Ok(());
        }
        self.add(step)
    }

    fn ask(&mut self) -> Result<(), AllocError> {
        let connection = self.connection();
        let request = draw_request(self.alloc, &mut self.dice)?;
        self.serve(connection, request)
    }

    /// A request is fed, whole or in two pieces, and called.
    fn serve(&mut self, connection: u64, request: Bytes) -> Result<(), AllocError> {
        let mut rest = request;
        if self.dice.is_one_of(8) {
            let at = self.dice.below((rest.len() as u64).max(1)) as usize;
            if at <= rest.len() {
                let first = rest.split_to(at)?;
                self.add(Step::As(Event::Feed(connection, first)))?;
            }
        }
        self.add(Step::As(Event::Feed(connection, rest)))?;
        self.mostly(Step::As(Event::Offer(connection)))?;
        self.mostly(Step::As(Event::Turn(connection)))?;
        self.mostly(Step::As(Event::Hold(connection)))
    }

    fn transact(&mut self) -> Result<(), AllocError> {
        let connection = self.connection();
        let begin = alone(self.alloc, "MULTI")?;
        self.serve(connection, begin)?;
        for _request in 0..self.dice.below(4) {
            let request = draw_command(self.alloc, &mut self.dice)?;
            self.serve(connection, request)?;
        }
        let end = alone(self.alloc, "EXEC")?;
        self.serve(connection, end)
    }

    fn commit(&mut self) -> Result<(), AllocError> {
        self.mostly(Step::As(Event::CloseGroup))?;
        self.mostly(Step::As(Event::Commit))?;
        self.mostly(Step::As(Event::RaiseLocal))?;
        self.mostly(Step::As(Event::Hand))
    }

    /// The standby takes what was sent last.
    fn follow(&mut self) -> Result<(), AllocError> {
        self.mostly(Step::DeliverLast)?;
        self.mostly(Step::As(Event::Apply))
    }

    fn replicate(&mut self) -> Result<(), AllocError> {
        self.mostly(Step::As(Event::Send))?;
        self.follow()?;
        self.mostly(Step::AckLast)?;
        self.mostly(Step::As(Event::RaiseRemote))
    }

    fn release(&mut self) -> Result<(), AllocError> {
        let connection = self.connection();
        self.mostly(Step::As(Event::Hold(connection)))?;
        self.mostly(Step::As(Event::Read(connection, Mark::Local)))?;
        self.mostly(Step::As(Event::Read(connection, Mark::Remote)))?;
        self.mostly(Step::As(Event::Release(connection)))?;
        self.mostly(Step::Write(connection))
    }

    fn free(&mut self) -> Result<(), AllocError> {
        self.mostly(Step::As(Event::CloseGroup))?;
        self.mostly(Step::As(Event::Free))?;
        self.mostly(Step::As(Event::AcceptFreed))?;
        self.mostly(Step::As(Event::ClearGap))
    }

    fn repeat(&mut self) -> Result<(), AllocError> {
        self.add(Step::DeliverAny)?;
        self.mostly(Step::As(Event::Apply))?;
        self.mostly(Step::AckAny)
    }

    fn link(&mut self) -> Result<(), AllocError> {
        self.add(Step::As(Event::OpenLink))?;
        self.replicate()?;
        self.replicate()
    }

    fn leave(&mut self) -> Result<(), AllocError> {
        let connection = self.connection();
        self.add(Step::As(Event::Leave(connection)))?;
        self.add(Step::As(Event::Enter))
    }

    fn crash_and_reopen(&mut self, node: Node) -> Result<(), AllocError> {
        self.come_back(node, Cut::Between)
    }

    /// A node crashes; a few things happen meanwhile, and it is opened again.
    pub fn come_back(&mut self, node: Node, cut: Cut) -> Result<(), AllocError> {
        self.add(Step::Crash(node, cut))?;
        if self.dice.is_one_of(3) {
            self.replicate()?;
        }
        self.add(Step::As(Event::Reopen(node)))?;
        if node == Node::Primary {
            self.add(Step::As(Event::Enter))?;
            self.add(Step::As(Event::Enter))?;
        }
        if self.dice.is_one_of(4) {
            return Ok(());
        }
        self.link()
    }

    /// A fence of a node fails, in what it does next, or while it is opened.
    fn fail_a_fence(&mut self, node: Node) -> Result<(), AllocError> {
        self.ask_a_fence(node)?;
        self.come_back(node, Cut::Between)
    }

    /// A fence of a node is asked to fail, which then mostly has something to do.
    fn ask_a_fence(&mut self, node: Node) -> Result<(), AllocError> {
        self.add(Step::FailFence(node))?;
        if self.dice.is_one_of(4) {
            return Ok(());
        }
        self.ask()?;
        self.commit()?;
        self.replicate()
    }

    /// A node crashes in the middle of a call, which something was prepared for.
    fn cut_a_call(&mut self, cut: Cut) -> Result<(), AllocError> {
        match cut {
            Cut::Commit => {
                self.ask()?;
                self.add(Step::As(Event::CloseGroup))?;
            }
            Cut::Apply => {
                self.add(Step::As(Event::Send))?;
                self.add(Step::DeliverLast)?;
            }
            Cut::Free | Cut::ClearGap => self.free()?,
            Cut::Reopen => self.add(Step::Crash(Node::Primary, Cut::Between))?,
            Cut::Promote => self.add(Step::Crash(Node::Standby, Cut::Between))?,
            Cut::Between => {}
        }
        let node = match cut {
            Cut::Apply | Cut::Promote => Node::Standby,
            _ => Node::Primary,
        };
        self.come_back(node, cut)
    }
}

/// The sum of all weights.
fn sum_of_weights() -> u64 {
    let mut sum: u64 = 0;
    for (weight, _act) in ACTS {
        sum = sum.saturating_add(weight);
    }
    sum
}
