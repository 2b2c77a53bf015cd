//! What is told of a history that is looked at: its lines, as they are read, and in comments what came of each.
use crate::error::SimulatorError;
use crate::event_text::write_words_of;
use crate::node::name_of;
use crate::node_report::{write_position, write_records};
use crate::report::{write_bytes, write_call, write_refusal};
use crate::restoring::{Outcome, write_link};
use crate::script::Failure;
use crate::witness::Witness;
use kv_types::Refusal;
use machine::{Event, Node};
use model::ImageContents;
use std::alloc::Global;
use std::io::Write;
use world::History;

/// Tells of one history.
#[derive(Drop)]
pub struct Teller<'a, W> {
    alloc: Global,
    out: &'a mut W,
    /// How many calls of the list were told.
    calls: usize,
    /// How many of the bytes released to each connection were told.
    released: Vec<usize>,
}

impl<'a, W: Write> Teller<'a, W> {
    pub fn new(alloc: Global, out: &'a mut W) -> Teller<'a, W> {
        Teller {
            alloc,
            out,
            calls: 0,
            released: Vec::new(alloc),
        }
    }

    /// The fences that are to fail, before the first event.
    pub fn failures(&mut self, failures: &[Failure]) -> Result<(), SimulatorError> {
        for failure in failures {
            let node = name_of(failure.node);
            let fence = failure.fence;
            writeln!(self.out, "fail {node} {fence}")?;
        }
        Ok(())
    }

    /// What is done with the image of a node: `keep` or `restore`.
    pub fn handle(&mut self, name: &str, node: Node) -> Result<(), SimulatorError> {
        let node = name_of(node);
        writeln!(self.out, "{name} {node}")?;
        Ok(())
    }

    /// An event.
    pub fn event(&mut self, event: &Event) -> Result<(), SimulatorError> {
        write_words_of(self.alloc, self.out, event)
    }

    /// Whether the event did its step.
    pub fn outcome(&mut self, did: bool) -> Result<(), SimulatorError> {
        let outcome = if did { "done" } else { "not enabled" };
        writeln!(self.out, "# {outcome}")?;
        Ok(())
    }

    /// The event ended the run.
    pub fn ended(&mut self, refusal: Refusal) -> Result<(), SimulatorError> {
        write!(self.out, "# ended: ")?;
        write_refusal(self.out, refusal)?;
        Ok(())
    }

    /// What came of the link over an image that was put back.
    pub fn restored(&mut self, outcome: Outcome) -> Result<(), SimulatorError> {
        write!(self.out, "# ")?;
        write_link(self.out, outcome)?;
        Ok(())
    }

    /// What is new in a history: how many calls are left of its list, if some were cut, the calls, and the bytes that were released.
    pub fn given(&mut self, history: &History) -> Result<(), SimulatorError> {
        let calls = history.calls();
        if calls.len() < self.calls {
            self.calls = calls.len();
            let left = calls.len();
            writeln!(self.out, "# calls: {left}")?;
        }
        for call in calls.get(self.calls..).unwrap_or(&[]) {
            write!(self.out, "# ")?;
            write_call(self.alloc, self.out, self.calls, call)?;
            self.calls = self.calls.saturating_add(1);
        }
        self.released(history)
    }

    fn released(&mut self, history: &History) -> Result<(), SimulatorError> {
        for (number, bytes) in history.transcript.released.iter().enumerate() {
            let told = self.released.get(number).copied().unwrap_or(0);
            if told < bytes.len() {
                write!(self.out, "# ")?;
                write_bytes(self.out, number, bytes.get(told..).unwrap_or(&[]))?;
            }
        }
        self.note_released(history)
    }

    fn note_released(&mut self, history: &History) -> Result<(), SimulatorError> {
        self.released.clear();
        for bytes in history.transcript.released.as_slice() {
            self.released.push(bytes.len())?;
        }
        Ok(())
    }

    /// What the images hold that were read since this was last told.
    pub fn images(&mut self, witness: &mut Witness) -> Result<(), SimulatorError> {
        self.image_of(witness, Node::Primary)?;
        self.image_of(witness, Node::Standby)
    }

    fn image_of(&mut self, witness: &mut Witness, node: Node) -> Result<(), SimulatorError> {
        let Some((contents, has_stopped)) = witness.take_seen(node) else {
            return Ok(());
        };
        if has_stopped {
            let node = name_of(node);
            writeln!(self.out, "# {node}: stopped")?;
        }
        self.image(node, &contents)
    }

    /// What the image of a node holds.
    pub fn image(&mut self, node: Node, contents: &ImageContents) -> Result<(), SimulatorError> {
        let node = match node {
            Node::Primary => "# primary",
            Node::Standby => "# standby",
        };
        write_position(self.out, node, &contents.record)?;
        write_records(self.out, node, contents)?;
        Ok(())
    }
}
