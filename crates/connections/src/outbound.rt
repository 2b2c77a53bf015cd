//! What goes out to a connection, from the sequencer on.
ghost use Rattle.std.specs.Prelude.{◌≡◌, ◌≢◌, ◌≤◌, List, [], length, IfOk, IfErr, OnErr};
ghost use Rattle.model.specs.declared.call.Call.{Call};
ghost use Rattle.machine.specs.Connection.{Outbound as Machine, having_seen};

use kv_types::{Refusal, Seen};
use machine::Mark;
use model::Call;
use pipes::{Inlet, LocalPipe};
use reply_gate::Gate;
use std::alloc::{AllocError, Global};

/// A reply that was made: the index of its call in the list, and the position of the list after it.
#[derive(Clone, Copy, Debug, PartialEq, Eq)]
pub(crate) struct Made {
    pub(crate) call: usize,
    pub(crate) position: u64,
}

/// A connection's gate, and what lies on either side of it.
#[derive(Drop)]
pub(crate) struct Outbound {
    /// Replies that the gate has not taken.
    pub(crate) made: LocalPipe<Made>,
    pub(crate) gate: Gate,
    pub(crate) seen: Seen,
}

impl Outbound {
    ghost use Rattle.machine.specs.Connection.{no_connection};
    ghost use Rattle.connections.specs.Outbound.{OutboundRefines, HoldsFirst, LetsOut, Writes};

    pub(crate) fn new(alloc: Global) -> Result<Outbound, AllocError>
        ensures { IfOk result (λ outbound. (calls : List Call) → OutboundRefines calls outbound no_connection.outbound) }
    {
        Ok(Outbound {
            made: LocalPipe::new(alloc)?,
            gate: Gate::new(alloc),
            seen: Seen {
                local: 0,
                remote: 0,
            },
        })
    }

    /// The gate takes the first reply that waits. Returns whether there was one. Where it is refused the reply waits on.
    pub(crate) fn hold(&mut self, calls: &[Call]) -> Result<bool, Refusal>
        ensures stands { IfOk result (λ did. (machine : Machine) → OutboundRefines calls.now self.old machine → HoldsFirst calls.now self.new did machine) }
        ensures cause { IfErr result (λ refusal. refusal ≡ Refusal.Memory) }
        ensures some { OnErr result (self.old.made.items ≢ []) }
        ensures same { OnErr result (self.new ≡ self.old) }
    {
        let Some(made) = self.made.first() else {
            return Ok(false);
        };
        // The list has the call of each reply that was made.
        let Some(call) = calls.get(made.call) else {
            return Ok(false);
        };
        self.gate.hold(&call.reply, made.position)?;
        let _ = self.made.take();
        Ok(true)
    }

    /// The gate reads one of the marks; `marks` has their present values.
    pub(crate) fn read(&mut self, mark: Mark, marks: Seen)
        ensures stands { (calls : List Call) (machine : Machine) → OutboundRefines calls self.old machine
            → OutboundRefines calls self.new (having_seen mark marks machine) }
    {
        match mark {
            Mark::Local => self.seen.local = marks.local,
            Mark::Remote => self.seen.remote = marks.remote,
        }
    }

    /// Releases the replies that are covered. Returns whether there were any.
    pub(crate) fn release(&mut self) -> bool
        ensures { (calls : List Call) (machine : Machine) → OutboundRefines calls self.old machine → LetsOut calls self.new result machine }
    {
        if !self.gate.can_release(&self.seen) {
            return false;
        }
        self.gate.release(&self.seen);
        true
    }

    /// Writes `n` of the pending bytes to the connection, behind those that were released to it, if there are that many. Returns whether it did.
    pub(crate) fn write(&mut self, released: &mut Vec<u8>, n: u64) -> Result<bool, Refusal>
        ensures stands { IfOk result (λ did. (calls : List Call) (machine : Machine) → OutboundRefines calls self.old machine
            → released.old.items ≡ machine.released → Writes n calls self.new released.new.items did machine) }
        ensures cause { IfErr result (λ refusal. refusal ≡ Refusal.Memory) }
        ensures enough { OnErr result (n ≤ length self.old.gate.pending) }
        ensures released { OnErr result (released.new.items ≡ released.old.items) }
        ensures same { OnErr result ((calls : List Call) (machine : Machine) → OutboundRefines calls self.old machine → OutboundRefines calls self.new machine) }
    {
        let count = n as usize;
        if count > self.gate.pending_len() {
            return Ok(false);
        }
        self.gate.write_to(count, released)?;
        Ok(true)
    }
}
