//! What was called and what was released, which the caller keeps.
ghost use Rattle.std.specs.Prelude.{◌≡◌, ◌<◌, ◌≤◌, [], List, length, IfOk, IfErr, OnOk, OnErr, slice_index_or, vec_len, vec_capacity};
ghost use Rattle.model.specs.declared.call.Call.{Call};
ghost use Rattle.model.specs.Call.{cut_at};
ghost use Rattle.machine.specs.Connection.{Connection as Machine};
ghost use Rattle.connections.specs.Session.{TranscriptRefines, positions_of, released_of};

use kv_types::Refusal;
use model::Call;
use std::alloc::Global;

/// Room is made for as many calls at least.
const LEAST_CALLS: usize = 16;

/// The list of calls, and what was released to each connection. `Connections` is lent it, and keeps nothing of it: it grows with all that ever happened.
#[derive(Drop)]
pub struct Transcript {
    /// The list of calls.
    pub calls: Vec<Call>,
    /// For each call the position of the list after it. They never fall.
    pub positions: Vec<u64>,
    /// For each connection that ever entered, in the order in which they entered, all bytes that were written to it.
    pub released: Vec<Vec<u8>>,
}

impl Transcript {
    /// No call and no connection, with room for `calls` calls.
    ///
    /// # Errors
    ///
    /// `Memory` alone, where that room was refused.
    pub fn new(alloc: Global, calls: usize) -> Result<Transcript, Refusal>
        ensures stands { IfOk result (λ transcript. TranscriptRefines transcript [] []) }
        ensures room { IfOk result (λ transcript. calls ≤ vec_capacity transcript.calls) }
        ensures cause { IfErr result (λ refusal. refusal ≡ Refusal.Memory) }
    {
        Ok(Transcript {
            calls: Vec::with_capacity(alloc, calls)?,
            positions: Vec::with_capacity(alloc, calls)?,
            released: Vec::new(alloc),
        })
    }

    /// Makes room for one more call and its position, if there is none.
    ///
    /// # Errors
    ///
    /// `Memory` alone, where there was no room and it was refused. The list and what was released are as before.
    pub fn make_room(&mut self) -> Result<(), Refusal>
        ensures room { OnOk result (vec_len self.new.calls < vec_capacity self.new.calls) }
        ensures stands { (machines : List Machine) (list : List Call) → TranscriptRefines self.old machines list → TranscriptRefines self.new machines list }
        ensures calls { self.new.calls.items ≡ self.old.calls.items }
        ensures released { self.new.released ≡ self.old.released }
        ensures enough { vec_len self.old.calls < vec_capacity self.old.calls → vec_capacity self.new.calls ≡ vec_capacity self.old.calls }
        ensures cause { IfErr result (λ refusal. refusal ≡ Refusal.Memory) }
        ensures none { OnErr result (vec_capacity self.old.calls ≤ vec_len self.old.calls) }
    {
        if self.calls.len() < self.calls.capacity() {
            return Ok(());
        }
        // The positions come first: of them there may be room for more.
        let more = self.calls.len().max(LEAST_CALLS);
        self.positions.reserve_exact(more)?;
        self.calls.reserve_exact(more)?;
        Ok(())
    }

    /// All bytes that were written to connection `c`; none if it has not entered.
    pub fn released(&self, c: u64) -> &[u8]
        ensures { result.now ≡ slice_index_or (released_of self.now) c [] }
    {
        match self.released.get(c as usize) {
            Some(bytes) => bytes.as_slice(),
            None => &[],
        }
    }

    /// Drops the calls after this position of the list, and their positions.
    pub(crate) fn cut(&mut self, position: u64)
        ensures calls { self.old.positions.items ≡ positions_of self.old.calls.items → self.new.calls.items ≡ cut_at self.old.calls.items position }
        ensures positions { self.old.positions.items ≡ positions_of self.old.calls.items → self.new.positions.items ≡ positions_of self.new.calls.items }
        ensures released { self.new.released ≡ self.old.released }
        ensures fewer { length self.new.calls.items ≤ length self.old.calls.items }
        ensures room { (vec_capacity self.new.calls ≡ vec_capacity self.old.calls) × (vec_capacity self.new.positions ≡ vec_capacity self.old.positions) }
    {
        let count = self.positions.partition_point(|after| *after <= position);
        self.calls.truncate(count);
        self.positions.truncate(count);
    }
}
