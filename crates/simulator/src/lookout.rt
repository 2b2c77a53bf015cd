//! Looking at a pair while a history is played, and telling what is seen.
use crate::case::found_in;
use crate::found::Found;
use crate::restored::{Keeper, Restoring, see_restored};
use crate::tally::Tally;
use crate::teller::Teller;
use crate::witness::Witness;
use kv_types::Refusal;
use machine::{Event, Node};
use std::alloc::Global;
use std::hash::RandomState;
use std::io::Write;
use world::History;

/// Looks at a pair, tells what it sees, and keeps the image that is put back at the end.
#[derive(Drop)]
pub struct Lookout<'a, W> {
    witness: Witness,
    keeper: Keeper,
    teller: Teller<'a, W>,
}

impl<'a, W: Write> Lookout<'a, W> {
    pub fn new(
        witness: Witness,
        restoring: Option<Restoring>,
        teller: Teller<'a, W>,
    ) -> Lookout<'a, W> {
        Lookout {
            witness,
            keeper: Keeper::new(restoring),
            teller,
        }
    }

    /// What was counted.
    pub fn tally(&self) -> Tally {
        self.witness.tally
    }

    /// The node that has stopped, if one has, and may crash.
    pub fn stopped(&self) -> Option<Node> {
        self.witness.stopped()
    }

    /// Looks at a pair to which nothing happened.
    pub fn begin(&mut self) -> Result<(), Found> {
        let seen = self.witness.begin();
        self.teller.images(&mut self.witness)?;
        seen
    }

    /// So many events happened: the image that is put back is kept, where that is asked for here.
    pub fn keep(&mut self, events: u64) -> Result<(), Found> {
        if let Some(node) = self.keeper.see(events, &self.witness)? {
            self.teller.handle("keep", node)?;
        }
        Ok(())
    }

    /// An event comes next.
    pub fn tell(&mut self, event: &Event) -> Result<(), Found> {
        self.teller.event(event)?;
        Ok(())
    }

    /// Looks at the pair after an event, which did its step or was not enabled.
    pub fn see(&mut self, event: &Event, did: bool, history: &History) -> Result<(), Found> {
        let seen = self.witness.see(event, did, history);
        self.teller.outcome(did)?;
        self.teller.given(history)?;
        self.teller.images(&mut self.witness)?;
        seen
    }

    /// Looks at the pair where an event ended the run with this refusal.
    pub fn see_refusal(&mut self, event: &Event, refusal: Refusal) -> Result<(), Found> {
        let Refusal::Fault = refusal else {
            return Err(found_in(refusal));
        };
        let seen = self.witness.see_fault(event);
        self.teller.ended(refusal)?;
        self.teller.images(&mut self.witness)?;
        seen
    }

    /// One event more was reached, after which nothing is looked at.
    pub fn count_event(&mut self) {
        self.witness.tally.count_event();
    }

    /// Looks at both images after that, once the devices crashed.
    pub fn see_left(&mut self) -> Result<(), Found> {
        let seen = self.witness.see_left();
        self.teller.images(&mut self.witness)?;
        seen
    }

    /// Puts the image back that was kept, if the history ended well, and looks at what came of it.
    pub fn see_restored(
        &mut self,
        alloc: Global,
        ended_well: Result<bool, Found>,
        hash_builder: RandomState,
    ) -> Result<(), Found> {
        let ended_well = ended_well?;
        let keeper = std::mem::replace(&mut self.keeper, Keeper::new(None));
        if let Some(node) = keeper.node() {
            self.teller.handle("restore", node)?;
        }
        if !ended_well {
            return Ok(());
        }
        see_restored(
            alloc,
            keeper,
            &mut self.witness,
            &mut self.teller,
            hash_builder,
        )
    }
}
