//! What the promise says of a pair, looked at after each event, by what is read of both images and the positions of the list.
use crate::breach::Breach;
use crate::found::Found;
use crate::replies::{position_of, position_released};
use crate::shown::Shown;
use crate::sight::{Glance, Sight};
use crate::tally::Tally;
use machine::{Event, Node};
use model::ImageContents;
use std::alloc::{AllocError, Global};
use world::History;

/// What is known of a pair from all that was seen of it.
#[derive(Drop)]
pub struct Witness {
    alloc: Global,
    /// The position of the list after the last event.
    position: u64,
    /// The greatest position of a call of which a byte was released.
    covered: u64,
    sight: Sight,
    /// Whether a fence of a device may fail that no event asked to.
    may_fail: bool,
    pub tally: Tally,
}

impl Witness {
    /// Of a new pair, over devices that show this, of which a fence may fail that no event asks to.
    pub fn new(alloc: Global, first: Shown, second: Shown, may_fail: bool) -> Witness {
        Witness {
            alloc,
            position: 0,
            covered: 0,
            sight: Sight::new(first, second),
            may_fail,
            tally: Tally::new(),
        }
    }

    /// Looks at the images of a pair to which nothing happened.
    pub fn begin(&mut self) -> Result<(), Found> {
        let _ = self.look(0, false)?;
        Ok(())
    }

    /// The node that has stopped, if one has, and may crash.
    pub fn stopped(&self) -> Option<Node> {
        self.sight.stopped()
    }

    /// The words of the image of this node, by who it was at the beginning; none where a fence of it failed, which leaves one of two. A standby that was
    /// promoted is no standby.
    pub fn image(&self, node: Node) -> Result<Option<Vec<u64>>, AllocError> {
        if self.sight.has_stopped(node) {
            return Ok(None);
        }
        Ok(Some(self.sight.words(self.alloc, node)?))
    }

    /// The newest words of this node's device.
    pub fn words(&self, node: Node) -> Result<Vec<u64>, AllocError> {
        self.sight.words(self.alloc, node)
    }

    /// What the image of this node holds, if it was read since this was last asked for; and whether a fence of it has failed since it crashed last.
    pub fn take_seen(&mut self, node: Node) -> Option<(ImageContents, bool)> {
        self.sight.take_seen(node)
    }

    /// Whether the standby was promoted.
    pub fn is_promoted(&self) -> bool {
        self.sight.is_promoted()
    }

    /// Checks where a primary stands that goes on to serve: it has all that was released.
    pub fn check_serving(&self, position: u64) -> Result<(), Breach> {
        if position < self.covered {
            Err(Breach::Older)
        } else {
            Ok(())
        }
    }

    /// Looks at the pair after an event, which did its step or was not enabled.
    pub fn see(&mut self, event: &Event, did: bool, history: &History) -> Result<(), Found> {
        self.tally.count_event();
        let was_promoted = self.sight.is_promoted();
        let before = std::mem::replace(&mut self.position, position_of(history));
        let glance = self.look(before.max(self.position), did && may_succeed(event))?;
        if glance.is_changed && !did {
            return Err(Found::Breach(Breach::Changed));
        }
        let is_promoted = self.sight.is_promoted();
        if did && matches!(event, Event::Promote) && !glance.fails && !is_promoted {
            return Err(Found::Breach(Breach::Role));
        }
        if did {
            self.follow(event, history)?;
        }
        if is_promoted && !was_promoted {
            self.tally.promotions = self.tally.promotions.saturating_add(1);
            self.check_cut()?;
        }
        self.check_covered()
    }

    /// Looks at both images where a fence failed in this event, which ended the run.
    pub fn see_fault(&mut self, event: &Event) -> Result<(), Found> {
        self.tally.count_event();
        let glance = self.look(self.position, may_succeed(event))?;
        if !glance.fails || !self.may_fail {
            return Err(Found::Breach(Breach::Ended));
        }
        Ok(())
    }

    /// Looks at both images after that, once the devices crashed.
    pub fn see_left(&mut self) -> Result<(), Found> {
        let _ = self.sight.look_at_images(self.alloc, self.position, true)?;
        self.check_covered()
    }

    /// Looks at both images, of a list up to this position. The standby may have become the primary, or not.
    fn look(&mut self, position: u64, may_succeed: bool) -> Result<Glance, Found> {
        let glance = self.sight.look(self.alloc, position, may_succeed)?;
        if glance.fails {
            self.tally.faults = self.tally.faults.saturating_add(1);
        }
        Ok(glance)
    }

    /// Follows an event that did its step.
    fn follow(&mut self, event: &Event, history: &History) -> Result<(), Found> {
        match event {
            Event::Turn(_) => self.tally.replies = self.tally.replies.saturating_add(1),
            Event::Crash(node, _, _, _) => self.crash(*node)?,
            Event::Fence => self.sight.fence(),
            Event::Write(connection, _) => {
                let position = position_released(self.alloc, history, *connection)?;
                self.covered = self.covered.max(position);
            }
            _ => {}
        }
        Ok(())
    }

    fn crash(&mut self, node: Node) -> Result<(), Breach> {
        self.tally.crashes = self.tally.crashes.saturating_add(1);
        match node {
            Node::Primary => self.check_cut(),
            Node::Standby => Ok(()),
        }
    }

    /// The list was cut at the position of the image that serves.
    fn check_cut(&self) -> Result<(), Breach> {
        if self.position == self.sight.serving() {
            Ok(())
        } else {
            Err(Breach::List)
        }
    }

    /// Each call of which a byte was released is in the images of all nodes that may still serve.
    fn check_covered(&self) -> Result<(), Found> {
        if self.sight.least() < self.covered {
            return Err(Found::Breach(Breach::Uncovered));
        }
        Ok(())
    }
}

/// Whether the standby may be the primary from this event on: it is promoted, or crashes in the middle of that, or after a fence failed there.
fn may_succeed(event: &Event) -> bool {
    matches!(event, Event::Promote | Event::Crash(Node::Standby, _, _, _))
}
