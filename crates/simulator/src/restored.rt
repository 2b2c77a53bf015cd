//! What comes of an older image that is put back at the end of a history, by what is read of both images.
use crate::breach::Breach;
use crate::found::Found;
use crate::restoring::{Outcome, Restored, start_again};
use crate::teller::Teller;
use crate::witness::Witness;
use kv_types::{RecordId, Refusal, Value};
use machine::Node;
use model::{ImageContents, read_image};
use std::alloc::{AllocError, Global};
use std::hash::RandomState;
use std::io::Write;

/// The image of this node, kept behind so many events, is put back at the end.
#[derive(Clone, Copy, Debug, PartialEq, Eq)]
pub struct Restoring {
    pub node: Node,
    pub after: u64,
}

/// Keeps the image that is put back at the end of a history.
#[derive(Drop)]
pub struct Keeper {
    restoring: Option<Restoring>,
    kept: Option<Vec<u64>>,
    /// Whether the history came to where the image was to be kept.
    is_past: bool,
}

impl Keeper {
    pub fn new(restoring: Option<Restoring>) -> Keeper {
        Keeper {
            restoring,
            kept: None,
            is_past: false,
        }
    }

    /// So many events happened. Where the image is to be kept now, it is, unless its node has stopped: what a crash leaves then need not be it. Returns the node
    /// of which it is.
    pub fn see(&mut self, events: u64, witness: &Witness) -> Result<Option<Node>, AllocError> {
        let Some(restoring) = self.restoring else {
            return Ok(None);
        };
        if restoring.after != events {
            return Ok(None);
        }
        self.is_past = true;
        self.kept = witness.image(restoring.node)?;
        Ok(Some(restoring.node))
    }

    /// The node whose image is put back, if it was to be kept before.
    pub fn node(&self) -> Option<Node> {
        match self.restoring {
            Some(restoring) if self.is_past => Some(restoring.node),
            _ => None,
        }
    }

    /// The images of the primary and of the standby at the end, one of which was kept; none where nothing is put back. An image from before its node was
    /// promoted undoes that, of which the promise says nothing.
    fn images(self, witness: &Witness) -> Result<Option<(Vec<u64>, Vec<u64>)>, AllocError> {
        let (Some(restoring), Some(kept)) = (self.restoring, self.kept) else {
            return Ok(None);
        };
        match restoring.node {
            Node::Primary => Ok(Some((kept, witness.words(Node::Standby)?))),
            Node::Standby if witness.is_promoted() => Ok(None),
            Node::Standby => Ok(Some((witness.words(Node::Primary)?, kept))),
        }
    }
}

/// Puts the image back that was kept of a history that ended well, and looks at what came of it.
pub fn see_restored<W: Write>(
    alloc: Global,
    keeper: Keeper,
    witness: &mut Witness,
    teller: &mut Teller<'_, W>,
    hash_builder: RandomState,
) -> Result<(), Found> {
    let Some((primary, standby)) = keeper.images(witness)? else {
        return Ok(());
    };
    let before = Images::read(alloc, primary.as_slice(), standby.as_slice())?;
    let Restored {
        outcome,
        primary,
        standby,
    } = start_again(alloc, primary.as_slice(), standby.as_slice(), hash_builder)?;
    let after = Images::read(alloc, primary.as_slice(), standby.as_slice())?;
    witness.tally.count_restore(outcome.is_ok());
    teller.restored(outcome)?;
    teller.image(Node::Primary, &after.primary)?;
    teller.image(Node::Standby, &after.standby)?;
    check(outcome, &before, &after, witness)?;
    Ok(())
}

/// What the images of both nodes hold.
#[derive(Drop)]
struct Images {
    primary: ImageContents,
    standby: ImageContents,
}

impl Images {
    fn read(alloc: Global, primary: &[u64], standby: &[u64]) -> Result<Images, Found> {
        Ok(Images {
            primary: read_whole(alloc, primary)?,
            standby: read_whole(alloc, standby)?,
        })
    }
}

fn read_whole(alloc: Global, words: &[u64]) -> Result<ImageContents, Found> {
    match read_image(alloc, words)? {
        Some(contents) => Ok(contents),
        None => Err(Found::Breach(Breach::Damaged)),
    }
}

/// Checks what came of the link.
fn check(
    outcome: Outcome,
    before: &Images,
    after: &Images,
    witness: &Witness,
) -> Result<(), Breach> {
    if !is_same(&before.primary, &after.primary) {
        return Err(Breach::Touched);
    }
    match outcome {
        Err(refused) => check_refused(refused.refusal, before, after, witness),
        Ok(_) => check_taken(after, witness),
    }
}

/// One of the nodes lacks what the other cannot tell, and both hold what they held. No standby's image is one that was promoted.
fn check_refused(
    refusal: Refusal,
    before: &Images,
    after: &Images,
    witness: &Witness,
) -> Result<(), Breach> {
    let may_refuse = match refusal {
        Refusal::PositionGap | Refusal::StandbyAhead => true,
        Refusal::WrongRole => witness.is_promoted(),
        _ => false,
    };
    if !may_refuse {
        return Err(Breach::Cause);
    }
    if is_same(&before.standby, &after.standby) {
        Ok(())
    } else {
        Err(Breach::Touched)
    }
}

/// The primary holds all that was released, and the standby what the primary holds.
fn check_taken(after: &Images, witness: &Witness) -> Result<(), Breach> {
    let (own, other) = (&after.primary.record, &after.standby.record);
    witness.check_serving(own.position)?;
    let is_level = own.position == other.position && own.epoch == other.epoch;
    if is_level && holds_same(&after.primary, &after.standby) {
        Ok(())
    } else {
        Err(Breach::Apart)
    }
}

/// Whether an image stands where the other does, and holds the same.
fn is_same(before: &ImageContents, after: &ImageContents) -> bool {
    let (old, new) = (&before.record, &after.record);
    old.role == new.role
        && old.epoch == new.epoch
        && old.position == new.position
        && holds_same(before, after)
}

/// Whether both hold the same records.
fn holds_same(one: &ImageContents, other: &ImageContents) -> bool {
    are_same(one.keyspace.records(), other.keyspace.records())
}

/// Whether the records of two images, which are in their order, are the same.
fn are_same(one: &[(RecordId, Value)], other: &[(RecordId, Value)]) -> bool {
    one.len() == other.len()
        && one.iter().zip(other).all(|(own, theirs)| own.0 == theirs.0
            && own.1.as_slice() == theirs.1.as_slice())
}
