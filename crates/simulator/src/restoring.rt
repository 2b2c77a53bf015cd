//! An image that was kept takes the place of its node's own: both nodes are started again, and the link is opened between them.
ghost use Rattle.std.specs.Prelude.{◌≡◌, ℕ, IfOk};
ghost use Rattle.mv_keyspace.specs.Table.{Table};
ghost use Rattle.pmem.specs.Crash.{image_of};
ghost use Rattle.pmem.specs.Device.{Only};
ghost use Rattle.standby.specs.Taking.{Stands};

use crate::node::name_of;
use crate::report::write_refusal;
use crate::shown::{ShowingPmem, Shown};
use frames::Ack;
use kv_types::Refusal;
use machine::Node;
use mv_keyspace::{Keyspace, MvKeyspace};
use pmem::{Crashing, Pmem, SimPmem};
use primary::Opened;
use standby::Standby;
use standby_stream::{Outgoing, judge};
use std::alloc::{AllocError, Global};
use std::hash::RandomState;
use std::io;
use std::io::Write;
use wbl_engine::{Durable, WblEngine};

/// An image that is kept: of this node, behind so many events.
#[derive(Clone, Copy, Debug, PartialEq, Eq)]
pub struct Keep {
    pub node: Node,
    pub after: usize,
    pub line: u64,
}

/// The image that was kept so takes the place of its node's own.
#[derive(Clone, Copy, Debug, PartialEq, Eq)]
pub struct Restore {
    pub kept: Keep,
    pub line: u64,
}

/// A node refused to open its image, or what the other one told it.
#[derive(Clone, Copy, Debug, PartialEq, Eq)]
pub struct Refused {
    pub node: Node,
    pub refusal: Refusal,
}

/// Whether the link was taken. Then nothing is left to send to the standby, which was at this position before.
pub type Outcome = Result<u64, Refused>;

/// What came of the link, and the words of both images then.
#[derive(Drop)]
pub struct Restored {
    pub outcome: Outcome,
    pub primary: Vec<u64>,
    pub standby: Vec<u64>,
}

/// The engine of each node.
type Engine = WblEngine<ShowingPmem<SimPmem>>;

/// The image of this node that was kept last.
pub fn last_of(keeps: &[Keep], node: Node) -> Option<Keep> {
    let mut last = None;
    for keep in keeps {
        if keep.node == node {
            last = Some(*keep);
        }
    }
    last
}

/// Starts a primary and a standby over images of these words, and opens the link between them: the primary is told what the standby acknowledges, as if it
/// had dialed it, and all that it sends then is taken.
pub fn start_again(
    alloc: Global,
    primary: &[u64],
    standby: &[u64],
    hash_builder: RandomState,
) -> Result<Restored, AllocError> {
    let (first, shown_first) = ShowingPmem::new(alloc, device_with(alloc, primary)?)?;
    let (second, shown_second) = ShowingPmem::new(alloc, device_with(alloc, standby)?)?;
    let outcome = open_both(alloc, first, second, hash_builder);
    if lacks_memory(&outcome) {
        return Err(AllocError);
    }
    Ok(Restored {
        outcome,
        primary: words_shown(alloc, &shown_first)?,
        standby: words_shown(alloc, &shown_second)?,
    })
}

/// Whether memory was refused. No fence is asked to fail, so one fails only where there is no memory for the device's own lists.
fn lacks_memory(outcome: &Outcome) -> bool {
    match outcome {
        Ok(_) => false,
        Err(refused) => matches!(refused.refusal, Refusal::Memory | Refusal::Fault),
    }
}

/// A device that holds these words and nothing older, as a node leaves it that was stopped.
pub fn device_with(alloc: Global, words: &[u64]) -> Result<SimPmem, AllocError>
    ensures settled { IfOk result (λ device. (word : ℕ) → Only ((⟦<SimPmem as Pmem>⟧.state device).words word) (image_of (⟦<SimPmem as Pmem>⟧.state device).words word)) }
{
    let mut device = SimPmem::new(alloc, words.len() as u64 / 8)?;
    store_all(&mut device, words);
    flush_all(&mut device);
    if device.fence().is_err() {
        return Err(AllocError);
    }
    device.crash(&[]);
    Ok(device)
}

/// Stores the words of a device that are not zero: a new one has zeros.
fn store_all(device: &mut SimPmem, words: &[u64]) {
    for word in 0..8 * device.lines() {
        let value = words.get(word as usize).copied().unwrap_or(0);
        if value != 0 {
            device.store(word, value);
        }
    }
}

fn flush_all(device: &mut SimPmem) {
    for line in 0..device.lines() {
        device.flush(line);
    }
}

/// The newest value of each word of a device.
fn words_shown(alloc: Global, shown: &Shown) -> Result<Vec<u64>, AllocError> {
    match shown.try_borrow() {
        Ok(shown) => copied(alloc, shown.words.as_slice()),
        Err(_) => Ok(Vec::new(alloc)),
    }
}

/// A copy of these words.
pub fn copied(alloc: Global, words: &[u64]) -> Result<Vec<u64>, AllocError> {
    let mut all = Vec::with_capacity(alloc, words.len())?;
    all.extend_from_slice(words)?;
    Ok(all)
}

/// Opens both images as the programs do, and then the link.
fn open_both(
    alloc: Global,
    first: ShowingPmem<SimPmem>,
    second: ShowingPmem<SimPmem>,
    hash_builder: RandomState,
) -> Outcome
    requires first { (word : ℕ) → Only ((⟦<ShowingPmem<SimPmem> as Pmem>⟧.state first).words word) (image_of (⟦<ShowingPmem<SimPmem> as Pmem>⟧.state first).words word) }
    requires second { (word : ℕ) → Only ((⟦<ShowingPmem<SimPmem> as Pmem>⟧.state second).words word) (image_of (⟦<ShowingPmem<SimPmem> as Pmem>⟧.state second).words word) }
{
    let opened: Opened<Engine, MvKeyspace> = match primary::open(alloc, first, hash_builder) {
        Ok(opened) => opened,
        Err(refusal) => return Err(by_primary(refusal)),
    };
    match standby::open(alloc, second) {
        Ok(node) => link_both(alloc, opened, node),
        Err(refusal) => {
            drop(opened);
            Err(by_standby(refusal))
        }
    }
}

/// Opens the link between the two, and ends both.
fn link_both(
    alloc: Global,
    opened: Opened<Engine, MvKeyspace>,
    node: Standby<Engine, MvKeyspace>,
) -> Outcome
    requires stands { Stands ⟦<Engine as Durable>⟧.device ⟦<Engine as Durable>⟧.contents ⟦<Engine as Durable>⟧.is_faulted ⟦<MvKeyspace as Keyspace>⟧.table node }
{
    let mut node = node;
    let outcome = link(alloc, opened, &mut node);
    drop(node);
    outcome
}

fn by_primary(refusal: Refusal) -> Refused {
    Refused {
        node: Node::Primary,
        refusal,
    }
}

fn by_standby(refusal: Refusal) -> Refused {
    Refused {
        node: Node::Standby,
        refusal,
    }
}

/// Opens the link, and hands all that is due to the standby.
fn link(
    alloc: Global,
    opened: Opened<Engine, MvKeyspace>,
    node: &mut Standby<Engine, MvKeyspace>,
) -> Outcome
    requires stands { Stands ⟦<Engine as Durable>⟧.device ⟦<Engine as Durable>⟧.contents ⟦<Engine as Durable>⟧.is_faulted ⟦<MvKeyspace as Keyspace>⟧.table node.old }
{
    let own = opened.position;
    let mut outgoing = match Outgoing::new(alloc, opened.epoch, opened.opening) {
        Ok(outgoing) => outgoing,
        Err(_) => return Err(by_primary(Refusal::Memory)),
    };
    let ack = node.ack();
    open_link(alloc, &mut outgoing, ack, own).map_err(by_primary)?;
    hand_over(alloc, &mut outgoing, own, node)?;
    Ok(ack.position())
}

/// Opens a primary's link to a standby that says this first, as `links` does: the primary, which is at this position, takes it as any other acknowledgement,
/// and has what is due from there sent.
fn open_link(alloc: Global, outgoing: &mut Outgoing, ack: Ack, own: u64) -> Result<(), Refusal> {
    judge(outgoing.epoch(), ack, own)?;
    outgoing.open_at(alloc, ack.position())?;
    outgoing.note(alloc, ack.position());
    Ok(())
}

/// Hands over the delta, if one is due. A primary that was just opened has no groups, so nothing follows it.
fn hand_over(
    alloc: Global,
    outgoing: &mut Outgoing,
    own: u64,
    node: &mut Standby<Engine, MvKeyspace>,
) -> Result<(), Refused>
    requires stands { Stands ⟦<Engine as Durable>⟧.device ⟦<Engine as Durable>⟧.contents ⟦<Engine as Durable>⟧.is_faulted ⟦<MvKeyspace as Keyspace>⟧.table node.old }
{
    let Some(frame) = outgoing.take_delta() else {
        return Ok(());
    };
    let ack = node.take_frame(alloc, frame).map_err(by_standby)?;
    outgoing.on_ack(alloc, ack, own).map_err(by_primary)
}

/// Prints what came of the link that the restore of this line led to.
pub fn write_outcome<W: Write>(out: &mut W, line: u64, outcome: Outcome) -> io::Result<()> {
    write!(out, "restore, line {line}: ")?;
    write_link(out, outcome)
}

/// What came of a link.
pub fn write_link<W: Write>(out: &mut W, outcome: Outcome) -> io::Result<()> {
    match outcome {
        Ok(position) => writeln!(out, "taken from position {position}"),
        Err(refused) => {
            let node = name_of(refused.node);
            write!(out, "refused by the {node}: ")?;
            write_refusal(out, refused.refusal)
        }
    }
}
