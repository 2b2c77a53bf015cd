//! What the threads of a primary own is made.
ghost use Rattle.std.specs.Prelude.{◌≡◌, true, IfOk};
ghost use Rattle.std.specs.Arc.{arc_value};
ghost use Rattle.standby_stream.specs.Stream.{new_stream};
ghost use Rattle.links.specs.Ends.{Begin};

use crate::accepting::Acceptor;
use crate::copying::{CopyMaker, CopyStage};
use crate::mark_seats::{Seats, new_seats};
use crate::node::Node;
use crate::open_connections::OpenConnections;
use crate::setup::ClientLimits;
use crate::shared_entrance::SharedEntrance;
use crate::watching::Watcher;
use clients::{Driver, DriverEntrance, SocketRoom};
use kv_types::Refusal;
use links::{AckReceiver, CopyAsk, CopyDesk, CopyStep, LinkFlags, LinkSender, SenderThread};
use lobby::Entrance;
use marks::{MarkSeat, Marks, Reader, ThreadMarks};
use model::Group;
use node_log::{FillReader, FillSetter, Shown, new_fill};
use pipes::{RingOutlet, RingPipe};
use placing::Fill;
use standby_stream::{Opening, Outgoing};
use std::alloc::{AllocError, Global};
use std::net::Net;
use std::sync::{Arc, Mutex};
use wakes::{DueIn, DueOut, Flag, Idle, ReadyList, Sleeper, Waker, due_list, new_sleeper};
use wbl_engine::Committed;

/// How often the link's sender gives way to others before it sleeps.
const SPIN: u32 = 30;

/// How many threads drive the connections.
const DRIVERS: usize = 2;

/// How often the node's thread does, which all connections wait for.
pub(crate) const NODE_SPIN: u32 = 500;

/// What the threads of a primary own, each its own.
#[derive(Drop)]
pub(crate) struct Threading {
    pub(crate) node: Node,
    pub(crate) sender: LinkSender,
    pub(crate) receiver: AckReceiver,
    pub(crate) acceptor: Acceptor,
    pub(crate) drivers: Vec<Driver>,
    pub(crate) entrance: Arc<SharedEntrance>,
    pub(crate) watcher: Watcher,
    /// Wakes the node's thread, for the committer's.
    pub(crate) wake: Waker,
}

/// What the threads of the link own, and the node's ends of what lies between.
#[derive(Drop)]
struct LinkEnds {
    sender: LinkSender,
    receiver: AckReceiver,
    groups: RingOutlet<Group>,
    /// Wakes the link's sender.
    link: Waker,
    /// Makes a newcomer's copy for it.
    copying: CopyMaker,
}

/// What lies between the threads of the link and the node's, and what the sender keeps.
#[derive(Drop)]
struct Wires {
    outgoing: Outgoing,
    groups: RingPipe<Group>,
    /// Where the sender asks the node's thread for a newcomer's copy, and is given it.
    desk: CopyDesk,
    copying: CopyMaker,
    sleeper: Sleeper,
    link: Waker,
    /// The receiver's wakers, of the sender and of the node, and the sender's, of the node.
    wakers: (Waker, Waker, Waker),
    /// What the receiver tells the sender.
    flags: (Arc<LinkFlags>, Arc<LinkFlags>),
}

/// What the acceptor and the drivers own, and what the node's thread has of the connections and sleeps at.
#[derive(Drop)]
struct ClientEnds {
    connections: OpenConnections,
    acceptor: Acceptor,
    drivers: Vec<Driver>,
    /// What each of them shows.
    shown: Vec<Arc<Shown>>,
    entrance: Arc<SharedEntrance>,
    /// Set once no further connection is accepted.
    listener_closed: Arc<Flag>,
    sleeper: Sleeper,
    /// Wakes the node's thread.
    node: Waker,
}

/// All that the threads of a primary own, over an image that is durable so far, that holds so much and that has this number of a pair, with clients that may take
/// so much.
///
/// # Errors
///
/// `Memory`, also where the system refuses a descriptor.
pub(crate) fn new_threading<R: Net>(
    rt: &R,
    alloc: Global,
    committed: &Committed,
    opening: Opening,
    epoch: u64,
    address: String,
    pair: u64,
    limits: ClientLimits,
    fill: &Fill,
) -> Result<Threading, Refusal>
    ensures marks { IfOk result (λ made. (made.node.committer_marks.raises_local ≡ true) × (made.node.committer_marks.local ≡ committed.now)) }
    ensures link { IfOk result (λ made. Begin epoch opening made.sender made.receiver) }
    ensures pair { IfOk result (λ made. made.sender.pair ≡ pair) }
{
    let (due, due_out) = due_list(alloc)?;
    let fill = new_fill(alloc, fill)?;
    let Seats {
        marks,
        root,
        local,
        node,
        remote,
        watch,
        observer,
    } = new_seats(alloc, committed)?;
    let client_ends = new_client_ends(rt, alloc, marks, root, due, limits)?;
    let made = new_link(
        alloc,
        opening,
        epoch,
        address,
        pair,
        remote,
        watch,
        due_out,
        &client_ends.node,
    );
    match made {
        Ok(link) => Ok(assemble(client_ends, link, local, node, observer, fill)),
        Err(refusal) => {
            drop(client_ends);
            Err(refusal)
        }
    }
}

fn assemble(
    client_ends: ClientEnds,
    link: LinkEnds,
    committer_marks: ThreadMarks,
    marks: ThreadMarks,
    observer: ThreadMarks,
    fill: (FillSetter, FillReader),
) -> Threading
    ensures marks { result.node.committer_marks ≡ committer_marks }
    ensures link { (result.sender ≡ link.sender) × (result.receiver ≡ link.receiver) }
{
    let ClientEnds {
        connections,
        acceptor,
        drivers,
        shown,
        entrance,
        listener_closed,
        sleeper,
        node: wake,
    } = client_ends;
    let LinkEnds {
        sender,
        receiver,
        groups,
        link,
        copying,
    } = link;
    let node = Node {
        connections,
        marks,
        committer_marks,
        groups,
        link,
        copying,
        sleeper,
        idle: Idle::new(NODE_SPIN),
        listener_closed,
        fill: fill.0,
    };
    Threading {
        node,
        sender,
        receiver,
        acceptor,
        drivers,
        entrance,
        watcher: Watcher::new(observer, shown, fill.1),
        wake,
    }
}

/// The threads of the link, and the node's ends of what lies between.
fn new_link(
    alloc: Global,
    opening: Opening,
    epoch: u64,
    address: String,
    pair: u64,
    remote: ThreadMarks,
    watch: ThreadMarks,
    due: DueOut,
    node: &Waker,
) -> Result<LinkEnds, Refusal>
    requires { remote.raises_remote ≡ true }
    ensures link { IfOk result (λ made. Begin epoch opening made.sender made.receiver) }
    ensures pair { IfOk result (λ made. made.sender.pair ≡ pair) }
{
    let Wires {
        outgoing,
        groups,
        desk,
        copying,
        sleeper,
        link,
        wakers,
        flags,
    } = new_wires(alloc, epoch, opening, node)?;
    let receiver = AckReceiver::new(&outgoing, remote, due, wakers.0, wakers.1, flags.0);
    let thread = SenderThread {
        sleeper,
        node: wakers.2,
        flags: flags.1,
        spin: SPIN,
    };
    let sender = LinkSender::new(address, pair, outgoing, groups.inlet, desk, thread, watch);
    Ok(LinkEnds {
        sender,
        receiver,
        groups: groups.outlet,
        link,
        copying,
    })
}

/// What lies between the threads of the link, and what a primary of this epoch sends that was opened so.
fn new_wires(alloc: Global, epoch: u64, opening: Opening, node: &Waker) -> Result<Wires, Refusal>
    ensures link { IfOk result (λ wires. wires.outgoing.link ≡ new_stream epoch) }
    ensures opening { IfOk result (λ wires. wires.outgoing.opening ≡ opening) }
{
    let (sleeper, link) = new_sleeper(alloc)?;
    let groups = RingPipe::<Group>::new(alloc)?;
    let (desk, copying) = new_desk(alloc, &link)?;
    let flags = shared(alloc, LinkFlags::new())?;
    let wakers = three_wakers(&link, node)?;
    let outgoing = Outgoing::new(alloc, epoch, opening)?;
    Ok(Wires {
        outgoing,
        groups,
        desk,
        copying,
        sleeper,
        link,
        wakers,
        flags,
    })
}

/// Where the sender of the link asks for a newcomer's copy, and what makes it. `link` wakes the sender.
fn new_desk(alloc: Global, link: &Waker) -> Result<(CopyDesk, CopyMaker), AllocError>
    ensures { IfOk result (λ made. made.1.stage ≡ CopyStage.Idle) }
{
    let asks = RingPipe::<CopyAsk>::new(alloc)?;
    let copies = RingPipe::<CopyStep>::new(alloc)?;
    let desk = CopyDesk::new(asks.outlet, copies.inlet);
    let copying = CopyMaker::new(asks.inlet, copies.outlet, link.another()?);
    Ok((desk, copying))
}

/// One more of the first waker, and two of the other.
fn three_wakers(one: &Waker, other: &Waker) -> Result<(Waker, Waker, Waker), AllocError> {
    let first = one.another()?;
    let second = other.another()?;
    let third = other.another()?;
    Ok((first, second, third))
}

/// A value for two threads.
fn shared<T: Drop>(alloc: Global, value: T) -> Result<(Arc<T>, Arc<T>), AllocError> {
    let one = Arc::new(alloc, value)?;
    let other = Arc::try_clone(&one)?;
    Ok((one, other))
}

/// The entrance of connections, the acceptor before it, the drivers, and the open connections behind it.
fn new_client_ends<R: Net>(
    rt: &R,
    alloc: Global,
    marks: Arc<Marks>,
    root: MarkSeat,
    due: DueIn,
    limits: ClientLimits,
) -> Result<ClientEnds, Refusal>
    requires { root.marks ≡ arc_value marks }
{
    let (sleeper, node) = new_sleeper(alloc)?;
    let ready = new_ready(alloc, &node)?;
    let listener_closed = shared(alloc, Flag::new())?;
    let entrance = new_entrance(alloc)?;
    let (drivers, entrances, shown) = new_drivers(rt, alloc, marks, root, limits)?;
    let acceptor = Acceptor::new(entrances, ready.0, listener_closed.0, node.another()?);
    let connections = OpenConnections::new(alloc, entrance.0, ready.1, due)?;
    Ok(ClientEnds {
        connections,
        acceptor,
        drivers,
        shown,
        entrance: entrance.1,
        listener_closed: listener_closed.1,
        sleeper,
        node,
    })
}

/// The drivers, which have the room for sockets together, each with a seat of the marks, their entrances, and what each shows.
fn new_drivers<R: Net>(
    rt: &R,
    alloc: Global,
    marks: Arc<Marks>,
    root: MarkSeat,
    limits: ClientLimits,
) -> Result<(Vec<Driver>, Vec<DriverEntrance>, Vec<Arc<Shown>>), Refusal>
    requires { root.marks ≡ arc_value marks }
{
    let mut root = root;
    let room = Arc::new(alloc, Mutex::new(SocketRoom::new(limits.sockets)))?;
    let mut drivers = Vec::with_capacity(alloc, DRIVERS)?;
    let mut entrances = Vec::with_capacity(alloc, DRIVERS)?;
    let mut all_shown = Vec::with_capacity(alloc, DRIVERS)?;
    for _ in 0..DRIVERS {
        let seat = marks.split_seat::<Reader>(&mut root);
        let driver_marks = ThreadMarks::new(Arc::try_clone(&marks)?, seat);
        let (shown, theirs) = shared(alloc, Shown::new())?;
        let room = Arc::try_clone(&room)?;
        let (driver, entrance) = Driver::new(rt, alloc, driver_marks, limits.idle, theirs, room)?;
        drivers.push(driver)?;
        entrances.push(entrance)?;
        all_shown.push(shown)?;
    }
    Ok((drivers, entrances, all_shown))
}

fn new_ready(alloc: Global, node: &Waker) -> Result<(Arc<ReadyList>, Arc<ReadyList>), AllocError> {
    shared(alloc, ReadyList::new(alloc, node.another()?)?)
}

fn new_entrance(alloc: Global) -> Result<(Arc<SharedEntrance>, Arc<SharedEntrance>), Refusal> {
    let entrance = shared(alloc, Mutex::new(Entrance::new(alloc)?))?;
    Ok(entrance)
}
