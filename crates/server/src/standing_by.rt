//! The subcommand `standby`.
ghost use Rattle.std.specs.Prelude.{◌≡◌, ◌≤◌, ℕ, IfOk};
ghost use Rattle.model.specs.declared.image.TheConstants.{MIN_LINES};
ghost use Rattle.pmem.specs.Device.{Only};
ghost use Rattle.pmem.specs.Crash.{image_of};
ghost use Rattle.images.specs.Pair.{pair_in};
ghost use Rattle.server.specs.Follower.{IsReady};
ghost use Rattle.standby.specs.Newcomers.{AwaitsCopy};
ghost use Rattle.standby.specs.Taking.{Stands};

use crate::bound::BoundSocket;
use crate::follower::Follower;
use crate::grammar::PROGRAM;
use crate::listening::{self, bind};
use greeting::Greeting;
use images::{Failure, Images, into_pair, pair_of, tell_cause};
use kv_types::Refusal;
use links::Left;
use mv_keyspace::{Keyspace, MvKeyspace};
use node_log::{Capacity, FillSetter, Filling, Log, News, Progress, StandbyWatcher, new_fill};
use pmem::Pmem;
use standby::{Newcomer, Standby, open_newcomer};
use std::alloc::Global;
use std::io::{self, Write};
use std::net::{IpAddr, Net, TcpListener, TcpStream};
use std::sync::{Arc, Wait};
use std::thread;
use std::thread::Threads;
use std::time::Clock;
use telling::Lines;
use version::VERSION;
use wbl_engine::{Durable, WblEngine};

/// Opens the image of this name as a standby's or a newcomer's, and takes one link at a time at this address until one stops the node, or the address cannot be
/// listened at, or no longer. A newcomer takes its copy first, and is a standby from then on. With a host it takes links from there alone. Where its image has no
/// number of a pair it takes over that of the first primary of which it takes a frame: from then on its image has it. It does not return otherwise. What it does
/// is told there, a line at a time.
pub fn stand_by<
    N: Threads
        + Wait
        + Clock
        + Net<Listener = TcpListener, Stream = TcpStream>
        + Copy
        + Send
        + 'static,
    I: Images,
>(
    rt: &N,
    alloc: Global,
    images: &I,
    name: &str,
    listen: &str,
    host: Option<IpAddr>,
    report: Option<u64>,
    lines: &Lines<N>,
) -> Result<(), Failure> {
    let mut errors = lines.another()?;
    let mut log = Log::new(alloc, lines.another()?);
    log.say(News::Begun {
        program: PROGRAM,
        version: VERSION,
    });
    // (who connects before the image is open is refused)
    let bound = bind(rt, alloc, listen, &mut errors);
    let (node, pair) = open_node(alloc, images, name, &mut errors)?;
    log.say(opened(&node));
    let began = match begin(*rt, alloc, &node, bound, listen, report, lines, &mut errors) {
        Ok(began) => began,
        Err(failure) => {
            drop(node);
            return Err(failure);
        }
    };
    let Began {
        listener,
        progress,
        mut shown,
    } = began;
    log.say(News::Listening { address: listen });
    let mut log = log.showing(progress);
    let own = Greeting::of_pair(pair);
    let left = node.take_links(rt, alloc, &own, &listener, host, &mut shown, &mut log);
    let number = match left {
        Ok(Left::Adopts(number)) => number,
        left => return ended(left, &mut log),
    };
    let (node, pair) = adopt_node(alloc, images, name, number, &mut errors)?;
    let own = Greeting::of_pair(pair);
    let left = Follower::Standby(node).take_links(
        rt, alloc, &own, &listener, host, &mut shown, &mut log,
    );
    ended(left, &mut log)
}

/// What a node works with that takes links.
#[derive(Drop)]
struct Began {
    listener: TcpListener,
    /// Where it shows how far it is, and how much it holds.
    progress: Arc<Progress>,
    shown: FillSetter,
}

/// Has a node that was opened listen at this address, which was bound, and starts what tells of it.
///
/// # Errors
///
/// `CannotListen`, where that was refused when it was bound or is now, and else only `Memory`.
fn begin<
    N: Threads
        + Wait
        + Clock
        + Net<Listener = TcpListener, Stream = TcpStream>
        + Copy
        + Send
        + 'static,
    E: Durable + Drop,
    K: Keyspace + Drop,
    W: Write,
>(
    rt: N,
    alloc: Global,
    node: &Follower<E, K>,
    bound: Result<BoundSocket, Failure>,
    listen: &str,
    report: Option<u64>,
    lines: &Lines<N>,
    errors: &mut W,
) -> Result<Began, Failure> {
    let listener = listening::listen(&rt, alloc, bound?, listen, errors)?;
    let (progress, shown, watcher) = new_watcher(alloc, node)?;
    start_watcher(rt, watcher, Log::new(alloc, lines.another()?), report)?;
    Ok(Began {
        listener,
        progress,
        shown,
    })
}

/// What comes of a node that takes no further link.
fn ended<E: Write>(left: io::Result<Left>, log: &mut Log<E>) -> Result<(), Failure> {
    match left {
        Ok(Left::Stopped(why)) => {
            log.say(News::Stopped { why });
            Err(Failure::from(why))
        }
        // (a node that has a number takes over no other)
        Ok(Left::Adopts(_)) => Err(Failure::from(Refusal::WrongPair)),
        Err(_) => Err(Failure::CannotListen { may_pass: false }),
    }
}

/// The node over the image of this name, and the number of its pair. Why it is refused is told.
fn open_node<I: Images, E: Write>(
    alloc: Global,
    images: &I,
    name: &str,
    errors: &mut E,
) -> Result<(Follower<WblEngine<I::Device>, MvKeyspace>, u64), Failure>
    ensures ready { IfOk result (λ node. IsReady ⟦<WblEngine<I::Device> as Durable>⟧.device ⟦<WblEngine<I::Device> as Durable>⟧.contents
        ⟦<WblEngine<I::Device> as Durable>⟧.is_faulted ⟦<WblEngine<I::Device> as Durable>⟧.staged ⟦<MvKeyspace as Keyspace>⟧.table node.0) }
{
    let done = open_image(alloc, images, name);
    let is_held = tell_cause(alloc, images, name, &done, errors);
    match done {
        Ok(node) => Ok(node),
        Err(failure) => Err(failure.while_held(is_held)),
    }
}

/// The standby over the image of this name, once that has this number, which is told, and the number. The image is to be closed.
fn adopt_node<I: Images, E: Write>(
    alloc: Global,
    images: &I,
    name: &str,
    number: u64,
    errors: &mut E,
) -> Result<(Standby<WblEngine<I::Device>, MvKeyspace>, u64), Failure>
    ensures stands { IfOk result (λ node. Stands ⟦<WblEngine<I::Device> as Durable>⟧.device ⟦<WblEngine<I::Device> as Durable>⟧.contents
        ⟦<WblEngine<I::Device> as Durable>⟧.is_faulted ⟦<MvKeyspace as Keyspace>⟧.table node.0) }
    ensures adopted { IfOk result (λ node. node.1 ≡ number) }
{
    let done = open_in_pair(alloc, images, name, number);
    let is_held = tell_cause(alloc, images, name, &done, errors);
    match done {
        Ok(node) => {
            tell_adopted(alloc, number, errors);
            Ok(node)
        }
        Err(failure) => Err(failure.while_held(is_held)),
    }
}

/// Tells in a line that the image has this number now. Where memory is refused the line is let go.
fn tell_adopted<E: Write>(alloc: Global, number: u64, errors: &mut E) {
    let mut line = Vec::new(alloc);
    if writeln!(line, "took over the number of its pair, {number}").is_ok() {
        let _ = errors.write_all(&line);
    }
}

/// The node over the image of this name, and the number of its pair. A newcomer's is read twice.
fn open_image<I: Images>(
    alloc: Global,
    images: &I,
    name: &str,
) -> Result<(Follower<WblEngine<I::Device>, MvKeyspace>, u64), Failure>
    ensures ready { IfOk result (λ node. IsReady ⟦<WblEngine<I::Device> as Durable>⟧.device ⟦<WblEngine<I::Device> as Durable>⟧.contents
        ⟦<WblEngine<I::Device> as Durable>⟧.is_faulted ⟦<WblEngine<I::Device> as Durable>⟧.staged ⟦<MvKeyspace as Keyspace>⟧.table node.0) }
{
    let device = images.open(name)?;
    match open_over(alloc, device) {
        Ok((node, pair)) => Ok((Follower::Standby(node), pair)),
        Err(Refusal::NotCopied) => {
            let device = images.open(name)?;
            let (node, pair) = open_uncopied(alloc, device)?;
            Ok((Follower::Newcomer(node), pair))
        }
        Err(refusal) => Err(Failure::from(refusal)),
    }
}

/// The newcomer over the image of this device, and the number of its pair.
fn open_uncopied<P: Pmem + Drop>(
    alloc: Global,
    device: P,
) -> Result<(Newcomer<WblEngine<P>, MvKeyspace>, u64), Refusal>
    requires many { MIN_LINES ≤ (P.state device).lines }
    requires settled { (word : ℕ) → Only ((P.state device).words word) (image_of (P.state device).words word) }
    ensures awaits { IfOk result (λ node. AwaitsCopy ⟦<WblEngine<P> as Durable>⟧.device ⟦<WblEngine<P> as Durable>⟧.contents
        ⟦<WblEngine<P> as Durable>⟧.is_faulted ⟦<WblEngine<P> as Durable>⟧.staged ⟦<MvKeyspace as Keyspace>⟧.table node.0) }
    ensures pair { IfOk result (λ node. node.1 ≡ pair_in (image_of (P.state device).words)) }
{
    let pair = pair_of(&device);
    Ok((open_newcomer(alloc, device)?, pair))
}

/// The standby over the image of this name, once that has this number, and the number.
fn open_in_pair<I: Images>(
    alloc: Global,
    images: &I,
    name: &str,
    number: u64,
) -> Result<(Standby<WblEngine<I::Device>, MvKeyspace>, u64), Failure>
    ensures stands { IfOk result (λ node. Stands ⟦<WblEngine<I::Device> as Durable>⟧.device ⟦<WblEngine<I::Device> as Durable>⟧.contents
        ⟦<WblEngine<I::Device> as Durable>⟧.is_faulted ⟦<MvKeyspace as Keyspace>⟧.table node.0) }
    ensures adopted { IfOk result (λ node. node.1 ≡ number) }
{
    let device = images.open(name)?;
    let device = into_pair(device, number)?;
    Ok(open_over(alloc, device)?)
}

/// The standby over the image of this device, and the number of its pair.
fn open_over<P: Pmem + Drop>(
    alloc: Global,
    device: P,
) -> Result<(Standby<WblEngine<P>, MvKeyspace>, u64), Refusal>
    requires many { MIN_LINES ≤ (P.state device).lines }
    requires settled { (word : ℕ) → Only ((P.state device).words word) (image_of (P.state device).words word) }
    ensures stands { IfOk result (λ node. Stands ⟦<WblEngine<P> as Durable>⟧.device ⟦<WblEngine<P> as Durable>⟧.contents
        ⟦<WblEngine<P> as Durable>⟧.is_faulted ⟦<MvKeyspace as Keyspace>⟧.table node.0) }
    ensures pair { IfOk result (λ node. node.1 ≡ pair_in (image_of (P.state device).words)) }
{
    let pair = pair_of(&device);
    Ok((standby::open(alloc, device)?, pair))
}

/// Where a node shows how far it is and how much it holds, and what looks there.
fn new_watcher<E: Durable + Drop, K: Keyspace + Drop>(
    alloc: Global,
    node: &Follower<E, K>,
) -> Result<(Arc<Progress>, FillSetter, StandbyWatcher), Refusal> {
    let engine = node.engine();
    let progress = Arc::new(alloc, Progress::new(engine.position()))?;
    let (shown, fill) = new_fill(alloc, &node.fill())?;
    let capacity = Capacity::of_image(engine.record().layout, engine.lines());
    let filling = Filling::new(fill, capacity);
    let watcher = StandbyWatcher::new(Arc::try_clone(&progress)?, filling);
    Ok((progress, shown, watcher))
}

/// Starts the thread that tells of the node while it runs, with a number of seconds how far it is each time that so many have passed. Only `Memory`.
fn start_watcher<
    N: Threads + Wait + Clock + Copy + Send + 'static,
    E: Write + Send + Drop + 'static,
>(rt: N, watcher: StandbyWatcher, log: Log<E>, report: Option<u64>) -> Result<(), Refusal> {
    let watching = thread::spawn(&rt, move || watcher.run(&rt, log, report));
    match watching {
        Ok(_) => Ok(()),
        Err(_) => Err(Refusal::Memory),
    }
}

/// What a node tells whose image was opened.
fn opened<E: Durable + Drop, K: Keyspace + Drop>(node: &Follower<E, K>) -> News<'static> {
    let engine = node.engine();
    News::Opened {
        position: engine.position(),
        epoch: engine.record().epoch,
        keys: node.fill().keys,
    }
}
