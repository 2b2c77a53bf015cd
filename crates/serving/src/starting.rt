//! A primary's threads are started.
ghost use Rattle.std.specs.Prelude.{◌≡◌, [], None, IfSome};
ghost use Rattle.primary.specs.Resuming.{IsOpened};
ghost use Rattle.primary.specs.Standing.{Stands};
ghost use Rattle.links.specs.Ends.{AreOfOneEpoch};
ghost use Rattle.serving.specs.CommitJob.{IsShown};
ghost use Rattle.serving.specs.Linking.{IsLinkOf};

use crate::accepting::Acceptor;
use crate::commit_job::{CommitJob, Committing, Task, do_each};
use crate::crossing::{acceptor_is_send, is_accepting, is_running};
use crate::link_ends::LinkEnds;
use crate::making::{NODE_SPIN, Threading, new_threading};
use crate::node::{Lent, serve};
use crate::setup::{Setup, Watch};
use crate::shared_entrance::SharedEntrance;
use crate::stop::Stop;
use crate::watching::Watcher;
use clients::{Driver, driver_is_send};
use kv_types::Refusal;
use lending::{Borrower, lending};
use links::{AckReceiver, LinkSender};
use mv_keyspace::Keyspace;
use node_log::Log;
use pipes::LocalPipe;
use pmem::Pmem;
use primary::{Opened, Primary};
use std::alloc::Global;
use std::io::Write;
use std::net::{Net, TcpListener, TcpStream};
use std::sync::{Arc, Wait};
use std::thread;
use std::thread::Threads;
use std::time::Clock;
use wakes::{Sleeper, Waker, new_sleeper};
use wbl_engine::Durable;

/// Serves clients at this listener, and sends to the standby at this address, until the engine refuses a step or the listener takes no further
/// connection. The threads that it started end with the program.
///
/// The answer is why: `Fault` or `Exhausted` of the engine, `Memory` where there was none to begin with, or for a thread, or that the listener is over.
/// What becomes of the link is told, and what else is asked for. What is sent and what is acknowledged there is of the epoch of the image that was opened, and
/// what a standby is told that is behind is what was in it: it leads to the keyspace that was opened, from each position at which that image recalls its
/// keyspace.
pub fn run<
    R: Threads
        + Wait
        + Clock
        + Net<Listener = TcpListener, Stream = TcpStream>
        + Copy
        + Send
        + 'static,
    D: Pmem + Send + 'static,
    E: Durable<Device = D> + Drop + Send + 'static,
    K: Keyspace + Drop,
    W: Write + Send + Drop + 'static,
>(
    rt: R,
    alloc: Global,
    opened: Opened<E, K>,
    listener: TcpListener,
    address: String,
    setup: Setup<W>,
) -> Stop
    requires stands { Stands E.device E.contents opened.primary }
    requires opened { IsOpened (E.contents opened.primary.back.committer.engine) opened.primary.front.sequencer opened.opening opened.position opened.epoch opened.keys }
{
    let Opened {
        primary,
        opening,
        epoch,
        ..
    } = opened;
    let committed = primary.back.committed();
    let fill = primary.front.fill();
    let limits = setup.clients;
    match new_threading(
        &rt, alloc, &committed, opening, epoch, address, setup.pair, limits, &fill,
    ) {
        Ok(threading) => start(rt, alloc, threading, listener, primary, setup),
        Err(refusal) => {
            drop(primary);
            Stop::Refused(refusal)
        }
    }
}

/// Starts the threads beside the node's own, which is this one.
fn start<
    R: Threads
        + Wait
        + Clock
        + Net<Listener = TcpListener, Stream = TcpStream>
        + Copy
        + Send
        + 'static,
    D: Pmem + Send + 'static,
    E: Durable<Device = D> + Drop + Send + 'static,
    K: Keyspace + Drop,
    W: Write + Send + Drop + 'static,
>(
    rt: R,
    alloc: Global,
    threading: Threading,
    listener: TcpListener,
    primary: Primary<E, K>,
    setup: Setup<W>,
) -> Stop
    requires stands { Stands E.device E.contents primary }
    requires shown { IsShown E.device E.contents primary.back threading.node.committer_marks }
    requires link { IsLinkOf (E.contents primary.back.committer.engine) primary.front.sequencer threading.sender threading.receiver }
{
    let Threading {
        node,
        sender,
        receiver,
        acceptor,
        drivers,
        entrance,
        watcher,
        wake,
    } = threading;
    let is_sending = start_sender(rt, alloc, sender, receiver, setup.link);
    let is_watching = start_watcher(rt, watcher, setup.watch);
    let is_driving = start_drivers(rt, drivers);
    let is_accepting = start_acceptor(rt, alloc, acceptor, listener, entrance);
    match start_committer(
        rt,
        alloc,
        wake,
        is_sending && is_watching && is_driving && is_accepting,
    ) {
        Some(lent) => serve(&rt, alloc, node, primary, lent),
        None => {
            drop(node);
            drop(primary);
            Stop::Refused(Refusal::Memory)
        }
    }
}

/// Starts the thread of the link's sender. Answers whether it did.
fn start_sender<
    R: Threads
        + Wait
        + Clock
        + Net<Listener = TcpListener, Stream = TcpStream>
        + Copy
        + Send
        + 'static,
    W: Write + Send + Drop + 'static,
>(rt: R, alloc: Global, sender: LinkSender, receiver: AckReceiver, log: Log<W>) -> bool
    requires { AreOfOneEpoch sender receiver }
{
    let ends = LinkEnds { sender, receiver };
    let spawned = thread::spawn(&rt, move || ends.run(rt, alloc, log));
    spawned.ok().is_some()
}

/// Starts the thread of the watcher, where somebody is told what it finds. Answers whether it did, or had not to.
fn start_watcher<
    R: Threads + Wait + Clock + Copy + Send + 'static,
    W: Write + Send + Drop + 'static,
>(rt: R, watcher: Watcher, watch: Option<Watch<W>>) -> bool {
    let Some(watch) = watch else {
        return true;
    };
    let spawned = thread::spawn(&rt, move || watcher.run(&rt, watch));
    spawned.ok().is_some()
}

/// Starts the committer's thread, where it is wanted. `wake` wakes the node's.
fn start_committer<
    R: Threads + Wait + Clock + Copy + Send + 'static,
    D: Pmem + Send + 'static,
    E: Durable<Device = D> + Drop + Send + 'static,
>(rt: R, alloc: Global, wake: Waker, is_wanted: bool) -> Option<Lent<E>>
    ensures { IfSome result (λ lent. (lent.lender.value ≡ None) × (lent.ahead.items ≡ [])) }
{
    if !is_wanted {
        return None;
    }
    let (sleeper, waker) = new_sleeper(alloc).ok()?;
    let (lender, borrower) = lending::<CommitJob<E>, Committing<E>>(alloc).ok()?;
    let ahead = LocalPipe::new(alloc).ok()?;
    if is_doing(rt, alloc, borrower, sleeper, wake) {
        Some(Lent {
            lender,
            waker,
            ahead,
        })
    } else {
        None
    }
}

/// Starts a thread that does its task with each value that it is lent at this end. Answers whether it did.
fn is_doing<
    R: Threads + Wait + Clock + Copy + Send + 'static,
    T: Drop + Send + 'static,
    L: Task<T> + Send + 'static,
>(rt: R, alloc: Global, borrower: Borrower<T, L>, sleeper: Sleeper, owner: Waker) -> bool
    requires { borrower.value ≡ None }
{
    let spawned = thread::spawn(&rt, move || {
        do_each(rt, alloc, borrower, sleeper, owner, NODE_SPIN)
    });
    spawned.ok().is_some()
}

/// Starts the acceptor's thread. Answers whether it did.
fn start_acceptor<R: Threads + Wait + Clock + Copy + Send + 'static>(
    rt: R,
    alloc: Global,
    acceptor: Acceptor,
    listener: TcpListener,
    entrance: Arc<SharedEntrance>,
) -> bool {
    acceptor_is_send();
    is_accepting(rt, alloc, acceptor, listener, entrance)
}

/// Starts a thread for each driver. Answers whether it did.
fn start_drivers<R: Threads + Wait + Clock + Copy + Send + 'static>(
    rt: R,
    drivers: Vec<Driver>,
) -> bool {
    let mut all = true;
    for driver in drivers {
        all &= start_driver(rt, driver);
    }
    all
}

/// Starts a driver's thread. Answers whether it did.
fn start_driver<R: Threads + Wait + Clock + Copy + Send + 'static>(rt: R, driver: Driver) -> bool {
    driver_is_send();
    is_running(rt, driver)
}
