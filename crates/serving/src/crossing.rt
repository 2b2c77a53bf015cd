//! Threads of types so large that the prover does not find at once that they may go to another thread: it is shown part by part.
ghost use Rattle.serving.specs.contracts.accepting.Acceptor as acceptor;
ghost use Rattle.wakes.specs.contracts.flags.Flag as flag;
ghost use Rattle.wakes.specs.contracts.ready_list.ReadyList as ready;
ghost use Rattle.wakes.specs.contracts.waker.Waker as waker;
ghost use denote.Param.Send.{IsSend, IsSync};

use crate::accepting::Acceptor;
use crate::shared_entrance::SharedEntrance;
use clients::{Driver, entrance_is_send};
use std::alloc::Global;
use std::net::TcpListener;
use std::sync::{Arc, Wait};
use std::thread;
use std::thread::Threads;
use std::time::Clock;
use wakes::{Flag, ReadyList, Waker};

/// What a thread of its own does for ever.
pub(crate) trait Runs {
    fn run<R: Wait + Clock>(self, rt: &R);
}

impl Runs for Driver {
    fn run<R: Wait + Clock>(self, rt: &R) {
        Driver::run(self, rt);
    }
}

/// Starts a thread that does this. Answers whether it did.
pub(crate) fn is_running<
    R: Threads + Wait + Clock + Copy + Send + 'static,
    T: Runs + Send + Drop + 'static,
>(rt: R, runs: T) -> bool {
    let spawned = thread::spawn(&rt, move || runs.run(&rt));
    spawned.ok().is_some()
}

/// What accepts the connections of a listener, and lets them wait at an entrance.
pub(crate) trait Accepts {
    fn accept<R: Wait + Clock>(
        self,
        rt: &R,
        alloc: Global,
        listener: &TcpListener,
        entrance: &Arc<SharedEntrance>,
    );
}

impl Accepts for Acceptor {
    fn accept<R: Wait + Clock>(
        self,
        rt: &R,
        alloc: Global,
        listener: &TcpListener,
        entrance: &Arc<SharedEntrance>,
    ) {
        Acceptor::run(self, rt, alloc, listener, entrance);
    }
}

/// Starts a thread that accepts connections. Answers whether it did.
pub(crate) fn is_accepting<
    R: Threads + Wait + Clock + Copy + Send + 'static,
    A: Accepts + Send + Drop + 'static,
>(rt: R, alloc: Global, accepts: A, listener: TcpListener, entrance: Arc<SharedEntrance>) -> bool {
    let spawned = thread::spawn(
        &rt,
        move || accepts.accept(&rt, alloc, &listener, &entrance),
    );
    spawned.ok().is_some()
}

/// Shows that an acceptor may go to another thread. It does nothing.
pub(crate) fn acceptor_is_send()
    ensures { IsSend acceptor.the_row }
{
    entrance_is_send();
    ready_is_send();
    ready_is_sync();
    flag_is_send();
    flag_is_sync();
    waker_is_send();
}

fn ready_is_send()
    ensures { IsSend ready.the_row }
{
    is_send::<ReadyList>();
}

fn ready_is_sync()
    ensures { IsSync ready.the_row }
{
    is_sync::<ReadyList>();
}

fn flag_is_send()
    ensures { IsSend flag.the_row }
{
    is_send::<Flag>();
}

fn flag_is_sync()
    ensures { IsSync flag.the_row }
{
    is_sync::<Flag>();
}

fn waker_is_send()
    ensures { IsSend waker.the_row }
{
    is_send::<Waker>();
}

fn is_send<T: Send>()
    ensures { IsSend T.row }
{}

fn is_sync<T: Sync>()
    ensures { IsSync T.row }
{}
