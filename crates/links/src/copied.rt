//! A newcomer's links: one at a time, until it has its copy.
ghost use Rattle.std.specs.Prelude.{◌≡◌, ◌≢◌, ℕ, None, Some, IfErr, IfOk, IfSome};
ghost use Rattle.std.specs.Option.{SomeIff};
ghost use Rattle.kv_types.specs.declared.refusal.Refusal.{Refusal as Cause};
ghost use Rattle.kv_types.specs.declared.refusal.Refusal.TheVariants.{Fault};
ghost use Rattle.greeting.specs.declared.greeting.Greeting.{Greeting as Said};
ghost use Rattle.standby.specs.Newcomers.{AwaitsCopy, HasCopy};
ghost use Rattle.standby.specs.Taking.{Stands};
ghost use Rattle.links.specs.Copied.{IfStandby, IfStopped, IsAdopted, IsGathered, IsStop, IsStoppedBy, ServesNewcomer};
ghost use Rattle.links.specs.Copying.{IsBrought, newcomer, wire};
ghost use Rattle.links.specs.Greeting.{IsUnmet};
ghost use Rattle.links.specs.declared.left.Left.TheVariants.{Adopts, Stopped};
ghost use Rattle.node_log.specs.declared.link_error.LinkError.TheVariants.{Stops};

use crate::copy_teller::{CopyProgress, CopyTeller};
use crate::copying::{Brought, serve_copy};
use crate::greetings::{Unmet, greet};
use crate::left::Left;
use crate::link_acceptor::LinkAcceptor;
use crate::link_reader::{LinkReader, end_turn};
use crate::link_writer::{LinkWriter, limit_writes};
use crate::meeting::{Met, left_by};
use crate::serving_on::serve_on;
use crate::stage::Stage;
use greeting::{Greeting, adopts};
use kv_types::Refusal;
use mv_keyspace::Keyspace;
use node_log::{FillSetter, LinkError, Log, News, Progress};
use standby::{Newcomer, Standby};
use std::alloc::Global;
use std::cell::Cell;
use std::io::{self, Read, Write};
use std::net::{IpAddr, TcpListener, TcpStream};
use std::sync::Arc;
use std::time::Clock;
use stream_codec::Decoder;
use wbl_engine::Durable;

/// What became of a newcomer.
#[derive(Drop)]
pub enum Copied<E: Durable, K: Keyspace> {
    /// It has its copy and is a standby. Why it takes no further link after the one that brought the copy, if it takes none.
    Standby(Standby<E, K>, Option<Left>),
    /// It can take no part any more: a fence failed, or a counter is at its end.
    Stopped(Refusal),
}

/// What becomes of a newcomer by one link.
#[derive(Drop)]
pub(crate) enum Gathered {
    /// It has its copy, which this link brought.
    Copy(CopyLink),
    /// It can take no part any more.
    Stopped(Refusal),
}

/// A link that brought a copy.
#[derive(Drop)]
pub(crate) struct CopyLink {
    stream: TcpStream,
    /// What came behind the copy, where the link is open, or how it ended.
    link: Result<Decoder, LinkError>,
    /// The number that the node takes over, if it does.
    number: Option<u64>,
    /// How many bytes were written.
    written: u64,
}

impl CopyLink {
    /// The link on this connection, over which so many bytes were written.
    fn new(
        stream: TcpStream,
        link: Result<Decoder, LinkError>,
        number: Option<u64>,
        written: u64,
    ) -> CopyLink
        ensures number { result.number ≡ number }
        ensures link { result.link ≡ link }
    {
        CopyLink {
            stream,
            link,
            number,
            written,
        }
    }
}

/// How a newcomer's link ended whose sides had greeted.
#[derive(Drop)]
pub(crate) struct MetNewcomer {
    /// As `serve_copy` says.
    came: Result<Brought, LinkError>,
    /// The number that the node takes over once it has its copy, if it does.
    number: Option<u64>,
}

/// Takes one link at a time, as `follow` does, until the newcomer has a whole copy from the primary of its epoch, and is a standby: then it serves on the link
/// that brought the copy until that ends, or leaves it at once to take over the number of a pair. It tells that a copy is awaited, when one begins, how far it is, and when it is whole; and it shows how much
/// the node holds. What came of a copy stays from one link to the next.
///
/// # Errors
///
/// That of the listener, which takes no further link.
pub fn take_copy<C: Clock, E: Durable + Drop, K: Keyspace + Drop, W: Write>(
    clock: &C,
    alloc: Global,
    own: &Greeting,
    node: Newcomer<E, K>,
    listener: &TcpListener,
    host: Option<IpAddr>,
    shown: &mut FillSetter,
    log: &mut Log<W>,
) -> io::Result<Copied<E, K>>
    requires awaits { AwaitsCopy E.device E.contents E.is_faulted E.staged K.table node }
    ensures stands { IfOk result (λ copied. IfStandby copied (λ node left. ¬ (left ≡ Some (Stopped Fault)) → Stands E.device E.contents E.is_faulted K.table node)) }
    ensures adopts { IfOk result (λ copied. IfStandby copied (λ node left. (number : ℕ) → left ≡ Some (Adopts number) → (own.now.pair ≡ 0) × (number ≢ 0))) }
    ensures stopped { IfOk result (λ copied. IfStopped copied (λ refusal. IsStop refusal)) }
{
    let mut node = node;
    let progress = log.progress();
    let mut acceptor = LinkAcceptor::new(listener, host, clock, log);
    acceptor.say(News::CopyAwaited);
    match await_copy(alloc, own, &mut node, &mut acceptor, shown, &progress)? {
        Gathered::Stopped(refusal) => Ok(Copied::Stopped(refusal)),
        Gathered::Copy(link) => {
            let mut node = node.into_standby(alloc);
            let left = serve_behind(alloc, &mut node, link, &mut acceptor, shown, &progress);
            Ok(Copied::Standby(node, left))
        }
    }
}

/// Takes one link at a time until one has brought the copy, or has stopped the node.
///
/// # Errors
///
/// That of the listener.
fn await_copy<C: Clock, E: Durable, K: Keyspace + Drop, W: Write>(
    alloc: Global,
    own: &Greeting,
    node: &mut Newcomer<E, K>,
    acceptor: &mut LinkAcceptor<'_, C, W>,
    shown: &mut FillSetter,
    progress: &Option<Arc<Progress>>,
) -> io::Result<Gathered>
    requires awaits { AwaitsCopy E.device E.contents E.is_faulted E.staged K.table node.old }
    ensures { IfOk result (λ found. IsGathered own.now found (HasCopy E.device E.contents E.is_faulted E.staged K.table node.new)) }
{
    let teller = CopyTeller::new();
    let mut newer = None;
    for _ in 0..u64::MAX {
        let stream = match newer.take() {
            Some(stream) => stream,
            None => acceptor.accept()?,
        };
        if !acceptor.admits(&stream) {
            continue;
        }
        let (later, found) = copy_next(
            alloc, own, node, stream, acceptor, shown, progress, &teller,
        );
        if let Some(found) = found {
            return Ok(found);
        }
        newer = later;
    }
    Err(io::ErrorKind::UnexpectedEof.into())
}

/// Takes what comes on this connection, and tells how the link ended if the primary did not close it. Answers the connection for which it was left, if it was,
/// and what became of the node, if it waits no more.
fn copy_next<C: Clock, E: Durable, K: Keyspace + Drop, W: Write>(
    alloc: Global,
    own: &Greeting,
    node: &mut Newcomer<E, K>,
    stream: TcpStream,
    acceptor: &mut LinkAcceptor<'_, C, W>,
    shown: &mut FillSetter,
    progress: &Option<Arc<Progress>>,
    teller: &CopyTeller,
) -> (Option<TcpStream>, Option<Gathered>)
    requires awaits { AwaitsCopy E.device E.contents E.is_faulted E.staged K.table node.old }
    ensures awaits { result.1 ≡ None → AwaitsCopy E.device E.contents E.is_faulted E.staged K.table node.new }
    ensures found { IfSome result.1 (λ found. IsGathered own.now found (HasCopy E.device E.contents E.is_faulted E.staged K.table node.new)) }
{
    limit_writes(&stream);
    let written = Cell::new(0);
    let stage = Cell::new(Stage::Unmet);
    let mut from = LinkReader::new(&stream, acceptor, &written, &stage, progress, teller);
    let mut to = LinkWriter::new(&stream, &written, progress);
    let met = copy_greeted(
        alloc,
        own,
        node,
        &mut from,
        &mut to,
        shown,
        &stage,
        teller.seen(),
    );
    end_turn(progress);
    let is_silent = from.is_silent();
    let newer = from.into_newer();
    let met = match met {
        Ok(met) => met,
        Err(why) => {
            acceptor.tell_unmet(why, is_silent, newer.is_some());
            return (newer, None);
        }
    };
    let number = met.number;
    match met.came {
        Ok(Brought::Closed) => (newer, None),
        Ok(Brought::Copy(link)) => {
            teller.end(node.engine.position(), node.fill().keys, acceptor);
            let link = CopyLink::new(stream, link, number, written.get());
            (None, Some(Gathered::Copy(link)))
        }
        Err(end) => {
            acceptor.tell_end(end, newer.is_some());
            (newer, stopped_by(end))
        }
    }
}

/// That the node is stopped, if it is by a link that ended so.
fn stopped_by(end: LinkError) -> Option<Gathered>
    ensures none { result ≡ None → (refusal : Cause) → end ≢ Stops refusal }
    ensures some { IfSome result (λ found. IsStoppedBy found end) }
{
    match end {
        LinkError::Stops(refusal) => Some(Gathered::Stopped(refusal)),
        _ => None,
    }
}

/// Greets, and then serves the link as `serve_copy` does.
///
/// # Errors
///
/// Those of `greet`. The node is as it was.
pub(crate) fn copy_greeted<E: Durable, K: Keyspace + Drop, I: Read, O: Write>(
    alloc: Global,
    own: &Greeting,
    node: &mut Newcomer<E, K>,
    from: &mut I,
    to: &mut O,
    shown: &mut FillSetter,
    stage: &Cell<Stage>,
    seen: &Cell<Option<CopyProgress>>,
) -> Result<MetNewcomer, Unmet>
    requires awaits { AwaitsCopy E.device E.contents E.is_faulted E.staged K.table node.old }
    ensures awaits { IfOk result (λ met. IfErr met.came (λ end. end ≢ Stops Fault → AwaitsCopy E.device E.contents E.is_faulted E.staged K.table node.new)) }
    ensures stays { IfOk result (λ met. IfOk met.came (λ came. IsBrought came (AwaitsCopy E.device E.contents E.is_faulted E.staged K.table node.new)
        (HasCopy E.device E.contents E.is_faulted E.staged K.table node.new))) }
    ensures cause { IfOk result (λ met. IfErr met.came (λ end. (refusal : Cause) → end ≡ Stops refusal → IsStop refusal)) }
    ensures number { IfOk result (λ met. IsAdopted own.now met.number) }
    ensures greeted { IfOk result (λ met. (theirs : Said) × ServesNewcomer (newcomer E.device E.contents E.is_faulted E.staged K.table) own.now theirs met.came node.old (wire (I.remaining from.old) (O.contents to.old))
        node.new (wire (I.remaining from.new) (O.contents to.new))
        × SomeIff met.number ((own.now.pair ≡ 0) × (theirs.pair ≢ 0)) theirs.pair) }
    ensures unmet { IfErr result (λ why. (node.new ≡ node.old) × IsUnmet own.now why (I.remaining from.old) (I.remaining from.new) (O.contents to.old) (O.contents to.new)) }
{
    let theirs = match greet(own, from, to) {
        Ok(theirs) => theirs,
        Err(why) => return Err(why),
    };
    stage.set(Stage::Open);
    let came = serve_copy(alloc, node, from, to, shown, seen);
    let number = adopts(own, &theirs);
    Ok(MetNewcomer { came, number })
}

/// Serves on the link that brought the copy, or leaves it to take over the number of a pair. It tells how it ended if the primary did not close it, and answers
/// why the node takes no further link, if it takes none.
fn serve_behind<C: Clock, E: Durable, K: Keyspace, W: Write>(
    alloc: Global,
    node: &mut Standby<E, K>,
    link: CopyLink,
    acceptor: &mut LinkAcceptor<'_, C, W>,
    shown: &mut FillSetter,
    progress: &Option<Arc<Progress>>,
) -> Option<Left>
    requires stands { Stands E.device E.contents E.is_faulted K.table node.old }
    ensures stands { ¬ (result ≡ Some (Stopped Fault)) → Stands E.device E.contents E.is_faulted K.table node.new }
    ensures adopts { (number : ℕ) → result ≡ Some (Adopts number) → link.number ≡ Some number }
{
    let CopyLink {
        stream,
        link,
        number,
        written,
    } = link;
    let decoder = match link {
        Ok(decoder) => decoder,
        Err(end) => {
            acceptor.tell_end(end, false);
            return None;
        }
    };
    if let Some(number) = number {
        return Some(Left::Adopts(number));
    }
    let written = Cell::new(written);
    let stage = Cell::new(Stage::Open);
    let teller = CopyTeller::new();
    let mut from = LinkReader::new(&stream, acceptor, &written, &stage, progress, &teller);
    let mut to = LinkWriter::new(&stream, &written, progress);
    let served = serve_on(alloc, node, decoder, &mut from, &mut to, shown);
    end_turn(progress);
    let newer = from.into_newer();
    let met = Met {
        served,
        number: None,
    };
    acceptor.tell_met(&met, newer.is_some());
    left_by(&met)
}
