//! The subcommand `primary`.
ghost use Rattle.std.specs.Prelude.{◌≡◌, ◌≤◌, ℕ, IfOk};
ghost use Rattle.model.specs.declared.image.TheConstants.{MIN_LINES};
ghost use Rattle.pmem.specs.Device.{Only};
ghost use Rattle.pmem.specs.Crash.{image_of};
ghost use Rattle.images.specs.Pair.{pair_in};
ghost use Rattle.primary.specs.Resuming.{IsOpened};
ghost use Rattle.primary.specs.Standing.{Stands};

use crate::grammar::PROGRAM;
use crate::listening::{self, bind};
use descriptors::{Room, room_for_clients};
use images::{Failure, Images, ServeError, pair_of, tell_cause};
use model::LAYOUT;
use mv_keyspace::MvKeyspace;
use node_log::{Capacity, Log, News};
use pipes::MAX_SEATS;
use pmem::Pmem;
use primary::{Opened, open};
use serving::{ClientLimits, Setup, Stop, Watch, run};
use std::alloc::Global;
use std::hash::RandomState;
use std::io::Write;
use std::net::{Net, TcpListener, TcpStream};
use std::random::RandomSource;
use std::sync::Wait;
use std::thread::Threads;
use std::time::{Clock, Duration};
use telling::Lines;
use version::VERSION;
use wbl_engine::{Durable, WblEngine};

/// What leaves room for so few clients, and what there is to do about it.
const LIMIT: &str = "the limit of open files is";

const ADVICE: &str = "see \"A connection that cannot be taken\" in docs/server.md";

/// What is to be known of an image beside what it holds.
#[derive(Clone, Copy)]
struct Found {
    lines: u64,
    /// The number of its pair.
    pair: u64,
}

/// Opens the image of this name as a primary's, and serves clients at the address `listen`, with the standby at the address `link`, until the engine
/// refuses a step, or the address cannot be listened at, or no longer. It does not return otherwise. What it does is told there, a line at a time.
pub fn serve_clients<
    N: RandomSource
        + Threads
        + Wait
        + Clock
        + Net<Listener = TcpListener, Stream = TcpStream>
        + Copy
        + Send
        + 'static,
    D: Pmem + Drop + Send + 'static,
    I: Images<Device = D>,
>(
    rt: &N,
    alloc: Global,
    images: &I,
    name: &str,
    listen: &str,
    link: &str,
    report: Option<u64>,
    idle: Option<u64>,
    lines: &Lines<N>,
) -> Result<(), Failure> {
    let mut errors = lines.another()?;
    let mut log = Log::new(alloc, lines.another()?);
    log.say(News::Begun {
        program: PROGRAM,
        version: VERSION,
    });
    let sockets = room_for_clients(MAX_SEATS as u64);
    tell_room(alloc, sockets, &mut errors);
    // (who connects before the image is open is refused)
    let bound = bind(rt, alloc, listen, &mut errors);
    let done = open_node(rt, alloc, images, name);
    let is_held = tell_cause(alloc, images, name, &done, &mut errors);
    let (opened, found): (Opened<WblEngine<D>, MvKeyspace>, Found) = match done {
        Ok(node) => node,
        Err(failure) => return Err(failure.while_held(is_held)),
    };
    log.say(News::Opened {
        position: opened.position,
        epoch: opened.epoch,
        keys: opened.keys,
    });
    let bound = bound?;
    let _ = bound.probe_peers();
    let listener = listening::listen(rt, alloc, bound, listen, &mut errors)?;
    log.say(News::Listening { address: listen });
    let address = String::from_str(alloc, link)?;
    let setup = Setup {
        pair: found.pair,
        link: Log::new(alloc, lines.another()?),
        watch: Some(Watch {
            log: Log::new(alloc, errors),
            report_seconds: report,
            capacity: Capacity::of_image(LAYOUT, found.lines),
        }),
        clients: ClientLimits {
            sockets: sockets.clients as usize,
            idle: idle.map(Duration::from_secs),
        },
    };
    match run(*rt, alloc, opened, listener, address, setup) {
        Stop::Refused(why) => {
            log.say(News::Stopped { why });
            Err(Failure::from(why))
        }
        Stop::ListenerClosed => Err(Failure::CannotListen { may_pass: false }),
    }
}

/// Tells in a line where there is room for fewer clients than there are seats. Where memory is refused the line is let go.
fn tell_room<E: Write>(alloc: Global, room: Room, errors: &mut E) {
    let Room { limit, clients } = room;
    let mut line = Vec::new(alloc);
    if clients < MAX_SEATS as u64
        && writeln!(
            line,
            "room for {clients} clients: {LIMIT} {limit}: {ADVICE}"
        )
        .is_ok()
    {
        let _ = errors.write_all(&line);
    }
}

/// The node over the image of this name, and what else is to be known of that.
fn open_node<N: RandomSource, D: Pmem + Drop, I: Images<Device = D>>(
    rt: &N,
    alloc: Global,
    images: &I,
    name: &str,
) -> Result<(Opened<WblEngine<D>, MvKeyspace>, Found), Failure>
    ensures stands { IfOk result (λ node. Stands ⟦<WblEngine<D> as Durable>⟧.device ⟦<WblEngine<D> as Durable>⟧.contents node.0.primary) }
    ensures opened { IfOk result (λ node. IsOpened (⟦<WblEngine<D> as Durable>⟧.contents node.0.primary.back.committer.engine)
        node.0.primary.front.sequencer node.0.opening node.0.position node.0.epoch node.0.keys) }
{
    let device = images.open(name)?;
    open_over(rt, alloc, device)
}

/// The node over the image of this device.
fn open_over<N: RandomSource, D: Pmem + Drop>(
    rt: &N,
    alloc: Global,
    device: D,
) -> Result<(Opened<WblEngine<D>, MvKeyspace>, Found), Failure>
    requires many { MIN_LINES ≤ (D.state device).lines }
    requires settled { (word : ℕ) → Only ((D.state device).words word) (image_of (D.state device).words word) }
    ensures stands { IfOk result (λ node. Stands ⟦<WblEngine<D> as Durable>⟧.device ⟦<WblEngine<D> as Durable>⟧.contents node.0.primary) }
    ensures opened { IfOk result (λ node. IsOpened (⟦<WblEngine<D> as Durable>⟧.contents node.0.primary.back.committer.engine)
        node.0.primary.front.sequencer node.0.opening node.0.position node.0.epoch node.0.keys) }
    ensures lines { IfOk result (λ node. node.1.lines ≡ (D.state device).lines) }
    ensures pair { IfOk result (λ node. node.1.pair ≡ pair_in (image_of (D.state device).words)) }
{
    let found = Found {
        lines: device.lines(),
        pair: pair_of(&device),
    };
    let hash_builder = match RandomState::new(rt) {
        Ok(hash_builder) => hash_builder,
        Err(error) => return Err(Failure::Stopped(ServeError::Random(error))),
    };
    Ok((open(alloc, device, hash_builder)?, found))
}
