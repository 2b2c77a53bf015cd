//! A pair of new nodes, and a client that is connected to it.
ghost use Rattle.std.specs.Prelude.{ℕ, IfErr};
ghost use Rattle.pmem.specs.Device.{Only};
ghost use Rattle.pmem.specs.Crash.{image_of};
ghost use Rattle.server.specs.Served.{IsEarly};

use crate::client::{Client, PairEnd};
use crate::link_listener::{LinkListener, StandbyListener};
use crate::simulated::new_image;
use greeting::Greeting;
use images::{NO_PAIR, ServeError};
use kv_types::Refusal;
use links::{Left, follow};
use mv_keyspace::MvKeyspace;
use node_log::{Log, new_fill};
use pmem::{Pmem, SimPmem};
use primary::{Opened, open};
use serving::{Setup, Stop, run};
use standby::Standby;
use std::alloc::Global;
use std::hash::RandomState;
use std::net::{Net, SocketAddr, TcpListener, TcpStream};
use std::random::RandomSource;
use std::sync::{Arc, Wait};
use std::thread::Threads;
use std::time::Clock;
use std::{io, thread};
use wbl_engine::{Role, WblEngine};

/// Where the nodes listen: at a port of this host that the system picks.
const HERE: &str = "127.0.0.1:0";

/// Starts a primary and its standby over new images, with a client that is connected to the primary. The threads of the nodes end with the program.
pub fn start_pair<
    N: RandomSource
        + Threads
        + Wait
        + Clock
        + Net<Listener = TcpListener, Stream = TcpStream>
        + Copy
        + Send
        + 'static,
>(rt: &N, alloc: Global) -> Result<Arc<Client>, ServeError>
    ensures { IfErr result IsEarly }
{
    let hash_builder = random(rt)?;
    let (clients, address) = listen(rt)?;
    let client = Client::connect(rt, alloc, address)?;
    let (link, address) = listen(rt)?;
    let standby = format!(in alloc; "{address}")?;
    start_standby(*rt, alloc, link, Arc::try_clone(&client)?)?;
    let theirs = Arc::try_clone(&client)?;
    start_primary(*rt, alloc, hash_builder, clients, standby, theirs)?;
    Ok(client)
}

/// What watched keys are hashed with.
fn random<N: RandomSource>(rt: &N) -> Result<RandomState, ServeError>
    ensures { IfErr result IsEarly }
{
    match RandomState::new(rt) {
        Ok(hash_builder) => Ok(hash_builder),
        Err(error) => Err(ServeError::Random(error)),
    }
}

/// A listener of this host, and its address.
fn listen<N: Net<Listener = TcpListener, Stream = TcpStream>>(
    net: &N,
) -> Result<(TcpListener, SocketAddr), ServeError>
    ensures { IfErr result IsEarly }
{
    match bound(net) {
        Ok(found) => Ok(found),
        Err(error) => Err(ServeError::Socket(error)),
    }
}

fn bound<N: Net<Listener = TcpListener, Stream = TcpStream>>(
    net: &N,
) -> io::Result<(TcpListener, SocketAddr)> {
    let listener = TcpListener::bind(net, HERE)?;
    let address = listener.local_addr()?;
    Ok((listener, address))
}

/// Starts the standby's thread, which ends the client's connection once the node stops. Only `Memory`.
fn start_standby<N: Threads + Clock + Copy + Send + 'static>(
    rt: N,
    alloc: Global,
    listener: TcpListener,
    client: Arc<Client>,
) -> Result<(), Refusal> {
    let following = thread::spawn(&rt, move || {
        let why = follow_anew(&rt, alloc, &listener, &client);
        client.stop(any(why));
    });
    match following {
        Ok(_) => Ok(()),
        Err(_) => Err(Refusal::Memory),
    }
}

/// Follows a primary over a new image until a step stops the node or the listener fails, and says why.
///
/// # Errors
///
/// What was refused before.
fn follow_anew<N: Clock>(
    clock: &N,
    alloc: Global,
    listener: &TcpListener,
    client: &Arc<Client>,
) -> Result<PairEnd, Refusal> {
    let link = StandbyListener::new(alloc, client)?;
    let device = new_image(alloc, Role::Standby)?;
    let mut node: Standby<WblEngine<SimPmem>, MvKeyspace> = standby::open(alloc, device)?;
    let (mut shown, _) = new_fill(alloc, &node.fill())?;
    let mut log = Log::new(alloc, link);
    let own = Greeting::of_pair(NO_PAIR);
    match follow(
        clock, alloc, &own, &mut node, listener, None, &mut shown, &mut log,
    ) {
        Ok(Left::Stopped(why)) => Ok(PairEnd::Refused(why)),
        // (the primary has no number either)
        Ok(Left::Adopts(_)) | Err(_) => Ok(PairEnd::Broken),
    }
}

/// Starts the primary's thread, which ends the client's connection once the node stops. Only `Memory`.
fn start_primary<
    N: Threads
        + Wait
        + Clock
        + Net<Listener = TcpListener, Stream = TcpStream>
        + Copy
        + Send
        + 'static,
>(
    rt: N,
    alloc: Global,
    hash_builder: RandomState,
    listener: TcpListener,
    standby: String,
    client: Arc<Client>,
) -> Result<(), Refusal> {
    let serving = thread::spawn(&rt, move || {
        let why = serve_anew(rt, alloc, hash_builder, listener, standby, &client);
        client.stop(any(why));
    });
    match serving {
        Ok(_) => Ok(()),
        Err(_) => Err(Refusal::Memory),
    }
}

/// Serves the client over a new image until a step stops the node or the listener fails, and says why.
///
/// # Errors
///
/// What was refused before.
fn serve_anew<
    N: Threads
        + Wait
        + Clock
        + Net<Listener = TcpListener, Stream = TcpStream>
        + Copy
        + Send
        + 'static,
>(
    rt: N,
    alloc: Global,
    hash_builder: RandomState,
    listener: TcpListener,
    standby: String,
    client: &Arc<Client>,
) -> Result<PairEnd, Refusal> {
    let link = LinkListener::new(alloc, client, &standby)?;
    let device = new_image(alloc, Role::Primary)?;
    serve_over(rt, alloc, hash_builder, device, listener, standby, link)
}

/// Serves clients over the image of this device until a step stops the node or the listener fails, and says why.
///
/// # Errors
///
/// As at `primary::open`.
fn serve_over<
    N: Threads
        + Wait
        + Clock
        + Net<Listener = TcpListener, Stream = TcpStream>
        + Copy
        + Send
        + 'static,
    D: Pmem + Drop + Send + 'static,
>(
    rt: N,
    alloc: Global,
    hash_builder: RandomState,
    device: D,
    listener: TcpListener,
    standby: String,
    link: LinkListener,
) -> Result<PairEnd, Refusal>
    requires { (word : ℕ) → Only ((D.state device).words word) (image_of (D.state device).words word) }
{
    let opened: Opened<WblEngine<D>, MvKeyspace> = open(alloc, device, hash_builder)?;
    let setup = Setup::quiet(Log::new(alloc, link));
    match run(rt, alloc, opened, listener, standby, setup) {
        Stop::Refused(why) => Ok(PairEnd::Refused(why)),
        Stop::ListenerClosed => Ok(PairEnd::Broken),
    }
}

/// Why a node serves no longer, wherever that came from.
fn any(why: Result<PairEnd, Refusal>) -> PairEnd {
    match why {
        Ok(why) => why,
        Err(refusal) => PairEnd::Refused(refusal),
    }
}
