//! The acceptor's thread: it gives each connection a seat and a driver.
use crate::shared_entrance::{SharedEntrance, arrive, enter, leave};
use clients::{Admission, Connection, DriverEntrance, new_connection};
use links::is_lasting;
use std::alloc::Global;
use std::io::Write;
use std::net::{TcpListener, TcpStream};
use std::sync::{Arc, Wait};
use std::thread;
use std::time::{Clock, Duration};
use wakes::{Flag, ReadyList, Waker};

/// What a client is told that finds all seats taken.
const NO_SEAT: &[u8] = b"-ERR max number of clients reached\r\n";

/// How long it rests where a connection was refused it, as where there are no more descriptors, in milliseconds.
const PAUSE_MILLISECONDS: u64 = 100;

/// How often it looks for a seat where some may be closed for it, and after how many milliseconds each time.
const SEAT_TRIES: u32 = 40;

const SEAT_MILLISECONDS: u64 = 5;

/// What the acceptor owns.
#[derive(Drop)]
pub struct Acceptor {
    /// The entrances of the drivers.
    drivers: Vec<DriverEntrance>,
    /// Which of them has its turn next.
    turn: usize,
    ready: Arc<ReadyList>,
    /// Set once no further connection is accepted.
    listener_closed: Arc<Flag>,
    /// Wakes the node's thread.
    node: Waker,
}

impl Acceptor {
    /// An acceptor that gives connections to these drivers in turn. It sets the flag once it accepts no further connection.
    pub fn new(
        drivers: Vec<DriverEntrance>,
        ready: Arc<ReadyList>,
        listener_closed: Arc<Flag>,
        node: Waker,
    ) -> Acceptor {
        Acceptor {
            drivers,
            turn: 0,
            ready,
            listener_closed,
            node,
        }
    }

    /// Accepts connections until the listener takes none any more, and then says so to the node's thread. A connection for which there is no seat or no room for
    /// its socket, and for which none is made by closing others that are idle for too long or whose peers send no more and wait, is told so and closed; one for
    /// which memory is refused is closed.
    pub fn run<R: Wait + Clock>(
        self,
        rt: &R,
        alloc: Global,
        listener: &TcpListener,
        entrance: &Arc<SharedEntrance>,
    ) {
        let mut acceptor = self;
        acceptor.accept_all(rt, alloc, listener, entrance);
        acceptor.listener_closed.set();
        acceptor.node.wake();
    }

    /// Accepts connections until the listener takes none any more.
    fn accept_all<R: Wait + Clock>(
        &mut self,
        rt: &R,
        alloc: Global,
        listener: &TcpListener,
        entrance: &Arc<SharedEntrance>,
    ) {
        for stream in listener.incoming() {
            match stream {
                Ok(stream) => self.admit(rt, alloc, stream, entrance),
                Err(error) if is_lasting(&error) => return,
                Err(_) => thread::sleep(rt, Duration::from_millis(PAUSE_MILLISECONDS)),
            }
        }
    }

    /// Gives a connection to the next driver.
    fn admit<R: Wait + Clock>(
        &mut self,
        rt: &R,
        alloc: Global,
        stream: TcpStream,
        entrance: &Arc<SharedEntrance>,
    ) {
        self.turn = next_turn(self.turn, self.drivers.len());
        if let Some(driver) = self.drivers.get(self.turn) {
            self.admit_at(rt, alloc, stream, driver, entrance);
        }
    }

    /// Gives a connection a seat and a place at its driver, if there are both.
    fn admit_at<R: Wait + Clock>(
        &self,
        rt: &R,
        alloc: Global,
        stream: TcpStream,
        driver: &DriverEntrance,
        entrance: &Arc<SharedEntrance>,
    ) {
        match self.find_seat(rt, driver, entrance) {
            Some(admission) => self.connect(rt, alloc, stream, admission, driver, entrance),
            None => {
                let _ = (&mut &stream).write_all(NO_SEAT);
            }
        }
    }

    /// A seat, and a place at this driver. Where there is none, the drivers close those that may be closed for it, if there are such.
    fn find_seat<R: Wait + Clock>(
        &self,
        rt: &R,
        driver: &DriverEntrance,
        entrance: &Arc<SharedEntrance>,
    ) -> Option<Admission> {
        let found = admission(rt, driver, entrance);
        if found.is_some() {
            return found;
        }
        for each in &self.drivers {
            each.ask_for_room();
        }
        for _ in 0..SEAT_TRIES {
            thread::sleep(rt, Duration::from_millis(SEAT_MILLISECONDS));
            let found = admission(rt, driver, entrance);
            if found.is_some() || self.has_found_none() {
                return found;
            }
        }
        None
    }

    /// Whether all drivers have looked, and nobody may be closed.
    fn has_found_none(&self) -> bool {
        self.drivers.iter().all(|each| each.has_found_none())
    }

    /// Hands a connection to its driver, and lets it wait at the entrance. The driver has it first: whoever is called for it is there then.
    fn connect<R: Wait>(
        &self,
        rt: &R,
        alloc: Global,
        stream: TcpStream,
        admission: Admission,
        driver: &DriverEntrance,
        entrance: &Arc<SharedEntrance>,
    ) {
        match new_connection(alloc, stream, admission, driver, &self.ready) {
            Ok(Connection { arrival, driven }) => {
                driver.hand(rt, driven);
                arrive(rt, entrance, arrival);
                self.node.wake();
            }
            Err(Admission { seat, place }) => {
                driver.leave(rt, place);
                leave(rt, entrance, seat);
            }
        }
    }
}

/// The driver after this one.
fn next_turn(turn: usize, count: usize) -> usize {
    if turn.saturating_add(1) < count {
        turn.saturating_add(1)
    } else {
        0
    }
}

/// A seat, and a place at this driver, if there are both.
fn admission<R: Wait>(
    rt: &R,
    driver: &DriverEntrance,
    entrance: &Arc<SharedEntrance>,
) -> Option<Admission> {
    let seat = enter(rt, entrance)?;
    match driver.enter(rt) {
        Some(place) => Some(Admission { seat, place }),
        None => {
            leave(rt, entrance, seat);
            None
        }
    }
}
