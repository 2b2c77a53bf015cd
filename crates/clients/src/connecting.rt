//! A new connection: its rings, and what its driver and the thread that serves have of it.
ghost use Rattle.std.specs.Prelude.{◌≡◌, IfOk, IfErr};
ghost use Rattle.std.specs.Arc.{arc_value};
ghost use Rattle.pipes.specs.Ring.{AreEndsOfOne};

use crate::driven::DrivenConnection;
use crate::intake::DriverEntrance;
use crate::look_ahead::LookAhead;
use crate::measured::Measured;
use crate::outbox::Outbox;
use crate::queues::{ReplyQueue, RequestQueue};
use crate::reading::RequestReader;
use crate::reply_side::ReplySide;
use crate::request_side::RequestSide;
use crate::signals::Signals;
use crate::stillness::Stillness;
use kv_types::{Held, Item, Refusal};
use lobby::Arrival;
use pipes::{RingPipe, Seat};
use std::alloc::Global;
use std::net::TcpStream;
use std::sync::Arc;
use wakes::{Calls, ConnectionFlags, ReadyList, SeatNumber, SeatWaker};

/// A connection that is ready to be served.
#[derive(Drop)]
pub struct Connection {
    /// What the thread that serves has of it.
    pub arrival: Arrival<RequestQueue, ReplyQueue>,
    /// What its driver has of it.
    pub driven: DrivenConnection,
}

/// A connection's seat among those that are served, and its place at its driver.
#[derive(Debug, Drop)]
pub struct Admission {
    /// Its seat.
    pub seat: Seat,
    /// Its place.
    pub place: Seat,
}

/// The parts of a connection beside its seat and its place.
#[derive(Drop)]
struct Parts {
    requests: RequestQueue,
    replies: ReplyQueue,
    request_side: RequestSide,
    reply_side: ReplySide,
    signals: Signals,
}

/// Makes all that a connection needs. `driver` is the entrance of the driver at which it has its place.
///
/// # Errors
///
/// The seat and the place, if memory is refused, or the system refuses a socket that does not block. The stream is closed then.
pub fn new_connection(
    alloc: Global,
    stream: TcpStream,
    admission: Admission,
    driver: &DriverEntrance,
    ready: &Arc<ReadyList>,
) -> Result<Connection, Admission>
    ensures seat { IfOk result (λ made. (made.arrival.seat ≡ admission.seat) × (made.driven.place ≡ admission.place)) }
    ensures calls { IfOk result (λ made. made.driven.signals.seat.number ≡ admission.seat) }
    ensures called { IfOk result (λ made. (made.arrival.requests.reader.number ≡ admission.place) × (made.arrival.replies.writer.number ≡ admission.place)) }
    ensures requests { IfOk result (λ made. AreEndsOfOne made.driven.requests.items made.arrival.requests.items.inlet) }
    ensures replies { IfOk result (λ made. AreEndsOfOne made.arrival.replies.replies made.driven.replies.replies) }
    ensures returned { IfErr result (λ back. back ≡ admission) }
{
    // A reply is to go out as soon as it is written. A socket that refuses this is slower, and nothing else.
    let _ = stream.set_nodelay(true);
    if stream.set_nonblocking(true).is_err() {
        return Err(admission);
    }
    let seat = SeatNumber::of(&admission.seat);
    let place = SeatNumber::of(&admission.place);
    match make_parts(alloc, seat, place, driver.calls(), ready) {
        Ok(parts) => Ok(joined(stream, admission, parts)),
        Err(_) => Err(admission),
    }
}

fn joined(stream: TcpStream, admission: Admission, parts: Parts) -> Connection
    ensures seat { (result.arrival.seat ≡ admission.seat) × (result.driven.place ≡ admission.place) }
    ensures arrival { (result.arrival.requests ≡ parts.requests) × (result.arrival.replies ≡ parts.replies) }
    ensures driven { (result.driven.requests ≡ parts.request_side) × (result.driven.replies ≡ parts.reply_side) × (result.driven.signals ≡ parts.signals) }
{
    let Admission { seat, place } = admission;
    Connection {
        arrival: Arrival {
            seat,
            requests: parts.requests,
            replies: parts.replies,
        },
        driven: DrivenConnection {
            place,
            stream,
            requests: parts.request_side,
            replies: parts.reply_side,
            signals: parts.signals,
            is_noted: false,
            stillness: Stillness::new(),
            counted: 0,
            measured: Measured::Nothing,
        },
    }
}

fn make_parts(
    alloc: Global,
    seat: SeatNumber,
    place: SeatNumber,
    calls: &Arc<Calls>,
    ready: &Arc<ReadyList>,
) -> Result<Parts, Refusal>
    ensures calls { IfOk result (λ made. made.signals.seat ≡ seat) }
    ensures called { IfOk result (λ made. (made.requests.reader.number ≡ place.number) × (made.replies.writer.number ≡ place.number)) }
    ensures requests { IfOk result (λ made. AreEndsOfOne made.request_side.items made.requests.items.inlet) }
    ensures replies { IfOk result (λ made. AreEndsOfOne made.replies.replies made.reply_side.replies) }
{
    let requests = RingPipe::<Item>::new(alloc)?;
    let replies = RingPipe::<Held>::new(alloc)?;
    let flags = Arc::new(alloc, ConnectionFlags::new())?;
    let reader = SeatWaker::new(Arc::try_clone(calls)?, place);
    let writer = SeatWaker::new(Arc::try_clone(calls)?, place);
    let signals = Signals {
        flags: Arc::try_clone(&flags)?,
        ready: Arc::try_clone(ready)?,
        seat,
    };
    Ok(Parts {
        requests: RequestQueue {
            items: LookAhead::new(requests.inlet),
            reader,
            flags,
        },
        replies: ReplyQueue {
            replies: replies.outlet,
            writer,
        },
        request_side: RequestSide::new(RequestReader::new(alloc)?, requests.outlet),
        reply_side: ReplySide::new(replies.inlet, Outbox::new(alloc)),
        signals,
    })
}
