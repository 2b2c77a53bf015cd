//! How connections come to their driver.
use crate::driven::DrivenConnection;
use crate::room::{self, SharedRoom};
use kv_types::Refusal;
use lobby::Lobby;
use pipes::{MAX_SEATS, Seat};
use std::alloc::{AllocError, Global};
use std::collections::VecDeque;
use std::sync::{Arc, Mutex, Wait};
use wakes::{Calls, Flag};

/// The places of a driver, and the connections that it has yet to take in. A place is held until the socket is closed, which may be after another
/// connection has the seat.
#[derive(Drop)]
struct Intake {
    places: Lobby,
    newcomers: VecDeque<DrivenConnection>,
}

/// How connections come to one driver. Any thread may have one.
#[derive(Drop)]
pub struct DriverEntrance {
    intake: Arc<Mutex<Intake>>,
    calls: Arc<Calls>,
    idle: Arc<IdleLook>,
    room: Arc<SharedRoom>,
}

/// Whether the driver is to look now who may end, so that there is room for somebody else.
#[derive(Drop)]
pub(crate) struct IdleLook {
    /// Set by whoever waits for a seat or a place, until the driver has looked.
    is_asked: Flag,
    /// Whether it found one then.
    has_found: Flag,
}

impl DriverEntrance {
    /// The entrance of a driver that is called so, whose sockets need this room. It allocates all the memory that it will ever need.
    ///
    /// # Errors
    ///
    /// Only `Memory`.
    pub(crate) fn new(
        alloc: Global,
        calls: Arc<Calls>,
        room: Arc<SharedRoom>,
    ) -> Result<DriverEntrance, Refusal> {
        let intake = Intake {
            places: Lobby::new(alloc)?,
            newcomers: VecDeque::with_capacity(alloc, MAX_SEATS)?,
        };
        let idle = IdleLook {
            is_asked: Flag::new(),
            has_found: Flag::new(),
        };
        Ok(DriverEntrance {
            intake: Arc::new(alloc, Mutex::new(intake))?,
            calls,
            idle: Arc::new(alloc, idle)?,
            room,
        })
    }

    /// Another entrance of the same driver.
    ///
    /// # Errors
    ///
    /// Only `AllocError`.
    pub(crate) fn another(&self) -> Result<DriverEntrance, AllocError> {
        let intake = Arc::try_clone(&self.intake)?;
        let calls = Arc::try_clone(&self.calls)?;
        let idle = Arc::try_clone(&self.idle)?;
        let room = Arc::try_clone(&self.room)?;
        Ok(DriverEntrance {
            intake,
            calls,
            idle,
            room,
        })
    }

    /// The calls for the driver's connections.
    pub(crate) fn calls(&self) -> &Arc<Calls> {
        &self.calls
    }

    /// A place, if one is free and there is room for a socket.
    pub fn enter<R: Wait>(&self, rt: &R) -> Option<Seat> {
        let mut room = self.room.lock(rt);
        let mut intake = self.intake.lock(rt);
        room::enter(&mut room, &mut intake.places)
    }

    /// Gives a place back. Its socket is closed.
    pub fn leave<R: Wait>(&self, rt: &R, place: Seat) {
        let mut room = self.room.lock(rt);
        let mut intake = self.intake.lock(rt);
        room::leave(&mut room, &mut intake.places, place);
    }

    /// Hands a connection to the driver.
    pub fn hand<R: Wait>(&self, rt: &R, connection: DrivenConnection) {
        // There is room for each place.
        let _ = self.intake.lock(rt).newcomers.push_back(connection);
        self.calls.wake();
    }

    /// Has the driver end those that have been idle for too long, and let those go whose peers send no more and wait.
    pub fn ask_for_room(&self) {
        self.idle.is_asked.set();
        self.calls.wake();
    }

    /// Whether the driver has looked since, and has found none.
    pub fn has_found_none(&self) -> bool {
        !self.idle.is_asked.is_set() && !self.idle.has_found.is_set()
    }

    /// Whether the driver is to look.
    pub(crate) fn is_asked_to_look(&self) -> bool {
        self.idle.is_asked.is_set()
    }

    /// The driver has looked, and has found one or none.
    pub(crate) fn has_looked(&self, any: bool) {
        let _ = self.idle.has_found.take();
        if any {
            self.idle.has_found.set();
        }
        let _ = self.idle.is_asked.take();
    }

    /// The connection that has waited longest for the driver, if one does.
    pub(crate) fn next<R: Wait>(&self, rt: &R) -> Option<DrivenConnection> {
        self.intake.lock(rt).newcomers.pop_front()
    }
}
