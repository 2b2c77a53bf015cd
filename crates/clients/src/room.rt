//! For how many clients' sockets there is room.
ghost use Rattle.std.specs.Prelude.{◌≡◌, ◌≤◌, ◌+◌, ◌-◌, false, true, IfSome, None};
ghost use Rattle.lobby.specs.Book.{Moves, free, taken};
ghost use Rattle.clients.specs.Room.{IsTaken};

use lobby::Lobby;
use pipes::Seat;
use std::sync::Mutex;

/// How many clients' sockets may be open at once, at all drivers together, and how many are.
#[derive(Debug, Drop)]
pub struct SocketRoom {
    most: usize,
    used: usize,
    ghost within: { used ≤ most },
}

/// The room of all drivers, each of which takes from it and gives back.
pub type SharedRoom = Mutex<SocketRoom>;

impl SocketRoom {
    /// Room for so many sockets, none of which is open yet.
    pub fn new(most: usize) -> SocketRoom
        ensures most { result.most ≡ most }
        ensures none { result.used ≡ 0 }
    {
        SocketRoom { most, used: 0 }
    }

    /// Takes the room of one socket. Answers whether there was any.
    pub(crate) fn take(&mut self) -> bool
        ensures takes { result ≡ true → IsTaken self.old.most self.old.used self.new.used }
        ensures full { result ≡ false → (self.old.used ≡ self.old.most) × (self.new.used ≡ self.old.used) }
        ensures most { self.new.most ≡ self.old.most }
    {
        if self.used >= self.most {
            return false;
        }
        self.used += 1;
        true
    }

    /// Gives back the room of one socket, which is closed.
    pub(crate) fn give_back(&mut self)
        ensures used { self.new.used ≡ self.old.used - 1 }
        ensures most { self.new.most ≡ self.old.most }
    {
        self.used = self.used.saturating_sub(1);
    }
}

/// A place, if there is one and room for a socket.
pub(crate) fn enter(room: &mut SocketRoom, places: &mut Lobby) -> Option<Seat>
    ensures takes { IfSome result (λ place. IsTaken room.old.most room.old.used room.new.used × Moves places.old place free taken places.new) }
    ensures none { result ≡ None → (room.new.used ≡ room.old.used) × (places.new ≡ places.old) }
    ensures most { room.new.most ≡ room.old.most }
{
    if !room.take() {
        return None;
    }
    match places.enter() {
        Ok(place) => Some(place),
        Err(_) => {
            room.give_back();
            None
        }
    }
}

/// Gives back a place and the room of its socket, which is closed.
pub(crate) fn leave(room: &mut SocketRoom, places: &mut Lobby, place: Seat)
    ensures used { room.new.used ≡ room.old.used - 1 }
    ensures most { room.new.most ≡ room.old.most }
{
    places.leave(place);
    room.give_back();
}
