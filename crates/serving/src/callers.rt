//! Who called and who arrived, as the node's thread asks for them.
ghost use Rattle.std.specs.Prelude.{◌≡◌, ◌++◌, ◌∷◌, []};
ghost use Rattle.serving.specs.Callers.{answer_of, answers_of, seat_of};

use crate::shared_entrance::{NextArrival, SharedEntrance, leave, next_arrival};
use pipes::Seat;
use std::snapshot::Snapshot;
use std::sync::{Arc, Wait};
use wakes::{NextReady, ReadyList, SeatNumber};

/// The list of the seats that somebody called for, and the entrance at which new connections wait, as the node's thread has them, which asks both. A clause sees
/// what each answered (`answers_of`).
#[derive(Drop)]
pub(crate) struct Callers {
    list: Arc<ReadyList>,
    entrance: Arc<SharedEntrance>,
    /// Of the list, for clauses only.
    pub(crate) answers: Answers,
    /// Of the entrance, for clauses only.
    pub(crate) arrivals: Answers,
}

/// What was answered each time that somebody asked, the last outermost. It takes no memory beyond its tag and a number: a snapshot has no bytes.
#[derive(Drop)]
pub(crate) enum Answers {
    /// Nobody asked yet.
    Nothing,
    /// This seat.
    Seat(SeatNumber, Snapshot<Answers>),
    /// Nobody had called, or waited.
    Nobody(Snapshot<Answers>),
}

impl Callers {
    /// Neither was asked yet.
    pub(crate) fn new(list: Arc<ReadyList>, entrance: Arc<SharedEntrance>) -> Callers
        ensures called { answers_of result.answers ≡ [] }
        ensures arrived { answers_of result.arrivals ≡ [] }
    {
        Callers {
            list,
            entrance,
            answers: Answers::Nothing,
            arrivals: Answers::Nothing,
        }
    }

    /// Asks for the seat that has waited longest. From then on, and so before the caller looks what there is to do for it, it can be listed again.
    pub(crate) fn next<R: Wait>(&mut self, rt: &R) -> NextReady
        ensures answers { answers_of self.new.answers ≡ answers_of self.old.answers ++ answer_of result.seat ∷ [] }
        ensures arrivals { self.new.arrivals ≡ self.old.arrivals }
    {
        let next = self.list.next(rt);
        self.answers.add(next.peek());
        next
    }

    /// Asks for the connection that has waited longest at the entrance.
    pub(crate) fn next_arrival<R: Wait>(&mut self, rt: &R) -> NextArrival
        ensures arrivals { answers_of self.new.arrivals ≡ answers_of self.old.arrivals ++ seat_of result.arrival ∷ [] }
        ensures answers { self.new.answers ≡ self.old.answers }
    {
        let next = next_arrival(rt, &self.entrance);
        self.arrivals.add(next.seat());
        next
    }

    /// Gives a seat back.
    pub(crate) fn leave<R: Wait>(&self, rt: &R, seat: Seat) {
        leave(rt, &self.entrance, seat);
    }
}

impl Answers {
    fn add(&mut self, answer: Option<SeatNumber>)
        ensures { answers_of self.new ≡ answers_of self.old ++ answer_of answer ∷ [] }
    {
        let before = Snapshot::of(self);
        *self = match answer {
            Some(number) => Answers::Seat(number, before),
            None => Answers::Nobody(before),
        };
    }
}
