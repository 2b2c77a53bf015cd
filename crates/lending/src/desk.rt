//! The two ends of a lending.
ghost use Rattle.std.specs.Prelude.{◌≡◌, ◌≢◌, ◌+◌, Some, None, IfOk, IfErr};

use crate::rule::{Ends, GiveBack, Lend, LendingRule, Open, Take, TakeBack};
use crate::terms::Terms;
use crate::view::LendingView;
use atomic_table::{Seat, Table};
use std::alloc::{AllocError, Global};
use std::marker::Model;
use std::sync::Arc;

/// The lender has the place, which is empty.
const HOME: u64 = 0;

/// A value lies there, for the borrower.
const LENT: u64 = 1;

/// The borrower has the place, which is empty.
const TAKEN: u64 = 2;

/// A value lies there, for the lender, who takes it back just where it finds this word.
pub const RETURNED: u64 = 3;

/// The place is empty, and nobody has it yet.
const NEW: u64 = 4;

/// The value of the other end is not there yet. Only an end that asks makes one, of the word that it found: where the value was.
#[derive(Drop)]
pub struct NotYet {
    found: u64,
}

/// The end of the thread that lends. A clause sees the value that is out, as it was lent, and what it found when it asked for it.
#[derive(Drop)]
pub struct Lender<T, L: Terms<T>> {
    desk: Arc<Table<Option<T>, LendingView<T>, u64, LendingRule<L>, Global>>,
    seat: Seat<Option<T>, LendingView<T>>,
}

impl<T, L: Terms<T>> Model for Lender<T, L> {
    ghost use Rattle.std.specs.Prelude.{◌≡◌, true, false};
    ghost use Rattle.std.specs.Arc.{arc_value};
    ghost use Rattle.lending.specs.declared.view.EndView.{EndView};
    ghost use Rattle.lending.specs.Phases.{lender_has};
    ghost use Rattle.lending.specs.Ends.{lender_view};

    ghost Value = { EndView T };

    ghost view = { λ end. lender_view end.seat.me.0 };

    ghost invariant = { λ end. (end.seat.table_id ≡ (arc_value end.desk).shared.table_id) × (end.seat.table_id.words ≡ 1) × (end.seat.table_id.slots ≡ 1) × (end.seat.me.0.lends ≡ true) × (end.seat.me.0.new ≡ false) × (end.seat.me.1 ≡ lender_has end.seat.me.0.lent) };
}

/// The end of the thread that borrows. A clause sees the value that it has taken and not given back, as it took it, and what it found when it asked for one.
#[derive(Drop)]
pub struct Borrower<T, L: Terms<T>> {
    desk: Arc<Table<Option<T>, LendingView<T>, u64, LendingRule<L>, Global>>,
    seat: Seat<Option<T>, LendingView<T>>,
}

impl<T, L: Terms<T>> Model for Borrower<T, L> {
    ghost use Rattle.std.specs.Prelude.{◌≡◌, true};
    ghost use Rattle.std.specs.Arc.{arc_value};
    ghost use Rattle.lending.specs.declared.view.EndView.{EndView};
    ghost use Rattle.lending.specs.Phases.{borrower_has};
    ghost use Rattle.lending.specs.Ends.{borrower_view};

    ghost Value = { EndView T };

    ghost view = { λ end. borrower_view end.seat.me.0 };

    ghost invariant = { λ end. (end.seat.table_id ≡ (arc_value end.desk).shared.table_id) × (end.seat.table_id.words ≡ 1) × (end.seat.table_id.slots ≡ 1) × (end.seat.me.0.borrows ≡ true) × (end.seat.me.1 ≡ borrower_has end.seat.me.0.taken) };
}

/// The two ends of a new lending, of which each may go to a thread of its own. Nothing is lent.
///
/// # Errors
///
/// Only `AllocError`, if memory is refused.
pub fn lending<T: Drop, L: Terms<T>>(
    alloc: Global,
) -> Result<(Lender<T, L>, Borrower<T, L>), AllocError>
    ensures { IfOk result (λ ends. (ends.0.value ≡ None) × (ends.1.value ≡ None)) }
{
    let mut slots = Vec::with_capacity(alloc, 1)?;
    slots.push_reserved(None);
    let Ok((desk, mut seat)) = Table::<Option<T>, LendingView<T>, u64, LendingRule<L>, Global>::new(
        alloc,
        &[NEW],
        slots,
        &0,
    ) else {
        return Err(AllocError);
    };
    desk.shared.store::<Open>(&mut seat, 0, HOME);
    let other = desk.shared.split_seat::<Ends>(&mut seat);
    let desk = Arc::new(alloc, desk)?;
    let another = Arc::try_clone(&desk)?;
    Ok((
        Lender { desk, seat },
        Borrower {
            desk: another,
            seat: other,
        },
    ))
}

impl<T: Drop, L: Terms<T>> Lender<T, L> {
    /// Lends a value of which what is agreed may be said, where none is out.
    pub fn lend(&mut self, value: T)
        requires home { self.old.value ≡ None }
        requires offered { L.offers value }
        ensures { self.new ≡ record self.old { value = Some value } }
    {
        let table = &*self.desk;
        let _ = table.shared.exchange(&mut self.seat, 0, Some(value));
        table.shared.store::<Lend>(&mut self.seat, 0, LENT);
    }

    /// Asks for the value that is out, and takes it back just where it was given back.
    ///
    /// # Errors
    ///
    /// `NotYet` where it was not, by the word that was found.
    pub fn take_back(&mut self) -> Result<T, NotYet>
        ensures back { IfOk result (λ value. (lent : T) × (self.old.value ≡ Some lent) × L.keeps lent value) }
        ensures home { IfOk result (λ _. self.new ≡ record self.old { value = None; asked = self.old.asked + 1; found = RETURNED }) }
        ensures out { IfErr result (λ not_yet. (self.new ≡ record self.old { asked = self.old.asked + 1; found = not_yet.found }) × (not_yet.found ≢ RETURNED)) }
    {
        let desk = &*self.desk;
        let word = desk
            .shared
            .compare_exchange::<TakeBack<L>>(&mut self.seat, 0, RETURNED, HOME);
        if word != RETURNED {
            return Err(NotYet { found: word });
        }
        match desk.shared.exchange(&mut self.seat, 0, None) {
            Some(returned) => Ok(returned),
            None => unreachable!(),
        }
    }
}

impl<T: Drop, L: Terms<T>> Borrower<T, L> {
    /// Asks for a value, and takes the one that was lent just where there is one. What is agreed may be said of it.
    ///
    /// # Errors
    ///
    /// `NotYet` where there is none, by the word that was found.
    pub fn take(&mut self) -> Result<T, NotYet>
        requires { self.old.value ≡ None }
        ensures offered { IfOk result L.offers }
        ensures taken { IfOk result (λ value. self.new ≡ record self.old { value = Some value; asked = self.old.asked + 1; found = LENT }) }
        ensures nothing { IfErr result (λ not_yet. (self.new ≡ record self.old { asked = self.old.asked + 1; found = not_yet.found }) × (not_yet.found ≢ LENT)) }
    {
        let table = &*self.desk;
        let found = table
            .shared
            .compare_exchange::<Take<L>>(&mut self.seat, 0, LENT, TAKEN);
        if found != LENT {
            return Err(NotYet { found });
        }
        match table.shared.exchange(&mut self.seat, 0, None) {
            Some(value) => Ok(value),
            None => unreachable!(),
        }
    }

    /// Gives a value back for the one that was taken.
    pub fn give_back(&mut self, value: T)
        requires { (taken : T) × (self.old.value ≡ Some taken) × L.keeps taken value }
        ensures { self.new ≡ record self.old { value = None } }
    {
        let table = &*self.desk;
        let _ = table.shared.exchange(&mut self.seat, 0, Some(value));
        table.shared.store::<GiveBack>(&mut self.seat, 0, RETURNED);
    }
}
