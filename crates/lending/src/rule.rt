//! The rule of the one place, and what each step tells its seat.
use crate::terms::Terms;
use crate::view::LendingView;
use atomic_table::{Play, Split, TableRule};
use std::marker::PhantomData;

pub(crate) struct LendingRule<L> {
    of: PhantomData<L>,
}

impl<T, L: Terms<T>> TableRule<Option<T>, LendingView<T>, u64> for LendingRule<L> {
    ghost use Rattle.lending.specs.Rule.{Ruled, opening};

    ghost holds = { λ _. Ruled L.offers L.keeps };

    ghost first = { λ _. opening };
}

pub(crate) struct Ends;

impl<T> Split<LendingView<T>> for Ends {
    ghost use Rattle.lending.specs.Rule.{lending, borrowing};

    ghost left = { lending };

    ghost right = { borrowing };
}

pub(crate) struct Open;

impl<T> Play<Option<T>, LendingView<T>> for Open {
    ghost use Rattle.lending.specs.Rule.{Opens};

    ghost then = { Opens };
}

pub(crate) struct Lend;

impl<T> Play<Option<T>, LendingView<T>> for Lend {
    ghost use Rattle.lending.specs.Rule.{Lends};

    ghost then = { Lends };
}

pub(crate) struct Take<L> {
    of: PhantomData<L>,
}

impl<T, L: Terms<T>> Play<Option<T>, LendingView<T>> for Take<L> {
    ghost use Rattle.lending.specs.Rule.{Takes};

    ghost then = { Takes L.offers };
}

pub(crate) struct GiveBack;

impl<T> Play<Option<T>, LendingView<T>> for GiveBack {
    ghost use Rattle.lending.specs.Rule.{Gives};

    ghost then = { Gives };
}

pub(crate) struct TakeBack<L> {
    of: PhantomData<L>,
}

impl<T, L: Terms<T>> Play<Option<T>, LendingView<T>> for TakeBack<L> {
    ghost use Rattle.lending.specs.Rule.{TakesBack};

    ghost then = { TakesBack L.keeps };
}
