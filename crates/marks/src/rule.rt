//! The rule of the three words, and what each step on one of them tells its seat.
use crate::view::MarkView;
use atomic_table::{Play, TableRule};

/// The rule that each step keeps, beginning with the engine's position.
pub(crate) struct MarkRule;

impl TableRule<(), MarkView, u64> for MarkRule {
    ghost use Rattle.marks.specs.Rule.{Marked};
    ghost use Rattle.marks.specs.View.{opening};

    ghost holds = { λ _. Marked };

    ghost first = { opening };
}

pub(crate) struct RaiseLocal;

impl Play<(), MarkView> for RaiseLocal {
    ghost use Rattle.marks.specs.Rule.{RaisesLocal};

    ghost then = { RaisesLocal };
}

pub(crate) struct RaiseRemote;

impl Play<(), MarkView> for RaiseRemote {
    ghost use Rattle.marks.specs.Rule.{RaisesRemote};

    ghost then = { RaisesRemote };
}

pub(crate) struct FindLocal;

impl Play<(), MarkView> for FindLocal {
    ghost use Rattle.marks.specs.Rule.{FindsLocal};

    ghost then = { FindsLocal };
}

pub(crate) struct FindRemote;

impl Play<(), MarkView> for FindRemote {
    ghost use Rattle.marks.specs.Rule.{FindsRemote};

    ghost then = { FindsRemote };
}

pub(crate) struct Hear;

impl Play<(), MarkView> for Hear {
    ghost use Rattle.marks.specs.Rule.{Hears};

    ghost then = { Hears };
}

pub(crate) struct FindHeard;

impl Play<(), MarkView> for FindHeard {
    ghost use Rattle.marks.specs.Rule.{FindsHeard};

    ghost then = { FindsHeard };
}
