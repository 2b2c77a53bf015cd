//! What a seat knows, and how that is split and joined.
use atomic_table::{Join, Split};
use std::marker::PhantomData;

/// What a seat knows of the three words, and which of them it raises. No value of this type is made: it occurs only in clauses.
pub struct MarkView {
    /// What it has seen of the local word.
    pub local: u64,
    /// What it has seen of the remote word.
    pub remote: u64,
    /// What it has seen of the heard word: 1 where the standby was heard, else 0.
    pub heard: u64,
    /// Whether the seat is the committer's, which knows the local word exactly.
    pub raises_local: bool,
    /// Whether the seat is the link's, which knows the remote word exactly.
    pub raises_remote: bool,
}

/// Which raises a split hands to the new seat, if the old one has them.
pub trait Cut {
    ghost use Rattle.std.specs.Prelude.{Bool};

    ghost takes_local: { Bool };

    ghost takes_remote: { Bool };
}

/// The new seat only reads.
pub struct Reader;

impl Cut for Reader {
    ghost use Rattle.std.specs.Prelude.{false};

    ghost takes_local = { false };

    ghost takes_remote = { false };
}

/// The new seat raises the local mark.
pub struct Committer;

impl Cut for Committer {
    ghost use Rattle.std.specs.Prelude.{true, false};

    ghost takes_local = { true };

    ghost takes_remote = { false };
}

/// The new seat raises the remote mark.
pub struct Link;

impl Cut for Link {
    ghost use Rattle.std.specs.Prelude.{true, false};

    ghost takes_local = { false };

    ghost takes_remote = { true };
}

// How a table splits the view of a seat.
pub(crate) struct Halves<C: Cut> {
    cut: PhantomData<C>,
}

impl<C: Cut> Split<MarkView> for Halves<C> {
    ghost use Rattle.marks.specs.View.{keeping, taking};

    ghost left = { keeping C.takes_local C.takes_remote };

    ghost right = { taking C.takes_local C.takes_remote };
}

// How a table joins the views of two seats.
pub(crate) struct Both;

impl Join<MarkView> for Both {
    ghost use Rattle.marks.specs.View.{joined, spent};

    ghost both = { joined };

    ghost spent = { spent };
}
