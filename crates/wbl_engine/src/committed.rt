//! What a commit returns.
ghost use Rattle.std.specs.Prelude.{◌≡◌};

use std::marker::Model;

/// The position up to which everything is durable on this node, as established by a commit. In clauses it is a number.
#[derive(Clone, Copy, Debug, PartialEq, Eq)]
pub struct Committed {
    position: u64,
}

impl Model for Committed {
    ghost use Rattle.std.specs.Prelude.{ℕ};

    ghost Value = { ℕ };

    ghost view = { λ c. c.position };

    ghost inverse = { λ n. record { position = n } };
}

impl Committed {
    /// States that everything up to this position is durable.
    pub(crate) fn at(position: u64) -> Committed
        ensures { result ≡ position }
    {
        Committed { position }
    }

    /// The position up to which everything is durable.
    pub fn position(&self) -> u64
        ensures { result ≡ self.now }
    {
        self.position
    }
}
