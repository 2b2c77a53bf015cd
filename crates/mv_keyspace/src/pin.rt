//! A position that is pinned.
ghost use Rattle.std.specs.Prelude.{◌≡◌};

/// A position of the list that is pinned: until it is given back, the keyspace keeps what was live there.
#[derive(Debug, Drop)]
pub struct Pin {
    pub(crate) position: u64,
}

impl Pin {
    /// The position that is pinned.
    pub fn position(&self) -> u64
        ensures { result ≡ self.now.position }
    {
        self.position
    }
}
