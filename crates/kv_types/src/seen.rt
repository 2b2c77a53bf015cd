//! How far both nodes hold the list of calls.
ghost use Rattle.std.specs.Prelude.{◌≡◌};
ghost use Rattle.kv_types.specs.Seen.{covers};

/// How far each node holds the list of calls, as someone has seen it. Both numbers are positions of the list.
#[derive(Clone, Copy, Debug, PartialEq, Eq)]
pub struct Seen {
    /// The position that is durable on the primary.
    pub local: u64,
    /// The position that the standby has acknowledged.
    pub remote: u64,
}

impl Seen {
    /// Whether both nodes hold this position.
    pub fn covers(&self, position: u64) -> bool
        ensures { result ≡ covers self.now position }
    {
        position <= self.local && position <= self.remote
    }
}
