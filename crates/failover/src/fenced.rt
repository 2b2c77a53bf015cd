//! The fence: the old primary does nothing more.
ghost use Rattle.std.specs.Prelude.{◌≡◌};

use mv_keyspace::Keyspace;
use primary::Primary;
use std::marker::Model;
use wbl_engine::Durable;

/// The primary of one epoch does nothing more. Only `fence` and `operator_fence` make one. In clauses it is that epoch.
#[derive(Debug, Drop)]
pub struct Fenced {
    epoch: u64,
}

impl Model for Fenced {
    ghost use Rattle.std.specs.Prelude.{ℕ};

    ghost Value = { ℕ };

    ghost view = { λ fenced. fenced.epoch };

    ghost inverse = { λ n. record { epoch = n } };
}

impl Fenced {
    /// The epoch whose primary does nothing more.
    pub fn epoch(&self) -> u64
        ensures { result ≡ self.now }
    {
        self.epoch
    }
}

/// The operator's statement that the primary of this epoch does nothing more, ever: its process has ended and is not started again on its image.
/// Nothing here can tell whether that is true.
pub fn operator_fence(epoch: u64) -> Fenced
    ensures { result ≡ epoch }
{
    Fenced { epoch }
}

/// Ends a primary: it is consumed, so it does nothing more. Gives its device back, unchanged.
pub fn fence<E: Durable, K: Keyspace + Drop>(primary: Primary<E, K>) -> (Fenced, E::Device)
    ensures fenced { result.0 ≡ (E.contents primary.back.committer.engine).current.epoch }
    ensures device { E.Device.state result.1 ≡ E.device primary.back.committer.engine }
{
    let fenced = Fenced {
        epoch: primary.back.epoch(),
    };
    (fenced, primary.back.into_device())
}
