//! What the standby tells the primary.
ghost use Rattle.std.specs.Prelude.{◌≡◌, ◌^◌, ◌<◌, ◌++◌};
ghost use Rattle.std.specs.Int.{w64, to_be_bytes};
ghost use Rattle.wbl_engine.specs.Contents.{IsDurable};

use wbl_engine::Durable;

/// The standby's statement that everything up to a position is durable on it, in an epoch. It is made by an engine whose record is durable, or of bytes
/// that were read: no call makes one of numbers, nor of a record that somebody put together.
#[derive(Clone, Copy, Debug, PartialEq, Eq)]
pub struct Ack {
    epoch: u64,
    position: u64,
}

impl Ack {
    /// The acknowledgement of what this engine's record makes durable: the record's epoch, and the position that the engine established by the commit, the
    /// reopening or the formatting that wrote it. Each crash of its device has to leave that record.
    pub fn of_engine<E: Durable>(engine: &E) -> Ack
        requires { IsDurable (E.device engine.now) (E.contents engine.now) }
        ensures { result ≡ record { epoch = (E.contents engine.now).current.epoch; position = (E.contents engine.now).current.position } }
    {
        Ack {
            epoch: engine.record().epoch,
            position: engine.committed().position(),
        }
    }

    /// The acknowledgement that a frame holds behind its first byte: the epoch and the position, each as eight bytes, the highest first.
    pub fn read(bytes: &[u8; 16]) -> Ack
        ensures numbers { bytes.now ≡ to_be_bytes w64 result.epoch ++ to_be_bytes w64 result.position }
        ensures fits { (result.epoch < 2 ^ 64) × (result.position < 2 ^ 64) }
    {
        let epoch = bytes.first_chunk::<8>().unwrap();
        let position = bytes.last_chunk::<8>().unwrap();
        Ack {
            epoch: number_of(epoch),
            position: number_of(position),
        }
    }

    /// The epoch of the standby's record.
    pub fn epoch(&self) -> u64
        ensures { result ≡ self.now.epoch }
    {
        self.epoch
    }

    /// The position up to which everything is durable on the standby.
    pub fn position(&self) -> u64
        ensures { result ≡ self.now.position }
    {
        self.position
    }
}

/// The number whose bytes these are, the highest first.
fn number_of(bytes: &[u8; 8]) -> u64
    ensures { to_be_bytes w64 result ≡ bytes.now }
{
    u64::from_be_bytes(*bytes)
}
