//! Why a call of any layer was refused.
ghost use Rattle.std.specs.Prelude.{◌≡◌};

use std::alloc::{AllocError, AllocFailed};
use std::error::Error;
use std::fmt;

/// Why a call was refused. Each has a number of its own and a text, which programs print.
#[derive(Clone, Copy, Debug, PartialEq, Eq)]
pub enum Refusal {
    /// The device's failure count rose, in this call or in an earlier call of the same engine; or a file could not be opened, created or read.
    Fault = 1,
    /// The image does not begin with the magic word.
    BadMagic,
    /// The image has another version.
    BadVersion,
    /// The device or file does not have the number of lines that it should have.
    WrongSize,
    /// No free run of lines is long enough, or no entry is free.
    Full,
    /// The next stamp limit, position, epoch or record number would reach 2^62.
    Exhausted,
    /// The image breaks a rule of its format.
    Damaged,
    /// All 1,024 seats are taken.
    SeatsFull,
    /// The pipe already held as many items as it can hold.
    PipeFull,
    /// No continuation of the bytes is a frame.
    FrameFault,
    /// The epoch is not the expected one.
    WrongEpoch,
    /// The frame does not begin at the standby's position.
    PositionGap,
    /// An acknowledgement is above this node's own position, or a delta would go backwards.
    StandbyAhead,
    /// Out of memory: an allocation was refused.
    Memory,
    /// Nobody has said that the old primary is stopped.
    NotFenced,
    /// The image is to be served in the other role.
    WrongRole,
    /// The image is a newcomer's, which has not got its copy.
    NotCopied,
    /// The node at the other end of the link belongs to another pair.
    WrongPair,
    /// The node at the other end of the link is of a release whose links this one does not speak.
    WrongLink,
}

impl From<AllocError> for Refusal {
    ghost use Rattle.kv_types.specs.declared.refusal.Refusal.TheVariants.{Memory};

    ghost from_gives = { λ _ r. r ≡ Memory };

    fn from(_e: AllocError) -> Refusal {
        Refusal::Memory
    }
}

impl<T: Drop> From<AllocFailed<T>> for Refusal {
    ghost use Rattle.kv_types.specs.declared.refusal.Refusal.TheVariants.{Memory};

    ghost from_gives = { λ _ r. r ≡ Memory };

    fn from(_e: AllocFailed<T>) -> Refusal {
        Refusal::Memory
    }
}

impl Refusal {
    ghost use Rattle.kv_types.specs.Refusal.{refusal_number};

    /// The number that programs print, 1 to 19.
    pub fn number(self) -> u8
        ensures { result ≡ refusal_number self }
    {
        self as u8
    }
}

impl fmt::Display for Refusal {
    ghost use Rattle.std.specs.Prelude.{Some};
    ghost use Rattle.kv_types.specs.Refusal.{refusal_text};

    ghost output = { λ r. Some (refusal_text r) };

    fn fmt<W: fmt::Write>(&self, f: &mut fmt::Formatter<W>) -> fmt::Result {
        f.write_str(match self {
            Refusal::Fault => "device fault",
            Refusal::BadMagic => "bad magic",
            Refusal::BadVersion => "bad version",
            Refusal::WrongSize => "wrong size",
            Refusal::Full => "full",
            Refusal::Exhausted => "stamps exhausted",
            Refusal::Damaged => "damaged image",
            Refusal::SeatsFull => "seats full",
            Refusal::PipeFull => "pipe full",
            Refusal::FrameFault => "frame fault",
            Refusal::WrongEpoch => "wrong epoch",
            Refusal::PositionGap => "position gap",
            Refusal::StandbyAhead => "standby ahead",
            Refusal::Memory => "out of memory",
            Refusal::NotFenced => "not fenced",
            Refusal::WrongRole => "wrong role",
            Refusal::NotCopied => "not copied",
            Refusal::WrongPair => "wrong pair",
            Refusal::WrongLink => "wrong link version",
        })
    }
}

impl Error for Refusal {}
