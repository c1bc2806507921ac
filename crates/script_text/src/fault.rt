//! The faults of a line.
ghost use Rattle.std.specs.Prelude.{◌≡◌, None};
ghost use Rattle.script_text.specs.declared.fault.LineFault.TheVariants.{NoName, OutOfMemory};
ghost use Rattle.script_text.specs.Faults.{script_fault_number};

use clash_record::BadName;
use refusals::{Numbered, Place, words_of};
use std::alloc::AllocError;
use thiserror::Error;

/// The reason why the words of a line are rejected.
#[derive(Clone, Copy, Debug, PartialEq, Eq, Error)]
#[error("{}", words_of(self.number()))]
pub enum LineFault {
    /// 44: an invalid name.
    NoName,
    /// 50: the further bytes of a registration aren't 32 hex digits or `-`.
    HexText,
    /// 51: an unknown command or side, the wrong number of words, or an unprintable byte.
    Word,
    /// 52: a number with a sign or leading zeros, not decimal, or too big.
    Number,
    /// 90: out of memory.
    OutOfMemory,
}

impl Numbered for LineFault {
    ghost number_of = { script_fault_number };

    ghost place_of = { λ _. None };

    fn number(&self) -> u32 {
        match self {
            LineFault::NoName => 44,
            LineFault::HexText => 50,
            LineFault::Word => 51,
            LineFault::Number => 52,
            LineFault::OutOfMemory => 90,
        }
    }

    fn place(&self) -> Option<Place> {
        None
    }
}

impl From<AllocError> for LineFault {
    ghost from_gives = { λ _ converted. converted ≡ OutOfMemory };

    fn from(_: AllocError) -> LineFault {
        LineFault::OutOfMemory
    }
}

impl From<BadName> for LineFault {
    ghost from_gives = { λ _ converted. converted ≡ NoName };

    fn from(_: BadName) -> LineFault {
        LineFault::NoName
    }
}
