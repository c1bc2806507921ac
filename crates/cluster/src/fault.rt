//! The refusals of a healing.
ghost use Rattle.std.specs.Prelude.{◌≡◌, ◌⊎◌, ◌≤◌, None};
ghost use Rattle.cluster.specs.Faults.{heal_fault_number};
ghost use Rattle.cluster.specs.declared.fault.HealFault.TheVariants.{Side, Meet, OutOfMemory};

use exchange_core::SideFault;
use refusals::{Numbered, OUT_OF_MEMORY, Place, words_of};
use registry_lock::MeetFault;
use std::alloc::AllocError;
use thiserror::Error;

/// The reason why a split isn't healed.
#[derive(Clone, Copy, Debug, PartialEq, Eq, Error)]
pub enum HealFault {
    /// A half refuses a call.
    #[error(transparent)]
    Side(SideFault),
    /// Both halves finished, but don't meet.
    #[error(transparent)]
    Meet(MeetFault),
    /// 90: out of memory.
    #[error("{}", words_of(OUT_OF_MEMORY))]
    OutOfMemory,
}

impl Numbered for HealFault {
    ghost number_of = { heal_fault_number };

    ghost place_of = { λ _. None };

    fn number(&self) -> u32 {
        match self {
            HealFault::Side(fault) => fault.number(),
            HealFault::Meet(fault) => fault.number(),
            HealFault::OutOfMemory => OUT_OF_MEMORY,
        }
    }

    fn place(&self) -> Option<Place> {
        None
    }
}

impl HealFault {
    // Returns the fault with the lesser number.
    pub(crate) fn least(self, other: HealFault) -> HealFault
        ensures one { (result ≡ self) ⊎ (result ≡ other) }
        ensures below { heal_fault_number result ≤ heal_fault_number self }
        ensures other_below { heal_fault_number result ≤ heal_fault_number other }
    {
        if other.number() < self.number() {
            other
        } else {
            self
        }
    }
}

impl From<SideFault> for HealFault {
    ghost from_gives = { λ fault converted. converted ≡ Side fault };

    fn from(fault: SideFault) -> HealFault {
        HealFault::Side(fault)
    }
}

impl From<MeetFault> for HealFault {
    ghost from_gives = { λ fault converted. converted ≡ Meet fault };

    fn from(fault: MeetFault) -> HealFault {
        HealFault::Meet(fault)
    }
}

impl From<AllocError> for HealFault {
    ghost from_gives = { λ _ converted. converted ≡ OutOfMemory };

    fn from(_: AllocError) -> HealFault {
        HealFault::OutOfMemory
    }
}
