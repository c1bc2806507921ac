//! The refusals of a side.
ghost use Rattle.std.specs.Prelude.{◌≡◌, None};
ghost use Rattle.exchange_core.specs.declared.fault.SideFault.TheVariants.{Table, OutOfMemory};
ghost use Rattle.exchange_core.specs.Faults.{side_fault_number};

use partition_table::TableFault;
use refusals::{Numbered, Place, words_of};
use std::alloc::AllocError;
use thiserror::Error;

/// A part that an exchange lacks before it can be finished.
#[derive(Clone, Copy, Debug, PartialEq, Eq)]
pub enum MissingPart {
    /// The other side's offer.
    TheirOffer,
    /// The ruling of this clash, counted from 0. Each earlier clash has one.
    Ruling(usize),
    /// The closing of this side's own list of withdrawn names.
    OwnList,
    /// The other side's list of withdrawn names.
    OtherList,
}

/// The reason why a side refuses a call.
#[derive(Clone, Copy, Debug, PartialEq, Eq, Error)]
#[error("{}", words_of(self.number()))]
pub enum SideFault {
    /// The table refuses: 30, 31, 32, 37, 41, 42 or 90.
    #[error(transparent)]
    Table(TableFault),
    /// 33: an exchange is open.
    Healing,
    /// 34: no exchange is open.
    NotHealing,
    /// 35: the number isn't above every number that this side began.
    StaleNumber,
    /// 36: the offer has another seed.
    SeedDiffers,
    /// 38: the ruling isn't of a clash of this exchange at one of its four words.
    StrangeRuling,
    /// 39: the exchange isn't complete.
    Missing(MissingPart),
    /// 40: the journal is full: it has 16 events for each name of the limit.
    JournalFull,
    /// 45: the message belongs to another exchange.
    OtherNumber,
    /// 46: the message was made by this side.
    OwnOffer,
    /// 47: the name is already withdrawn.
    Withdrawn,
    /// 48: the list of withdrawn names is closed.
    ListClosed,
    /// 90: out of memory.
    OutOfMemory,
}

impl Numbered for SideFault {
    ghost number_of = { side_fault_number };

    ghost place_of = { λ _. None };

    fn number(&self) -> u32 {
        match self {
            SideFault::Table(fault) => fault.number(),
            SideFault::Healing => 33,
            SideFault::NotHealing => 34,
            SideFault::StaleNumber => 35,
            SideFault::SeedDiffers => 36,
            SideFault::StrangeRuling => 38,
            SideFault::Missing(_) => 39,
            SideFault::JournalFull => 40,
            SideFault::OtherNumber => 45,
            SideFault::OwnOffer => 46,
            SideFault::Withdrawn => 47,
            SideFault::ListClosed => 48,
            SideFault::OutOfMemory => 90,
        }
    }

    fn place(&self) -> Option<Place> {
        None
    }
}

impl From<AllocError> for SideFault {
    ghost from_gives = { λ _ converted. converted ≡ OutOfMemory };

    fn from(_: AllocError) -> SideFault {
        SideFault::OutOfMemory
    }
}

impl From<TableFault> for SideFault {
    ghost from_gives = { λ fault converted. converted ≡ Table fault };

    fn from(fault: TableFault) -> SideFault {
        SideFault::Table(fault)
    }
}
