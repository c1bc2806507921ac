//! The refusals of a meeting.
ghost use Rattle.std.specs.Prelude.{◌≡◌, None};
ghost use Rattle.registry_lock.specs.Faults.{meet_fault_number};

use refusals::{Numbered, Place, words_of};
use thiserror::Error;

/// The reason why two finished sides don't meet.
#[derive(Clone, Copy, Debug, PartialEq, Eq, Error)]
#[error("{}", words_of(self.number()))]
pub enum MeetFault {
    /// 36: the seeds of the two and of the board differ.
    SeedDiffers,
    /// 38: at this clash, counted from 0, one of the two holds another ruling than the board shows. At each earlier
    /// clash both hold the board's.
    StrangeRuling(u32),
    /// 45: the exchange numbers of the two and of the board differ.
    OtherNumber,
    /// 49: they merged other tables, with other uptimes, or without other names.
    OtherPair,
}

impl Numbered for MeetFault {
    ghost number_of = { meet_fault_number };

    ghost place_of = { λ _. None };

    fn number(&self) -> u32 {
        match self {
            MeetFault::SeedDiffers => 36,
            MeetFault::StrangeRuling(_) => 38,
            MeetFault::OtherNumber => 45,
            MeetFault::OtherPair => 49,
        }
    }

    fn place(&self) -> Option<Place> {
        None
    }
}
