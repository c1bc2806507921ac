//! The refusals of the verifier.
ghost use Rattle.std.specs.Prelude.{◌≡◌};
ghost use Rattle.verifier.specs.Refusals.{verify_fault_number, verify_fault_place};

use crate::rule::Rule;
use refusals::{Numbered, OUT_OF_MEMORY, Place, words_of};
use thiserror::Error;

/// A failing instruction, by its first slot, and the rule.
#[derive(Clone, Copy, Debug, PartialEq, Eq, Error)]
#[error("{}: {rule}", Place::Slot(*slot))]
pub struct Refusal {
    /// The first slot of the instruction.
    pub slot: u32,
    /// The failing rule.
    pub rule: Rule,
}

/// The reason why code was not accepted.
#[derive(Clone, Copy, Debug, PartialEq, Eq, Error)]
pub enum VerifyFault {
    /// The code fails a rule.
    #[error(transparent)]
    Refused(Refusal),
    /// Memory ran out.
    #[error("{}", words_of(OUT_OF_MEMORY))]
    OutOfMemory,
}

impl Numbered for VerifyFault {
    ghost number_of = { verify_fault_number };

    ghost place_of = { verify_fault_place };

    fn number(&self) -> u32 {
        match self {
            VerifyFault::Refused(refusal) => refusal.rule.number(),
            VerifyFault::OutOfMemory => OUT_OF_MEMORY,
        }
    }

    fn place(&self) -> Option<Place> {
        match self {
            VerifyFault::Refused(refusal) => Some(Place::Slot(refusal.slot)),
            VerifyFault::OutOfMemory => None,
        }
    }
}
