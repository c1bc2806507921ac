//! The rules that code must fulfil.
ghost use Rattle.std.specs.Prelude.{◌≡◌};
ghost use Rattle.verifier.specs.Structure.{rule_number};

use refusals::words_of;
use thiserror::Error;

/// The rules of the verifier.
#[derive(Clone, Copy, Debug, PartialEq, Eq, Error)]
#[error("{}", words_of(self.number()))]
pub enum Rule {
    /// A backward jump.
    Backward,
    /// A jump to the end or past it.
    Outside,
    /// A jump into the second slot of a wide load.
    IntoWide,
    /// A last instruction that neither exits nor jumps.
    FallsOff,
    /// An unreachable instruction.
    NoEdge,
    /// A read of an unreadable register.
    Unreadable,
    /// A write to R10.
    WritesR10,
    /// An address in an operation that addresses don't have.
    PointerOperation,
    /// An address moved too far, or by an unknown amount.
    PointerRange,
    /// An address in a test.
    PointerCompared,
    /// A store of an address.
    PointerStored,
    /// An access that may leave the record.
    OutsideRecord,
    /// A store into the record.
    WritesRecord,
    /// An access that may leave the stack.
    OutsideStack,
    /// A load of stack bytes that may be unwritten.
    UnwrittenStack,
    /// A number used as an address.
    ScalarAddress,
    /// An address as the answer.
    PointerResult,
}

impl Rule {
    /// Returns its number among the refusals.
    pub fn number(self) -> u32
        ensures { result ≡ rule_number self }
    {
        match self {
            Rule::Backward => 10,
            Rule::Outside => 11,
            Rule::IntoWide => 12,
            Rule::FallsOff => 13,
            Rule::NoEdge => 14,
            Rule::Unreadable => 15,
            Rule::WritesR10 => 16,
            Rule::PointerOperation => 17,
            Rule::PointerRange => 18,
            Rule::PointerCompared => 19,
            Rule::PointerStored => 20,
            Rule::OutsideRecord => 21,
            Rule::WritesRecord => 22,
            Rule::OutsideStack => 23,
            Rule::UnwrittenStack => 24,
            Rule::ScalarAddress => 25,
            Rule::PointerResult => 26,
        }
    }
}
