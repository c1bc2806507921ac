//! The refusals of questions.
ghost use Rattle.std.specs.Prelude.{◌≡◌};
ghost use Rattle.questions.specs.Refusals.{failure_by, input_fault_number, input_fault_place};

use refusals::{Numbered, NumberedRefusal, OUT_OF_MEMORY, Place, refusal_of, words_of};
use thiserror::Error;

/// The fault of a word or a file, before it is read as code or as a record.
#[derive(Clone, Copy, Debug, PartialEq, Eq, Error)]
#[error("{}", words_of(self.number()))]
pub enum InputFault {
    /// Invalid hex digits, or an odd number of them.
    HexText,
    /// A record of neither 160 nor 128 bytes.
    RecordLength,
    /// A file that isn't UTF-8.
    NotText,
    /// A file of more than 1,048,576 bytes.
    FileTooLong,
}

impl Numbered for InputFault {
    ghost number_of = { input_fault_number };

    ghost place_of = { input_fault_place };

    fn number(&self) -> u32 {
        match self {
            InputFault::HexText => 50,
            InputFault::RecordLength => 55,
            InputFault::NotText => 56,
            InputFault::FileTooLong => 57,
        }
    }

    fn place(&self) -> Option<Place> {
        None
    }
}

/// The reason why a question has no answer.
#[derive(Clone, Copy, Debug, PartialEq, Eq)]
pub enum Failure {
    /// The question is refused.
    Refused(NumberedRefusal),
    /// Memory ran out.
    OutOfMemory,
}

/// Converts a fault to a failure: number 90 is out of memory, any other a refusal.
pub fn failure_of<F: Numbered>(fault: &F) -> Failure
    ensures { result ≡ failure_by (F.number_of fault.now) (F.place_of fault.now) }
{
    let refusal = refusal_of(fault);
    if refusal.number == OUT_OF_MEMORY {
        Failure::OutOfMemory
    } else {
        Failure::Refused(refusal)
    }
}
