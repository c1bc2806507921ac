//! The faults of texts.
ghost use Rattle.assembler_text.specs.Faults.{text_fault_number, text_fault_place, line_fault_number, line_fault_place};

use refusals::{Numbered, OUT_OF_MEMORY, Place, words_of};
use thiserror::Error;

/// The leftmost fault of a line.
#[derive(Clone, Copy, Debug, PartialEq, Eq, Error)]
#[error("{}", words_of(self.number()))]
pub enum Fault {
    /// An unknown mnemonic.
    Mnemonic,
    /// A missing or invalid operand.
    Operand,
    /// A well-formed number out of range.
    NumberRange,
    /// Extra text after the last operand.
    LineEnd,
}

/// The reason why a text was not assembled, with the line, counted from 1.
#[derive(Clone, Copy, Debug, PartialEq, Eq, Error)]
pub enum LineFault {
    /// A faulty line.
    #[error("{}: {fault}", Place::Line(*line))]
    Line { fault: Fault, line: usize },
    /// More than 1,024 slots, from this line on.
    #[error("{}: {}", Place::Line(*line), words_of(self.number()))]
    TooLong { line: usize },
    /// No instruction in any line, reported at line 1.
    #[error("{}: {}", Place::Line(1), words_of(self.number()))]
    Empty,
    /// Memory ran out.
    #[error("{}", words_of(OUT_OF_MEMORY))]
    OutOfMemory,
}

impl Numbered for Fault {
    ghost number_of = { text_fault_number };

    ghost place_of = { text_fault_place };

    fn number(&self) -> u32 {
        match self {
            Fault::Mnemonic => 60,
            Fault::Operand => 61,
            Fault::NumberRange => 62,
            Fault::LineEnd => 63,
        }
    }

    fn place(&self) -> Option<Place> {
        None
    }
}

impl Numbered for LineFault {
    ghost number_of = { line_fault_number };

    ghost place_of = { line_fault_place };

    fn number(&self) -> u32 {
        match self {
            LineFault::Line { fault, .. } => fault.number(),
            LineFault::TooLong { .. } => 2,
            LineFault::Empty => 1,
            LineFault::OutOfMemory => OUT_OF_MEMORY,
        }
    }

    fn place(&self) -> Option<Place> {
        match self {
            LineFault::Line { line, .. } | LineFault::TooLong { line } => Some(Place::Line(*line)),
            LineFault::Empty => Some(Place::Line(1)),
            LineFault::OutOfMemory => None,
        }
    }
}
