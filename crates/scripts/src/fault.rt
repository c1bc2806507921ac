//! The faults of a command.
ghost use Rattle.std.specs.Prelude.{None};
ghost use Rattle.scripts.specs.model.Faults.{word_fault_number};

use refusals::{Numbered, Place, words_of};
use thiserror::Error;

// Why the words of a command are rejected, in addition to `LineFault`.
#[derive(Clone, Copy, Debug, PartialEq, Eq, Error)]
#[error("{}", words_of(self.number()))]
pub(crate) enum WordFault {
    // 41: neither a built-in resolver nor a label in use.
    NoResolver,
    // 53: the label is in use, is the word of a built-in resolver, or isn't 1 to 32 bytes from 0x21 to 0x7E.
    Label,
    // 90: out of memory.
    OutOfMemory,
}

impl Numbered for WordFault {
    ghost number_of = { word_fault_number };

    ghost place_of = { λ _. None };

    fn number(&self) -> u32 {
        match self {
            WordFault::NoResolver => 41,
            WordFault::Label => 53,
            WordFault::OutOfMemory => 90,
        }
    }

    fn place(&self) -> Option<Place> {
        None
    }
}
