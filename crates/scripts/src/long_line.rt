//! Lines that are always rejected.
ghost use Rattle.std.specs.Prelude.{None};

use refusals::{Numbered, Place, words_of};
use thiserror::Error;

// A line of more than 20,000 bytes.
#[derive(Clone, Copy, Debug, PartialEq, Eq, Error)]
#[error("{}", words_of(self.number()))]
pub(crate) struct LineTooLong;

impl Numbered for LineTooLong {
    ghost number_of = { λ _. 54 };

    ghost place_of = { λ _. None };

    fn number(&self) -> u32 {
        54
    }

    fn place(&self) -> Option<Place> {
        None
    }
}
