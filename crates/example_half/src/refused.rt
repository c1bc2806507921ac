//! Refusals of lines.
use heal::{Numbered, NumberedRefusal, OUT_OF_MEMORY, refusal_of};
use std::alloc::AllocError;

/// The refusal of a line. Each fault of heal has a number, so `?` converts all of them.
#[derive(Clone, Copy, Debug)]
pub(crate) struct Refused(pub(crate) NumberedRefusal);

impl Refused {
    /// An unknown word, or the wrong number of words.
    pub(crate) fn words() -> Refused {
        Refused::numbered(51)
    }

    /// An invalid number.
    pub(crate) fn number() -> Refused {
        Refused::numbered(52)
    }

    /// Invalid hex digits.
    pub(crate) fn digits() -> Refused {
        Refused::numbered(50)
    }

    /// Out of memory.
    pub(crate) fn memory(_: AllocError) -> Refused {
        Refused::numbered(OUT_OF_MEMORY)
    }

    fn numbered(number: u32) -> Refused {
        Refused(NumberedRefusal {
            number,
            place: None,
        })
    }
}

impl<F: Numbered + Drop> From<F> for Refused {
    fn from(fault: F) -> Refused {
        Refused(refusal_of(&fault))
    }
}
