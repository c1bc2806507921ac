//! Refusals and their numbers.
ghost use Rattle.std.specs.Prelude.{◌≡◌, ℕ, Option, Some, IsTrue, ◌↔◌, codes};
ghost use Rattle.refusals.specs.declared.place.Place.{Place};
ghost use Rattle.refusals.specs.Answers.{out_of_memory};
ghost use Rattle.refusals.specs.Texts.{refusal_text};

use crate::place::{PLACE_TEXT_LEN, Place};
use arrayvec::ArrayString;
use itoa::Buffer;
use std::fmt;

/// The number of the refusal "out of memory".
pub const OUT_OF_MEMORY: u32 = 90;

/// The most bytes of a refusal's text: two words, a number of ten digits and a place.
pub const REFUSAL_TEXT_LEN: usize = PLACE_TEXT_LEN + 22;

/// A numbered refusal, and the place that it names, if any.
#[derive(Clone, Copy, Debug, PartialEq, Eq)]
pub struct NumberedRefusal {
    /// The number, as docs/REFUSALS.md lists them.
    pub number: u32,
    /// The place.
    pub place: Option<Place>,
}

impl NumberedRefusal {
    /// Returns whether memory ran out.
    pub fn is_out_of_memory(&self) -> bool
        ensures { IsTrue result ↔ (self.now.number ≡ out_of_memory) }
    {
        self.number == OUT_OF_MEMORY
    }

    /// Returns its text, as `refused 21 at slot 3`.
    pub fn text(&self) -> ArrayString<REFUSAL_TEXT_LEN>
        ensures { result.bytes ≡ refusal_text self.now }
    {
        let mut digits = Buffer::new();
        let mut text = ArrayString::new();
        text.push_str("refused ");
        text.push_str(digits.format(self.number));
        if let Some(place) = self.place {
            text.push_str(" at ");
            text.push_str(place.text().as_str());
        }
        text
    }
}

impl fmt::Display for NumberedRefusal {
    ghost output = { λ refusal. Some (refusal_text refusal) };

    fn fmt<W: fmt::Write>(&self, f: &mut fmt::Formatter<W>) -> fmt::Result {
        f.write_str(self.text().as_str())
    }
}

/// Returns the line that a command prints when memory runs out, which takes no memory.
pub fn out_of_memory_line() -> &'static [u8]
    ensures { result.now ≡ codes "refused 90\n" }
{
    b"refused 90\n"
}

/// A fault with a number, and with a place where it has one.
pub trait Numbered {
    ghost number_of: { Self → ℕ };

    ghost place_of: { Self → Option Place };

    /// Returns its number among the refusals.
    fn number(&self) -> u32
        ensures { result ≡ number_of self.now };

    /// Returns the place that it names, if any.
    fn place(&self) -> Option<Place>
        ensures { result ≡ place_of self.now };
}

/// Returns the number and the place of a fault.
pub fn refusal_of<F: Numbered>(fault: &F) -> NumberedRefusal
    ensures number { result.number ≡ F.number_of fault.now }
    ensures place { result.place ≡ F.place_of fault.now }
{
    NumberedRefusal {
        number: fault.number(),
        place: fault.place(),
    }
}
