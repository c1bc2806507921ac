//! The place of a fault.
ghost use Rattle.std.specs.Prelude.{◌≡◌, ◌≤◌, ◌++◌, length, Some};
ghost use Rattle.std.specs.Fmt.{decimal};
ghost use Rattle.refusals.specs.Texts.{place_text};

use arrayvec::ArrayString;
use itoa::Buffer;
use std::fmt;

/// The place of a fault.
#[derive(Clone, Copy, Debug, PartialEq, Eq)]
pub enum Place {
    /// The instruction with this first slot, counted from 0.
    Slot(u32),
    /// The line with this number, counted from 1.
    Line(usize),
    /// The byte at this offset, counted from 0.
    Byte(usize),
    /// The item at this position of a list, counted from 0.
    Item(usize),
}

/// The most bytes of a place's text: a word of four letters, a space and a number of twenty digits.
pub const PLACE_TEXT_LEN: usize = 25;

impl Place {
    /// Returns its text, as `slot 3`.
    pub fn text(self) -> ArrayString<PLACE_TEXT_LEN>
        ensures { result.bytes ≡ place_text self }
    {
        match self {
            Place::Slot(slot) => counted("slot ", u64::from(slot)),
            Place::Line(line) => counted("line ", line as u64),
            Place::Byte(byte) => counted("byte ", byte as u64),
            Place::Item(item) => counted("item ", item as u64),
        }
    }
}

// Returns a word and a number.
fn counted(word: &str, number: u64) -> ArrayString<PLACE_TEXT_LEN>
    requires { length word.now ≤ 5 }
    ensures { result.bytes ≡ word.now ++ decimal number }
{
    let mut digits = Buffer::new();
    let mut text = ArrayString::new();
    text.push_str(word);
    text.push_str(digits.format(number));
    text
}

impl fmt::Display for Place {
    ghost output = { λ place. Some (place_text place) };

    fn fmt<W: fmt::Write>(&self, f: &mut fmt::Formatter<W>) -> fmt::Result {
        f.write_str(self.text().as_str())
    }
}
