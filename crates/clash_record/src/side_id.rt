//! The two sides of an exchange.
ghost use Rattle.std.specs.Prelude.{◌≡◌, Some};
ghost use Rattle.clash_record.specs.Texts.{side_text};

use std::fmt;

/// One of the two sides of an exchange.
#[derive(Clone, Copy, Debug, PartialEq, Eq)]
pub enum SideId {
    /// The side whose table comes first in a merge.
    A,
    /// The other side.
    B,
}

impl SideId {
    /// Returns its word: `a` or `b`.
    pub fn as_str(self) -> &'static str
        ensures { result.now ≡ side_text self }
    {
        match self {
            SideId::A => "a",
            SideId::B => "b",
        }
    }
}

impl fmt::Display for SideId {
    ghost output = { λ side. Some (side_text side) };

    fn fmt<W: fmt::Write>(&self, f: &mut fmt::Formatter<W>) -> fmt::Result {
        f.write_str(self.as_str())
    }
}
