//! Names: storage, reading and comparison.
ghost use Rattle.std.specs.Prelude.{◌≡◌, ◌≤◌, length, drop, nat_eq, IsTrue, Some, None, refl};
ghost use Rattle.std.specs.Ordering.{nat_cmp};
ghost use Rattle.std.specs.Cmp.Lexicographic.{pointwise, slice_cmp, nat_list_eq_equiv, nat_list_cmp_total, texts_ties, texts_po};
ghost use Rattle.std.specs.Cmp.{partial_equiv_from_equiv};
ghost use Rattle.byteorder.specs.Endian.{big_from};
ghost use Rattle.clash_record.specs.Name.{bad_name_number, is_name, name_limit, padded};
ghost use Rattle.clash_record.specs.Orders.{name_cmp};

pub(crate) mod naming;

use byteorder::{BigEndian, ByteOrder};
use refusals::{Numbered, Place, words_of};
use std::cmp::Ordering;
use std::fmt;
use std::marker::Model;
use thiserror::Error;

/// The maximum length of a name, in bytes.
pub const NAME_LEN: usize = 32;

/// A name: 1 to 32 bytes, each from 0x21 to 0x7E. Contracts see it as the list of its bytes.
#[derive(Clone, Copy, Debug)]
pub struct Name {
    // The bytes of the name, and zeros after them.
    bytes: [u8; NAME_LEN],
    len: u8,
}

impl Model for Name {
    ghost use Rattle.std.specs.Prelude.{ℕ, List, take, length, ◌++◌, ◌-◌, replicate};

    ghost Value = { List ℕ };

    ghost use Rattle.clash_record.specs.model.Stored.{IsStored, stored_back};
    ghost use Rattle.clash_record.specs.Name.{padded};

    ghost view = { λ n. take n.len n.bytes };

    ghost invariant = { IsStored };

    ghost inverse = { λ name. record { bytes = padded name; len = length name } };

    ghost inverse_ok = { stored_back };
}

impl fmt::Display for Name {
    ghost output = { λ name. Some name };

    fn fmt<W: fmt::Write>(&self, f: &mut fmt::Formatter<W>) -> fmt::Result {
        f.write_str(self.as_str())
    }
}

/// Bytes that aren't a valid name: none, more than 32, or one outside 0x21 to 0x7E.
#[derive(Clone, Copy, Debug, PartialEq, Eq, Error)]
#[error("{}", words_of(self.number()))]
pub struct BadName;

impl Numbered for BadName {
    ghost number_of = { λ _. bad_name_number };

    ghost place_of = { λ _. None };

    fn number(&self) -> u32 {
        44
    }

    fn place(&self) -> Option<Place> {
        None
    }
}

impl Name {
    /// Returns the bytes of the name.
    pub fn bytes(&self) -> &[u8]
        ensures value { result.now ≡ self.now }
        ensures named { IsTrue (is_name result.now) }
    {
        &self.bytes[..usize::from(self.len)]
    }

    /// Returns the name as text. Allocates nothing.
    pub fn as_str(&self) -> &str
        ensures value { result.now ≡ self.now }
        ensures short { length result.now ≤ name_limit }
    {
        str::from_utf8(self.bytes()).unwrap()
    }

    // Returns the bytes of the name, padded with zeros.
    pub(crate) fn padded(&self) -> &[u8; NAME_LEN]
        ensures value { result.now ≡ padded self.now }
        ensures length { length result.now ≡ name_limit }
        ensures named { IsTrue (is_name self.now) }
    {
        &self.bytes
    }
}

impl PartialEq for Name {
    ghost eq = { pointwise nat_eq };

    ghost laws = { partial_equiv_from_equiv nat_list_eq_equiv };

    fn eq(&self, other: &Name) -> bool {
        self.bytes() == other.bytes()
    }
}

impl Eq for Name {
    ghost laws = { nat_list_eq_equiv };
}

impl PartialOrd for Name {
    ghost partial_cmp = { λ a b. Some (name_cmp a b) };

    ghost laws = { texts_po };

    fn partial_cmp(&self, other: &Name) -> Option<Ordering> {
        Some(self.cmp(other))
    }
}

impl Ord for Name {
    ghost cmp = { name_cmp };

    ghost total = { nat_list_cmp_total };

    ghost matches_partial_cmp = { λ a b. refl };

    ghost matches_eq = { texts_ties };

    fn cmp(&self, other: &Name) -> Ordering {
        quarters(self.padded()).cmp(&quarters(other.padded()))
    }
}

// Returns the numbers that the four quarters of a padded name spell, the highest byte first. They are in the order of names.
fn quarters(padded: &[u8]) -> (u64, (u64, (u64, u64)))
    requires { length padded.now ≡ name_limit }
    ensures { result ≡ (
      big_from 0 8 padded.now,
      (
        big_from 0 8 (drop 8 padded.now),
        (big_from 0 8 (drop 8 (drop 8 padded.now)), big_from 0 8 (drop 8 (drop 8 (drop 8 padded.now)))),
      ),
    ) }
{
    let second = &padded[8..];
    let third = &second[8..];
    let fourth = &third[8..];
    (
        BigEndian::read_u64(padded),
        (
            BigEndian::read_u64(second),
            (BigEndian::read_u64(third), BigEndian::read_u64(fourth)),
        ),
    )
}
