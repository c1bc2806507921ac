//! Bitwise operations and shifts of ranges.
ghost use Rattle.std.specs.Prelude.{◌≡◌, ◌<◌, ◌^◌, ◌-◌, max};
ghost use Rattle.instruction_set.specs.Operations.{bits_of, shift_amount};
ghost use Rattle.abstract_value.specs.Ranges.{and_row, digits_row, bit_length, lsh_row, rsh_row, arsh_row};

use super::Interval;
use super::ends::{between, full, greatest};
use instruction_set::Width;

/// Returns the range from 0 to the lesser of the upper bounds.
pub fn and(a: &Interval, b: &Interval) -> Interval
    ensures { result ≡ and_row a.now b.now }
{
    between(0, a.hi.min(b.hi))
}

// Returns the greatest number with as many binary digits as `n`.
fn all_ones_as_long(n: u64) -> u64
    ensures { result ≡ 2 ^ bit_length n - 1 }
{
    u64::MAX.checked_shr(n.leading_zeros()).unwrap_or(0)
}

/// Returns the range from the greater of the lower bounds to the greatest word of as many binary digits.
pub fn or(a: &Interval, b: &Interval) -> Interval
    ensures { result ≡ digits_row (max a.now.lo b.now.lo) a.now b.now }
{
    between(a.lo.max(b.lo), all_ones_as_long(a.hi.max(b.hi)))
}

/// Returns the range from 0 to the greatest word of as many binary digits.
pub fn xor(a: &Interval, b: &Interval) -> Interval
    ensures { result ≡ digits_row 0 a.now b.now }
{
    between(0, all_ones_as_long(a.hi.max(b.hi)))
}

/// Returns the distance by which an operation of the width shifts for this amount.
pub fn amount(width: Width, by: u64) -> u64
    ensures exact { result ≡ shift_amount width by }
    ensures fits { result < 64 }
{
    match width {
        Width::W32 => by % 32,
        Width::W64 => by % 64,
    }
}

/// Shifts left by a single amount: exact if no bit is lost, else all words.
pub fn lsh(width: Width, a: &Interval, b: &Interval) -> Interval
    ensures { result ≡ lsh_row width a.now b.now }
{
    if b.lo != b.hi {
        return full(width);
    }
    let by = amount(width, b.lo);
    if a.hi <= greatest(width) >> by {
        between(a.lo << by, a.hi << by)
    } else {
        full(width)
    }
}

/// Shifts right: exact for a single amount, from 0 for several.
pub fn rsh(width: Width, a: &Interval, b: &Interval) -> Interval
    ensures { result ≡ rsh_row width a.now b.now }
{
    if b.lo == b.hi {
        let by = amount(width, b.lo);
        between(a.lo >> by, a.hi >> by)
    } else {
        between(0, a.hi)
    }
}

/// Shifts right, filling with the sign: as with zeros if no sign bit can be set, else all words.
pub fn arsh(width: Width, a: &Interval, b: &Interval) -> Interval
    ensures { result ≡ arsh_row width a.now b.now }
{
    if a.hi <= greatest(width) >> 1 {
        rsh(width, a, b)
    } else {
        full(width)
    }
}
