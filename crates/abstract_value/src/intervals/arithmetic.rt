//! Sums, differences, products, quotients and remainders of ranges.
ghost use Rattle.std.specs.Prelude.{◌≡◌, ◌<◌, ◌^◌};
ghost use Rattle.instruction_set.specs.Operations.{bits_of};
ghost use Rattle.abstract_value.specs.Ranges.{add_row, sub_row, mul_row, div_row, mod_row};

use super::Interval;
use super::ends::{between, full, greatest};
use instruction_set::Width;

/// Returns the sums: exact if no pair wraps or every pair does, else all words.
pub fn add(width: Width, a: &Interval, b: &Interval) -> Interval
    requires left { a.now.hi < 2 ^ bits_of width }
    requires right { b.now.hi < 2 ^ bits_of width }
    ensures { result ≡ add_row (bits_of width) a.now b.now }
{
    let most = greatest(width);
    if a.hi <= most - b.hi {
        between(a.lo + b.lo, a.hi + b.hi)
    } else if a.lo > most - b.lo {
        between(a.lo - (most - b.lo) - 1, a.hi - (most - b.hi) - 1)
    } else {
        full(width)
    }
}

/// Returns the differences: exact if no pair wraps or every pair does, else all words.
pub fn sub(width: Width, a: &Interval, b: &Interval) -> Interval
    requires left { a.now.hi < 2 ^ bits_of width }
    requires right { b.now.hi < 2 ^ bits_of width }
    ensures { result ≡ sub_row (bits_of width) a.now b.now }
{
    if b.hi <= a.lo {
        between(a.lo - b.hi, a.hi - b.lo)
    } else if a.hi < b.lo {
        let most = greatest(width);
        between(most - (b.hi - a.lo) + 1, most - (b.lo - a.hi) + 1)
    } else {
        full(width)
    }
}

/// Returns the products: exact if none wraps, else all words.
pub fn mul(width: Width, a: &Interval, b: &Interval) -> Interval
    ensures { result ≡ mul_row (bits_of width) a.now b.now }
{
    match a.hi.checked_mul(b.hi) {
        Some(hi) if hi <= greatest(width) => between(a.lo * b.lo, hi),
        _ => full(width),
    }
}

/// Returns the quotients; a quotient by zero is 0.
pub fn div(a: &Interval, b: &Interval) -> Interval
    ensures { result ≡ div_row a.now b.now }
{
    if b.lo > 0 {
        between(a.lo / b.hi, a.hi / b.lo)
    } else {
        between(0, a.hi)
    }
}

/// Returns the remainders; a remainder by zero is the number itself.
pub fn modulo(a: &Interval, b: &Interval) -> Interval
    ensures { result ≡ mod_row a.now b.now }
{
    if b.lo == 0 {
        between(0, a.hi)
    } else if a.hi < b.lo {
        *a
    } else {
        between(0, a.hi.min(b.hi - 1))
    }
}
