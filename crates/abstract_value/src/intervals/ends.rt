//! Ranges from their ends.
ghost use Rattle.std.specs.Prelude.{◌≡◌, ◌+◌, ◌<◌, ◌^◌};
ghost use Rattle.instruction_set.specs.Operations.{bits_of};
ghost use Rattle.abstract_value.specs.Ranges as ranges;

use super::Interval;
use instruction_set::Width;

/// Returns the words from `lo` to `hi`, or `hi` alone if `lo` is greater.
pub fn between(lo: u64, hi: u64) -> Interval
    ensures { result ≡ ranges.make lo hi }
{
    Interval { lo: lo.min(hi), hi }
}

/// Returns the range of one word.
pub fn only(v: u64) -> Interval
    ensures { result ≡ ranges.only v }
{
    Interval { lo: v, hi: v }
}

/// Returns the words from `lo` to `hi`, or `None` if `lo` is greater.
pub fn nonempty(lo: u64, hi: u64) -> Option<Interval>
    ensures { result ≡ ranges.nonempty lo hi }
{
    if lo <= hi {
        Some(between(lo, hi))
    } else {
        None
    }
}

/// Returns the greatest word of a width.
pub fn greatest(width: Width) -> u64
    ensures { result + 1 ≡ 2 ^ bits_of width }
{
    match width {
        Width::W32 => 0xffff_ffff,
        Width::W64 => u64::MAX,
    }
}

/// Returns all words of a width.
pub fn full(width: Width) -> Interval
    ensures { result ≡ ranges.full_at (bits_of width) }
{
    between(0, greatest(width))
}

/// Reduces an operand to the words that an operation of the width reads.
pub fn cut(width: Width, a: &Interval) -> Interval
    ensures exact { result ≡ ranges.cut width a.now }
    ensures fits { result.hi < 2 ^ bits_of width }
{
    match width {
        Width::W64 => *a,
        Width::W32 => {
            if a.hi <= 0xffff_ffff {
                *a
            } else if a.lo == a.hi {
                only(a.lo & 0xffff_ffff)
            } else {
                full(Width::W32)
            }
        }
    }
}
