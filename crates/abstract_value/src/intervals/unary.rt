//! Operations on one range, and loads.
ghost use Rattle.std.specs.Prelude.{◌≡◌, ◌*◌, ◌<◌, ◌≤◌, ◌^◌};
ghost use Rattle.instruction_set.specs.Machine.{bytes_of};
ghost use Rattle.instruction_set.specs.Operations.{bits_of, IsMovSxBits, IsEndBits};
ghost use Rattle.abstract_value.specs.Ranges.{full_at, neg_of_cut, mov_sx_of_cut, interval_end, interval_load};

use super::Interval;
use super::ends::{between, full, only};
use instruction_set as meaning;
use instruction_set::{EndKind, Size, Width};

/// Negates: a single word on a single word, else all words.
pub fn neg(width: Width, a: &Interval) -> Interval
    ensures { result ≡ neg_of_cut width a.now }
{
    if a.lo == a.hi {
        only(meaning::neg(width, a.lo))
    } else {
        full(width)
    }
}

/// Extends the sign of the low bits: unchanged if the sign bit can't be set, else all words.
pub fn movsx(width: Width, bits: u32, a: &Interval) -> Interval
    requires { IsMovSxBits width bits }
    ensures { result ≡ mov_sx_of_cut width bits a.now }
{
    if a.lo == a.hi {
        only(meaning::movsx(width, bits, a.lo))
    } else if a.hi >> (bits - 1) == 0 {
        *a
    } else {
        full(width)
    }
}

// Returns all words of `bits` bits.
fn full_of_bits(bits: u32) -> Interval
    requires some { 0 < bits }
    requires word { bits ≤ 64 }
    ensures { result ≡ full_at bits }
{
    between(0, u64::MAX >> (64 - bits))
}

/// Swaps bytes: unchanged if the order stays and the words fit, else all words of `bits` bits.
pub fn end(kind: EndKind, bits: u32, a: &Interval) -> Interval
    requires { IsEndBits bits }
    ensures { result ≡ interval_end kind bits a.now }
{
    if a.lo == a.hi {
        return only(meaning::end(kind, bits, a.lo));
    }
    match kind {
        EndKind::Little if a.hi <= u64::MAX >> (64 - bits) => *a,
        EndKind::Little | EndKind::Big | EndKind::Swap => full_of_bits(bits),
    }
}

/// Returns the number of bits that a load or store of the size moves.
pub fn bits_of_size(size: Size) -> u32
    ensures { result ≡ 8 * bytes_of size }
{
    match size {
        Size::Byte => 8,
        Size::Half => 16,
        Size::Word => 32,
        Size::Double => 64,
    }
}

/// Returns all words of the size, or all words if the sign is extended.
pub fn loaded(size: Size, signed: bool) -> Interval
    ensures { result ≡ interval_load size signed }
{
    if signed {
        full(Width::W64)
    } else {
        full_of_bits(bits_of_size(size))
    }
}
