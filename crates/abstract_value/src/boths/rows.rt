//! The rows of the signed range.
ghost use Rattle.std.specs.Prelude.{◌≡◌, ◌≤◌, ◌<◌};
ghost use Rattle.instruction_set.specs.Operations.{IsMovSxBits};
ghost use Rattle.abstract_value.specs.Boths as boths;

use super::Both;
use super::halves::SIGN;
use crate::intervals::bitwise::amount;
use crate::intervals::ends::between;
use crate::intervals::refine::of_words;
use crate::intervals::unary::bits_of_size;
use crate::{Domain, Interval};
use instruction_set::{AluOp, Size, Test, Width};

// Returns the sums, or all words if one leaves the signed range.
fn add(a: &Interval, b: &Interval) -> Interval
    ensures { result ≡ boths.signed_add a.now b.now }
{
    if a.lo >= SIGN.saturating_sub(b.lo) && a.hi <= u64::MAX - b.hi.saturating_sub(SIGN) {
        between(
            a.lo.wrapping_add(b.lo).wrapping_sub(SIGN),
            a.hi.wrapping_add(b.hi).wrapping_sub(SIGN),
        )
    } else {
        Interval::full()
    }
}

// Returns the differences, or all words if one leaves the signed range.
fn sub(a: &Interval, b: &Interval) -> Interval
    ensures { result ≡ boths.signed_sub a.now b.now }
{
    if b.hi <= a.lo.saturating_add(SIGN) && a.hi <= b.lo.saturating_add(SIGN - 1) {
        between(
            a.lo.wrapping_sub(b.hi).wrapping_add(SIGN),
            a.hi.wrapping_sub(b.lo).wrapping_add(SIGN),
        )
    } else {
        Interval::full()
    }
}

// Shifts right by a single amount, filling with the sign.
fn shift(a: &Interval, by: &Interval) -> Interval
    ensures { result ≡ boths.signed_shift a.now by.now }
{
    if by.lo == by.hi {
        let n = amount(Width::W64, by.lo);
        let above = SIGN - (1 << (63 - n));
        between((a.lo >> n) + above, (a.hi >> n) + above)
    } else {
        Interval::full()
    }
}

/// Returns the signed range of an operation on two operands.
pub fn alu(width: Width, op: AluOp, a: &Both, b: &Both) -> Interval
    ensures { result ≡ boths.signed_alu width op a.now b.now }
{
    match (width, op) {
        (Width::W64, AluOp::Mov) => b.s,
        (Width::W64, AluOp::Add) => add(&a.s, &b.s),
        (Width::W64, AluOp::Sub) => sub(&a.s, &b.s),
        (Width::W64, AluOp::Arsh) => shift(&a.s, &b.u),
        _ => Interval::full(),
    }
}

// Returns the signed numbers of `bits` bits.
fn signed_bits(bits: u32) -> Interval
    requires some { 0 < bits }
    requires word { bits ≤ 64 }
    ensures { result ≡ boths.signed_bits bits }
{
    let half = 1u64 << (bits - 1);
    between(SIGN - half, SIGN + (half - 1))
}

/// Returns the range if it lies within the signed numbers of `bits` bits, else all of these.
pub fn movsx(width: Width, bits: u32, a: &Both) -> Interval
    requires { IsMovSxBits width bits }
    ensures { result ≡ boths.signed_mov_sx width bits a.now }
{
    match width {
        Width::W32 => Interval::full(),
        Width::W64 => {
            let numbers = signed_bits(bits);
            if a.s.below(&numbers) { a.s } else { numbers }
        }
    }
}

/// Returns the signed numbers of the size if the load extends the sign.
pub fn loaded(size: Size, signed: bool) -> Interval
    ensures { result ≡ boths.signed_load size signed }
{
    if signed {
        signed_bits(bits_of_size(size))
    } else {
        Interval::full()
    }
}

/// Refines both ranges to the numbers that take the edge, or returns `None` if one of them is empty.
pub fn refine(
    width: Width,
    test: Test,
    taken: bool,
    a: &Interval,
    b: &Interval,
) -> Option<(Interval, Interval)>
    ensures { result ≡ boths.signed_refine width test taken a.now b.now }
{
    match (width, test, taken) {
        (Width::W64, Test::Jeq, true) | (Width::W64, Test::Jne, false) => {
            of_words(test, taken, a, b)
        }
        (Width::W64, Test::Jsgt, _) => of_words(Test::Jgt, taken, a, b),
        (Width::W64, Test::Jsge, _) => of_words(Test::Jge, taken, a, b),
        (Width::W64, Test::Jslt, _) => of_words(Test::Jlt, taken, a, b),
        (Width::W64, Test::Jsle, _) => of_words(Test::Jle, taken, a, b),
        _ => Some((*a, *b)),
    }
}
