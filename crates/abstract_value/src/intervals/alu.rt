//! Operations on two ranges.
ghost use Rattle.std.specs.Prelude.{◌≡◌, ◌<◌, ◌^◌};
ghost use Rattle.instruction_set.specs.Operations.{bits_of};
ghost use Rattle.abstract_value.specs.Ranges.{alu_row, alu_of_cut};

use super::Interval;
use super::arithmetic::{add, div, modulo, mul, sub};
use super::bitwise::{and, arsh, lsh, or, rsh, xor};
use super::ends::{full, only};
use instruction_set as meaning;
use instruction_set::{AluOp, Width};

/// Returns the results of an operation on operands of the width: a single word on single words.
pub fn of_cut(width: Width, op: AluOp, a: &Interval, b: &Interval) -> Interval
    requires left { a.now.hi < 2 ^ bits_of width }
    requires right { b.now.hi < 2 ^ bits_of width }
    ensures { result ≡ alu_of_cut width op a.now b.now }
{
    if a.lo == a.hi && b.lo == b.hi {
        only(meaning::alu(width, op, a.lo, b.lo))
    } else {
        of_several(width, op, a, b)
    }
}

// Returns the results of an operation on operands that aren't both single words.
fn of_several(width: Width, op: AluOp, a: &Interval, b: &Interval) -> Interval
    requires left { a.now.hi < 2 ^ bits_of width }
    requires right { b.now.hi < 2 ^ bits_of width }
    ensures { result ≡ alu_row width op a.now b.now }
{
    match op {
        AluOp::Add => add(width, a, b),
        AluOp::Sub => sub(width, a, b),
        AluOp::Mul => mul(width, a, b),
        AluOp::Div => div(a, b),
        AluOp::Or => or(a, b),
        AluOp::And => and(a, b),
        AluOp::Lsh => lsh(width, a, b),
        AluOp::Rsh => rsh(width, a, b),
        AluOp::Mod => modulo(a, b),
        AluOp::Xor => xor(a, b),
        AluOp::Mov => *b,
        AluOp::Arsh => arsh(width, a, b),
        AluOp::SDiv | AluOp::SMod => full(width),
    }
}
