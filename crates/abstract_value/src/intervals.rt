//! Ranges of words.
ghost use Rattle.std.specs.Prelude.{◌≤◌, ◌<◌, ◌^◌};

mod alu;
mod arithmetic;
pub(crate) mod bitwise;
pub(crate) mod ends;
pub(crate) mod refine;
pub(crate) mod unary;

use crate::Domain;
use instruction_set::{AluOp, EndKind, Size, Test, Width};

/// The words from `lo` to `hi` inclusive.
#[derive(Clone, Copy, Debug, PartialEq, Eq)]
pub struct Interval {
    pub(crate) lo: u64,
    pub(crate) hi: u64,
    ghost ordered: { lo ≤ hi },
    ghost fits: { hi < 2 ^ 64 },
}

/// Each result is a range; a single word if all operands are single words.
impl Domain for Interval {
    ghost use Rattle.abstract_value.specs.Ranges.{interval_ops};
    ghost use Rattle.abstract_value.specs.laws.IntervalDomain.{interval_fits, interval_laws};

    ghost ops = { interval_ops };

    ghost laws = { interval_laws };

    ghost fits = { interval_fits };

    #[inline]
    fn full() -> Interval {
        ends::between(0, u64::MAX)
    }

    #[inline]
    fn single(v: u64) -> Interval {
        ends::only(v)
    }

    #[inline]
    fn bounds(&self) -> (u64, u64) {
        (self.lo, self.hi)
    }

    #[inline]
    fn below(&self, other: &Interval) -> bool {
        other.lo <= self.lo && self.hi <= other.hi
    }

    #[inline]
    fn join(&self, other: &Interval) -> Interval {
        ends::between(self.lo.min(other.lo), self.hi.max(other.hi))
    }

    #[inline]
    fn alu(width: Width, op: AluOp, a: &Interval, b: &Interval) -> Interval {
        alu::of_cut(width, op, &ends::cut(width, a), &ends::cut(width, b))
    }

    #[inline]
    fn neg(width: Width, a: &Interval) -> Interval {
        unary::neg(width, &ends::cut(width, a))
    }

    #[inline]
    fn movsx(width: Width, bits: u32, a: &Interval) -> Interval {
        unary::movsx(width, bits, &ends::cut(width, a))
    }

    #[inline]
    fn end(kind: EndKind, bits: u32, a: &Interval) -> Interval {
        unary::end(kind, bits, a)
    }

    #[inline]
    fn loaded(size: Size, signed: bool) -> Interval {
        unary::loaded(size, signed)
    }

    #[inline]
    fn refine(
        width: Width,
        test: Test,
        taken: bool,
        a: &Interval,
        b: &Interval,
    ) -> Option<(Interval, Interval)> {
        refine::refine(width, test, taken, a, b)
    }
}
