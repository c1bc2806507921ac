//! Ranges of words, in their own order and in that of signed numbers.
ghost use Rattle.abstract_value.specs.SignedWords.{IsNormal};

mod exact;
mod halves;
mod rows;

use crate::{Domain, Interval};
pub use exact::both_is_exact_theorem;
use instruction_set::{AluOp, EndKind, Size, Test, Width};

/// The words of `u` that are in `s` after their sign bit is flipped. Each end of `u` and of `s` is such a word.
#[derive(Clone, Copy, Debug, PartialEq, Eq)]
pub struct Both {
    u: Interval,
    s: Interval,
    ghost normal: { IsNormal u s },
}

/// Each operation computes `u` as on ranges of words and `s` by a separate row, and normalizes the pair.
impl Domain for Both {
    ghost use Rattle.abstract_value.specs.Boths.{both_ops};
    ghost use Rattle.abstract_value.specs.laws.BothDomain.{both_fits, both_laws};

    ghost ops = { both_ops };

    ghost laws = { both_laws };

    ghost fits = { both_fits };

    #[inline]
    fn full() -> Both {
        halves::lift(&Interval::full())
    }

    #[inline]
    fn single(v: u64) -> Both {
        halves::lift(&Interval::single(v))
    }

    #[inline]
    fn bounds(&self) -> (u64, u64) {
        self.u.bounds()
    }

    #[inline]
    fn below(&self, other: &Both) -> bool {
        self.u.below(&other.u) && self.s.below(&other.s)
    }

    #[inline]
    fn join(&self, other: &Both) -> Both {
        halves::join(self, other)
    }

    #[inline]
    fn alu(width: Width, op: AluOp, a: &Both, b: &Both) -> Both {
        halves::shaped(
            &Interval::alu(width, op, &a.u, &b.u),
            &rows::alu(width, op, a, b),
        )
    }

    #[inline]
    fn neg(width: Width, a: &Both) -> Both {
        halves::lift(&Interval::neg(width, &a.u))
    }

    #[inline]
    fn movsx(width: Width, bits: u32, a: &Both) -> Both {
        halves::shaped(
            &Interval::movsx(width, bits, &a.u),
            &rows::movsx(width, bits, a),
        )
    }

    #[inline]
    fn end(kind: EndKind, bits: u32, a: &Both) -> Both {
        halves::lift(&Interval::end(kind, bits, &a.u))
    }

    #[inline]
    fn loaded(size: Size, signed: bool) -> Both {
        halves::shaped(&Interval::loaded(size, signed), &rows::loaded(size, signed))
    }

    #[inline]
    fn refine(width: Width, test: Test, taken: bool, a: &Both, b: &Both) -> Option<(Both, Both)> {
        let (left, right) = Interval::refine(width, test, taken, &a.u, &b.u)?;
        let (left_signed, right_signed) = rows::refine(width, test, taken, &a.s, &b.s)?;
        Some((
            halves::normal(&left, &left_signed)?,
            halves::normal(&right, &right_signed)?,
        ))
    }
}
