//! The interface of a domain: sets of words and operations on them.
ghost use Rattle.std.specs.Prelude.{◌≡◌};
ghost use Rattle.instruction_set.specs.Operations.{IsMovSxBits, IsEndBits};
ghost use Rattle.abstract_value.specs.Domain.{Ops, Laws};
ghost use Rattle.abstract_value.specs.Fits.{StateFitsInMemory};

use instruction_set::{AluOp, EndKind, Size, Test, Width};

/// A set of 64-bit words, with the operations of RFC 9669 on its words.
pub trait Domain: Copy {
    /// The results of the functions, and the words that a value holds.
    ghost ops: { Ops Self };

    /// Returns the set of all words.
    fn full() -> Self
        ensures { result ≡ ops.full };

    /// Returns the set of one word.
    fn single(v: u64) -> Self
        ensures { result ≡ ops.single v };

    /// Returns a lower and an upper bound of its words.
    fn bounds(&self) -> (u64, u64)
        ensures low { result.0 ≡ ops.low self.now }
        ensures high { result.1 ≡ ops.high self.now };

    /// Returns whether this set is below `other` in the order of the domain.
    fn below(&self, other: &Self) -> bool
        ensures { result ≡ ops.below self.now other.now };

    /// Returns the least value above both.
    fn join(&self, other: &Self) -> Self
        ensures { result ≡ ops.join self.now other.now };

    /// Returns a set with every result of an operation on words of `a` and `b`.
    fn alu(width: Width, op: AluOp, a: &Self, b: &Self) -> Self
        ensures { result ≡ ops.alu width op a.now b.now };

    /// Returns a set with the negation of each word.
    fn neg(width: Width, a: &Self) -> Self
        ensures { result ≡ ops.neg width a.now };

    /// Returns a set with the sign extension of the low bits of each word.
    fn movsx(width: Width, bits: u32, a: &Self) -> Self
        requires { IsMovSxBits width bits }
        ensures { result ≡ ops.mov_sx width bits a.now };

    /// Returns a set with each word after a byte swap.
    fn end(kind: EndKind, bits: u32, a: &Self) -> Self
        requires { IsEndBits bits }
        ensures { result ≡ ops.end kind bits a.now };

    /// Returns a set with every word that a load gives, zero-extended or sign-extended.
    fn loaded(size: Size, signed: bool) -> Self
        ensures { result ≡ ops.load size signed };

    /// Refines both operands of a test to the words that take the edge, or returns `None` if the edge is dead.
    fn refine(width: Width, test: Test, taken: bool, a: &Self, b: &Self) -> Option<(Self, Self)>
        ensures { result ≡ ops.refine width test taken a.now b.now };

    /// The laws of the operations.
    ghost laws: { Laws ops };

    /// A state over the values fits in memory.
    ghost fits: { StateFitsInMemory Self.row };
}
