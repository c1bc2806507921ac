//! What each operation computes (RFC 9669, sections 4.1 to 4.3), on 64-bit words.
ghost use Rattle.std.specs.Prelude.{◌≡◌, ℕ, ◌<◌, ◌%◌, ◌^◌};
ghost use Rattle.instruction_set.specs.Operations.{bits_of, cut_alu, cut_test, alu_of, neg_of, mov_sx_of, end_of, is_taken, swapped, IsMovSxBits, IsEndBits};
ghost use Rattle.instruction_set.specs.declared.insn.Width.{Width};
ghost use Rattle.instruction_set.specs.declared.insn.AluOp.{AluOp};
ghost use Rattle.instruction_set.specs.declared.insn.EndKind.{EndKind};
ghost use Rattle.instruction_set.specs.declared.insn.Width.TheVariants.{W32, W64};
ghost use Rattle.instruction_set.specs.declared.insn.AluOp.TheVariants.{SDiv, SMod};
ghost use Rattle.instruction_set.specs.declared.insn.EndKind.TheVariants.{Swap};

use crate::insn::{AluOp, EndKind, Test, Width};

// Returns the low 32 bits of a word.
#[inline]
fn low_half(word: u64) -> u32
    ensures { result ≡ word % 2 ^ 32 }
{
    (word & 0xffff_ffff) as u32
}

/// Returns the new value of `dst` after `dst = dst op src`, where `dst` was `a` and `src` is `b` (section 4.1).
///
/// A 32-bit result has a zero upper half.
#[inline(always)]
pub fn alu(width: Width, op: AluOp, a: u64, b: u64) -> u64
    ensures { result ≡ alu_of width op a b }
{
    match width {
        Width::W32 => u64::from(alu32(op, low_half(a), low_half(b))),
        Width::W64 => alu64(op, a, b),
    }
}

#[inline(always)]
fn alu64(op: AluOp, a: u64, b: u64) -> u64
    ensures { result ≡ cut_alu W64 op a b }
{
    match op {
        AluOp::Add => a.wrapping_add(b),
        AluOp::Sub => a.wrapping_sub(b),
        AluOp::Mul => a.wrapping_mul(b),
        AluOp::Div => a.checked_div(b).unwrap_or(0),
        AluOp::SDiv => signed_quotient64(a, b),
        AluOp::Or => a | b,
        AluOp::And => a & b,
        AluOp::Lsh => a << (b % 64),
        AluOp::Rsh => a >> (b % 64),
        AluOp::Mod => a.checked_rem(b).unwrap_or(a),
        AluOp::SMod => signed_remainder64(a, b),
        AluOp::Xor => a ^ b,
        AluOp::Mov => b,
        AluOp::Arsh => (a.cast_signed() >> (b % 64)).cast_unsigned(),
    }
}

// The signed quotient and remainder of two words, the same at both widths.
macro_rules! signed_quotient {
    ($a:expr, $b:expr) => {
        if $b == 0 {
            0
        } else {
            $a.cast_signed()
                .wrapping_div($b.cast_signed())
                .cast_unsigned()
        }
    };
}

macro_rules! signed_remainder {
    ($a:expr, $b:expr) => {
        if $b == 0 {
            $a
        } else {
            $a.cast_signed()
                .wrapping_rem($b.cast_signed())
                .cast_unsigned()
        }
    };
}

#[inline]
fn signed_quotient64(a: u64, b: u64) -> u64
    ensures { result ≡ cut_alu W64 SDiv a b }
{
    signed_quotient!(a, b)
}

#[inline]
fn signed_remainder64(a: u64, b: u64) -> u64
    ensures { result ≡ cut_alu W64 SMod a b }
{
    signed_remainder!(a, b)
}

#[inline(always)]
fn alu32(op: AluOp, a: u32, b: u32) -> u32
    ensures { result ≡ cut_alu W32 op a b }
{
    match op {
        AluOp::Add => a.wrapping_add(b),
        AluOp::Sub => a.wrapping_sub(b),
        AluOp::Mul => a.wrapping_mul(b),
        AluOp::Div => a.checked_div(b).unwrap_or(0),
        AluOp::SDiv => signed_quotient32(a, b),
        AluOp::Or => a | b,
        AluOp::And => a & b,
        AluOp::Lsh => a << (b % 32),
        AluOp::Rsh => a >> (b % 32),
        AluOp::Mod => a.checked_rem(b).unwrap_or(a),
        AluOp::SMod => signed_remainder32(a, b),
        AluOp::Xor => a ^ b,
        AluOp::Mov => b,
        AluOp::Arsh => (a.cast_signed() >> (b % 32)).cast_unsigned(),
    }
}

#[inline]
fn signed_quotient32(a: u32, b: u32) -> u32
    ensures { result ≡ cut_alu W32 SDiv a b }
{
    signed_quotient!(a, b)
}

#[inline]
fn signed_remainder32(a: u32, b: u32) -> u32
    ensures { result ≡ cut_alu W32 SMod a b }
{
    signed_remainder!(a, b)
}

/// Returns the new value of `dst` after `dst = -dst` (section 4.1).
#[inline]
pub fn neg(width: Width, a: u64) -> u64
    ensures { result ≡ neg_of width a }
{
    match width {
        Width::W32 => u64::from(low_half(a).wrapping_neg()),
        Width::W64 => a.wrapping_neg(),
    }
}

/// Sign-extends the low 8, 16 or, at 64 bits, 32 bits of a word to the width (section 4.1).
#[inline]
pub fn movsx(width: Width, bits: u32, a: u64) -> u64
    requires { IsMovSxBits width bits }
    ensures { result ≡ mov_sx_of width bits a }
{
    let extended = match bits {
        8 => i64::from(((a & 0xff) as u8).cast_signed()),
        16 => i64::from(((a & 0xffff) as u16).cast_signed()),
        _ => i64::from(low_half(a).cast_signed()),
    }
    .cast_unsigned();
    match width {
        Width::W32 => extended & 0xffff_ffff,
        Width::W64 => extended,
    }
}

/// Returns the result of a byte swap of 16, 32 or 64 bits; the bits above are zero (section 4.2).
#[inline]
pub fn end(kind: EndKind, bits: u32, a: u64) -> u64
    requires { IsEndBits bits }
    ensures { result ≡ end_of kind bits a }
{
    match kind {
        EndKind::Little => low_bits(bits, a),
        EndKind::Big | EndKind::Swap => swap(bits, a),
    }
}

#[inline]
fn low_bits(bits: u32, a: u64) -> u64
    requires { IsEndBits bits }
    ensures { result ≡ a % 2 ^ bits }
{
    match bits {
        16 => a & 0xffff,
        32 => a & 0xffff_ffff,
        _ => a,
    }
}

#[inline]
fn swap(bits: u32, a: u64) -> u64
    requires { IsEndBits bits }
    ensures { result ≡ end_of Swap bits a }
{
    match bits {
        16 => u64::from(((a & 0xffff) as u16).swap_bytes()),
        32 => u64::from(low_half(a).swap_bytes()),
        _ => a.swap_bytes(),
    }
}

/// Returns whether a jump that tests these words is taken (section 4.3).
#[inline(always)]
pub fn test(width: Width, test: Test, a: u64, b: u64) -> bool
    ensures { result ≡ is_taken width test a b }
{
    match width {
        Width::W32 => test32(test, low_half(a), low_half(b)),
        Width::W64 => test64(test, a, b),
    }
}

// The tests of two words, the same at both widths.
macro_rules! test_words {
    ($test:expr, $a:expr, $b:expr) => {
        match $test {
            Test::Jeq => $a == $b,
            Test::Jgt => $a > $b,
            Test::Jge => $a >= $b,
            Test::Jset => $a & $b != 0,
            Test::Jne => $a != $b,
            Test::Jsgt => $a.cast_signed() > $b.cast_signed(),
            Test::Jsge => $a.cast_signed() >= $b.cast_signed(),
            Test::Jlt => $a < $b,
            Test::Jle => $a <= $b,
            Test::Jslt => $a.cast_signed() < $b.cast_signed(),
            Test::Jsle => $a.cast_signed() <= $b.cast_signed(),
        }
    };
}

#[inline]
fn test64(test: Test, a: u64, b: u64) -> bool
    ensures { result ≡ cut_test W64 test a b }
{
    test_words!(test, a, b)
}

#[inline]
fn test32(test: Test, a: u32, b: u32) -> bool
    ensures { result ≡ cut_test W32 test a b }
{
    test_words!(test, a, b)
}

/// States that each result fits the width of its operation, for all operands. Does nothing at run time.
pub fn results_fit_theorem()
    ensures alu { (width : Width) → (op : AluOp) → (a b : ℕ) → alu_of width op a b < 2 ^ bits_of width }
    ensures neg { (width : Width) → (a : ℕ) → neg_of width a < 2 ^ bits_of width }
    ensures movsx { (width : Width) → (bits a : ℕ) → IsMovSxBits width bits
        → mov_sx_of width bits a < 2 ^ bits_of width }
    ensures end { (kind : EndKind) → (bits a : ℕ) → IsEndBits bits → end_of kind bits a < 2 ^ 64 }
{}
