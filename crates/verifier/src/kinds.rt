//! Kinds of registers: numbers, addresses and unreadable ones.
ghost use Rattle.std.specs.Prelude.{◌≡◌};
ghost use Rattle.abstract_value.specs.States.{view};
ghost use Rattle.verifier.specs.Rules.{is_readable, is_pointer, is_scalar, operand_state, writes};
ghost use Rattle.verifier.specs.model.Values.{number_of};

use abstract_value::{Domain, RegState, State};
use instruction_set::{Insn, Register, Source};

/// Returns whether a register is readable.
pub(crate) fn is_readable<D>(state: &RegState<D>) -> bool
    ensures { result ≡ is_readable state.now }
{
    !matches!(state, RegState::Unreadable)
}

/// Returns whether a register holds an address.
pub(crate) fn is_pointer<D>(state: &RegState<D>) -> bool
    ensures { result ≡ is_pointer state.now }
{
    matches!(state, RegState::Record(_) | RegState::Stack(_))
}

/// Returns whether a register holds a number.
pub(crate) fn is_scalar<D>(state: &RegState<D>) -> bool
    ensures { result ≡ is_scalar state.now }
{
    matches!(state, RegState::Scalar(_))
}

/// Returns the second operand: a register, or the sign-extended immediate.
pub(crate) fn operand<D: Domain>(state: &State<D>, source: Source) -> RegState<D>
    ensures { result ≡ operand_state D.ops (view state.now) source }
{
    match source {
        Source::Imm(number) => RegState::Scalar(D::single((number as i64).cast_unsigned())),
        Source::Reg(register) => state.register(register),
    }
}

/// Returns the register that an instruction writes, if any.
pub(crate) fn destination(insn: Insn) -> Option<Register>
    ensures { number_of result ≡ writes insn }
{
    match insn {
        Insn::Alu { dst, .. } => Some(dst),
        Insn::Neg { dst, .. } => Some(dst),
        Insn::MovSx { dst, .. } => Some(dst),
        Insn::End { dst, .. } => Some(dst),
        Insn::LoadWide { dst, .. } => Some(dst),
        Insn::Load { dst, .. } => Some(dst),
        Insn::LoadSx { dst, .. } => Some(dst),
        _ => None,
    }
}
