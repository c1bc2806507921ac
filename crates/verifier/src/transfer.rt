//! The abstract states on the edges of an instruction.
ghost use Rattle.std.specs.Prelude.{◌≡◌, IsTrue};
ghost use Rattle.instruction_set.specs.Operations.{low, IsMovSxBits, IsEndBits};
ghost use Rattle.instruction_set.specs.Slots.{IsSelected};
ghost use Rattle.std.specs.Int.{w64, cast_unsigned};
ghost use Rattle.abstract_value.specs.States.{view};
ghost use Rattle.verifier.specs.Rules.{in_stack, reach_of, of_scalar, of_scalars, result_of, after_store, on_edge, of_access, inside_stack, fall, jump, writes};
ghost use Rattle.verifier.specs.model.Flow.{if_live};
ghost use Rattle.verifier.specs.model.Values.{value_of, with_value};
ghost use Rattle.abstract_value.specs.declared.states.Span.{Span};
ghost use Rattle.abstract_value.specs.declared.states.RegState.TheVariants.{Stack};

use crate::kinds::{destination, operand};
use crate::memory_access::{bytes_of, stack_bytes};
use crate::pointer_moves::sum_of;
use abstract_value::{Domain, RegState, State};
use instruction_set::{AluOp, EndKind, Insn, Register, Size, Source, Test, Width};

fn alu_scalars<D: Domain>(width: Width, op: AluOp, a: &RegState<D>, b: &RegState<D>) -> RegState<D>
    ensures { result ≡ of_scalars (D.ops.alu width op) a.now b.now }
{
    match (a, b) {
        (RegState::Scalar(a), RegState::Scalar(b)) => RegState::Scalar(D::alu(width, op, a, b)),
        _ => RegState::Unreadable,
    }
}

// Returns the result of an operation. A move reads only its source.
fn result_of<D: Domain>(width: Width, op: AluOp, a: &RegState<D>, b: &RegState<D>) -> RegState<D>
    ensures { result ≡ result_of D.ops width op a.now b.now }
{
    match (width, op) {
        (Width::W64, AluOp::Mov) => *b,
        (Width::W32, AluOp::Mov) => alu_scalars(Width::W32, AluOp::Mov, b, b),
        (Width::W64, AluOp::Add) => sum_of(AluOp::Add, a, b),
        (Width::W64, AluOp::Sub) => sum_of(AluOp::Sub, a, b),
        _ => alu_scalars(width, op, a, b),
    }
}

fn negation_of<D: Domain>(width: Width, a: &RegState<D>) -> RegState<D>
    ensures { result ≡ of_scalar (D.ops.neg width) a.now }
{
    match a {
        RegState::Scalar(a) => RegState::Scalar(D::neg(width, a)),
        _ => RegState::Unreadable,
    }
}

fn sign_extension_of<D: Domain>(width: Width, bits: u32, a: &RegState<D>) -> RegState<D>
    requires { IsMovSxBits width bits }
    ensures { result ≡ of_scalar (D.ops.mov_sx width bits) a.now }
{
    match a {
        RegState::Scalar(a) => RegState::Scalar(D::movsx(width, bits, a)),
        _ => RegState::Unreadable,
    }
}

fn swap_of<D: Domain>(kind: EndKind, bits: u32, a: &RegState<D>) -> RegState<D>
    requires { IsEndBits bits }
    ensures { result ≡ of_scalar (D.ops.end kind bits) a.now }
{
    match a {
        RegState::Scalar(a) => RegState::Scalar(D::end(kind, bits, a)),
        _ => RegState::Unreadable,
    }
}

// Marks the bytes that a store writes, if its offset is known exactly.
fn after_store<D: Domain>(state: &mut State<D>, base: Register, offset: i16, size: Size)
    requires { (a : Span) → (view state.old).registers base.number ≡ Stack a
        → IsTrue (in_stack (reach_of a offset size)) }
    ensures { view state.new ≡ after_store (view state.old) ((view state.old).registers base.number) offset size }
{
    if let RegState::Stack(span) = state.register(base) {
        if span.hi <= span.lo {
            let (first, _) = stack_bytes(span, offset, size);
            state.mark(first, bytes_of(size));
        }
    }
}

// Returns the immediate of a test at its width.
fn tested_number(width: Width, number: i32) -> u64
    ensures { result ≡ low width (cast_unsigned w64 number) }
{
    match width {
        Width::W32 => number.cast_unsigned() as u64,
        Width::W64 => (number as i64).cast_unsigned(),
    }
}

// The condition of a conditional jump: `dst test src` at a width.
#[derive(Clone, Copy)]
struct Condition {
    width: Width,
    test: Test,
    dst: Register,
    src: Source,
}

impl Condition {
    fn new(width: Width, test: Test, dst: Register, src: Source) -> Condition
        ensures { result ≡ record { width = width; test = test; dst = dst; src = src } }
    {
        Condition {
            width,
            test,
            dst,
            src,
        }
    }
}

// Refines the registers that a condition reads on this branch. Returns false if the branch is impossible.
fn on_edge<D: Domain>(condition: Condition, taken: bool, state: &mut State<D>) -> bool
    ensures { if_live result (view state.new)
        ≡ on_edge D.ops condition.width condition.test taken (view state.old) condition.dst.number condition.src }
{
    let other = match condition.src {
        Source::Imm(number) => RegState::Scalar(D::single(tested_number(condition.width, number))),
        Source::Reg(other) if other.number == condition.dst.number => return true,
        Source::Reg(other) => state.register(other),
    };
    let (RegState::Scalar(a), RegState::Scalar(b)) = (state.register(condition.dst), other) else {
        return false;
    };
    let Some((a, b)) = D::refine(condition.width, condition.test, taken, &a, &b) else {
        return false;
    };
    state.set_register(condition.dst, RegState::Scalar(a));
    if let Source::Reg(other) = condition.src {
        state.set_register(other, RegState::Scalar(b));
    }
    true
}

// Returns the destination's contents after an instruction that writes a register.
fn value_of<D: Domain>(insn: Insn, state: &State<D>) -> RegState<D>
    requires { IsSelected insn }
    ensures { result ≡ value_of D.ops insn (view state.now) }
{
    match insn {
        Insn::Alu {
            width,
            op,
            dst,
            src,
        } => result_of(width, op, &state.register(dst), &operand(state, src)),
        Insn::Neg { width, dst } => negation_of(width, &state.register(dst)),
        Insn::MovSx {
            width,
            bits,
            src,
            ..
        } => sign_extension_of(width, bits, &state.register(src)),
        Insn::End { kind, bits, dst } => swap_of(kind, bits, &state.register(dst)),
        Insn::LoadWide { value, .. } => RegState::Scalar(D::single(value)),
        Insn::Load { size, .. } => RegState::Scalar(D::loaded(size, false)),
        Insn::LoadSx { size, .. } => RegState::Scalar(D::loaded(size, true)),
        _ => RegState::Unreadable,
    }
}

// Writes an instruction's result to its destination. Returns false if it writes no register.
fn write_destination<D: Domain>(insn: Insn, state: &mut State<D>) -> bool
    requires { IsSelected insn }
    ensures { if_live result (view state.new) ≡ with_value D.ops insn (view state.old) (writes insn) }
{
    match destination(insn) {
        Some(register) => {
            state.set_register(register, value_of(insn, state));
            true
        }
        None => false,
    }
}

/// Turns a state into the one of the next instruction. Returns false if none follows.
pub(crate) fn fall<D: Domain>(insn: Insn, state: &mut State<D>) -> bool
    requires selected { IsSelected insn }
    requires inside { IsTrue (of_access insn (view state.old) inside_stack) }
    ensures { if_live result (view state.new) ≡ fall D.ops insn (view state.old) }
{
    // For the proof: its numbers have the widths of their fields.
    insn.known();
    match insn {
        Insn::JumpIf {
            width,
            test,
            dst,
            src,
            ..
        } => on_edge(Condition::new(width, test, dst, src), false, state),
        Insn::Store {
            size,
            base,
            offset,
            ..
        } => {
            after_store(state, base, offset, size);
            true
        }
        Insn::StoreImm {
            size,
            base,
            offset,
            ..
        } => {
            after_store(state, base, offset, size);
            true
        }
        _ => write_destination(insn, state),
    }
}

/// Turns a state into the one at the jump's target. Returns false if the instruction doesn't jump.
pub(crate) fn jump<D: Domain>(insn: Insn, state: &mut State<D>) -> bool
    ensures { if_live result (view state.new) ≡ jump D.ops insn (view state.old) }
{
    match insn {
        Insn::Jump { .. } | Insn::JumpLong { .. } => true,
        Insn::JumpIf {
            width,
            test,
            dst,
            src,
            ..
        } => on_edge(Condition::new(width, test, dst, src), true, state),
        _ => false,
    }
}
