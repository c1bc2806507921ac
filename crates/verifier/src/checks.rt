//! The rules 15 to 26, on an instruction in an abstract state.
ghost use Rattle.std.specs.Prelude.{◌≡◌, MatchOption};
ghost use Rattle.std.specs.List.{list_all};
ghost use Rattle.abstract_value.specs.States.{view};
ghost use Rattle.verifier.specs.Rules.{is_readable, source_reads, reads, writes, is_r10, pointers_fit, meets_operation, operation_in_range, meets_range, meets_comparison, meets_stored, meets_result, PassesFor, FailsFirstFor};
ghost use Rattle.verifier.specs.model.Accesses.{InsnAccessPasses, InsnAccessFails};

use crate::kinds::{destination, is_pointer, is_readable, operand};
use crate::memory_access::access_of;
use crate::pointer_moves::sum_in_range;
use crate::rule::Rule;
use abstract_value::{Domain, RegState, State};
use instruction_set::{AluOp, Insn, Register, Source, Width};

fn reads_register<D: Domain>(state: &State<D>, register: Register) -> bool
    ensures { result ≡ is_readable ((view state.now).registers register.number) }
{
    is_readable(&state.register(register))
}

fn reads_source<D: Domain>(state: &State<D>, source: Source) -> bool
    ensures { result ≡ list_all (λ r. is_readable ((view state.now).registers r)) (source_reads source) }
{
    match source {
        Source::Imm(_) => true,
        Source::Reg(register) => reads_register(state, register),
    }
}

// Returns whether every register that an instruction reads is readable.
fn meets_reads<D: Domain>(insn: Insn, state: &State<D>) -> bool
    ensures { result ≡ list_all (λ r. is_readable ((view state.now).registers r)) (reads insn) }
{
    match insn {
        Insn::Alu {
            op: AluOp::Mov,
            src,
            ..
        } => reads_source(state, src),
        Insn::Alu { dst, src, .. } => reads_register(state, dst) && reads_source(state, src),
        Insn::JumpIf { dst, src, .. } => reads_register(state, dst) && reads_source(state, src),
        Insn::Neg { dst, .. } => reads_register(state, dst),
        Insn::End { dst, .. } => reads_register(state, dst),
        Insn::MovSx { src, .. } => reads_register(state, src),
        Insn::Load { base, .. } => reads_register(state, base),
        Insn::LoadSx { base, .. } => reads_register(state, base),
        Insn::StoreImm { base, .. } => reads_register(state, base),
        Insn::Store { base, src, .. } => reads_register(state, base) && reads_register(state, src),
        Insn::Exit => reads_register(state, Register { number: 0 }),
        _ => true,
    }
}

// Returns whether an instruction writes R10.
fn writes_r10(insn: Insn) -> bool
    ensures { result ≡ is_r10 (writes insn) }
{
    match destination(insn) {
        Some(register) => register.number == 10,
        None => false,
    }
}

// Returns whether an operation accepts these operands: a move copies an address, a sum accepts one on either side, a
// difference on the left.
fn pointers_fit<D>(width: Width, op: AluOp, a: &RegState<D>, b: &RegState<D>) -> bool
    ensures { result ≡ pointers_fit width op a.now b.now }
{
    match (width, op) {
        (Width::W64, AluOp::Mov) => true,
        (Width::W64, AluOp::Add) => !(is_pointer(a) && is_pointer(b)),
        (Width::W64, AluOp::Sub) => !is_pointer(b),
        (Width::W32, AluOp::Mov) => !is_pointer(b),
        _ => !(is_pointer(a) || is_pointer(b)),
    }
}

// Returns whether no operation uses an address as a number.
fn meets_operation<D: Domain>(insn: Insn, state: &State<D>) -> bool
    ensures { result ≡ meets_operation D.ops insn (view state.now) }
{
    match insn {
        Insn::Alu {
            width,
            op,
            dst,
            src,
        } => pointers_fit(width, op, &state.register(dst), &operand(state, src)),
        Insn::Neg { dst, .. } => !is_pointer(&state.register(dst)),
        Insn::MovSx { src, .. } => !is_pointer(&state.register(src)),
        Insn::End { dst, .. } => !is_pointer(&state.register(dst)),
        _ => true,
    }
}

// Returns whether an operation keeps an address in range.
fn operation_in_range<D: Domain>(width: Width, op: AluOp, a: &RegState<D>, b: &RegState<D>) -> bool
    ensures { result ≡ operation_in_range D.ops width op a.now b.now }
{
    match (width, op) {
        (Width::W64, AluOp::Add) => sum_in_range(AluOp::Add, a, b),
        (Width::W64, AluOp::Sub) => sum_in_range(AluOp::Sub, a, b),
        _ => true,
    }
}

fn meets_range<D: Domain>(insn: Insn, state: &State<D>) -> bool
    ensures { result ≡ meets_range D.ops insn (view state.now) }
{
    match insn {
        Insn::Alu {
            width,
            op,
            dst,
            src,
        } => operation_in_range(width, op, &state.register(dst), &operand(state, src)),
        _ => true,
    }
}

// Returns whether no test compares an address.
fn meets_comparison<D: Domain>(insn: Insn, state: &State<D>) -> bool
    ensures { result ≡ meets_comparison D.ops insn (view state.now) }
{
    match insn {
        Insn::JumpIf { dst, src, .. } => {
            !(is_pointer(&state.register(dst)) || is_pointer(&operand(state, src)))
        }
        _ => true,
    }
}

// Returns whether no address is stored.
fn meets_stored<D: Domain>(insn: Insn, state: &State<D>) -> bool
    ensures { result ≡ meets_stored insn (view state.now) }
{
    match insn {
        Insn::Store { src, .. } => !is_pointer(&state.register(src)),
        _ => true,
    }
}

// Returns whether the answer isn't an address.
fn meets_result<D: Domain>(insn: Insn, state: &State<D>) -> bool
    ensures { result ≡ meets_result insn (view state.now) }
{
    match insn {
        Insn::Exit => !is_pointer(&state.register(Register { number: 0 })),
        _ => true,
    }
}

// Returns the first of the rules 21 to 25 that the access of an instruction fails.
fn check_access<D: Domain>(insn: Insn, state: &State<D>, context_len: u16) -> Option<Rule>
    ensures { MatchOption result (InsnAccessPasses context_len insn (view state.now))
        (λ rule. InsnAccessFails context_len insn (view state.now) rule) }
{
    let access = access_of(&insn)?;
    access.check(&state.register(access.base), state.stack(), context_len)
}

/// Returns the first of the rules 15 to 26 that an instruction fails in a state, for contexts of this length.
pub(crate) fn check<D: Domain>(insn: Insn, state: &State<D>, context_len: u16) -> Option<Rule>
    ensures { MatchOption result (PassesFor context_len D.ops insn (view state.now))
        (λ rule. FailsFirstFor context_len D.ops insn (view state.now) rule) }
{
    if !meets_reads(insn, state) {
        return Some(Rule::Unreadable);
    }
    if writes_r10(insn) {
        return Some(Rule::WritesR10);
    }
    if !meets_operation(insn, state) {
        return Some(Rule::PointerOperation);
    }
    if !meets_range(insn, state) {
        return Some(Rule::PointerRange);
    }
    if !meets_comparison(insn, state) {
        return Some(Rule::PointerCompared);
    }
    if !meets_stored(insn, state) {
        return Some(Rule::PointerStored);
    }
    if let Some(rule) = check_access(insn, state, context_len) {
        return Some(rule);
    }
    if !meets_result(insn, state) {
        return Some(Rule::PointerResult);
    }
    None
}
