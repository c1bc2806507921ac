//! One forward pass over code.
ghost use Rattle.std.specs.Prelude.{◌≡◌, ℕ, ◌<◌, ◌≤◌, ◌+◌, max, IsTrue, List, Some, None, IfOk, IfErr, IfSome, OnOk, OnErr, MatchOption};
ghost use Rattle.std.specs.Option.{option_map};
ghost use Rattle.instruction_set.specs.declared.insn.Insn.{Insn};
ghost use Rattle.instruction_set.specs.Machine.{insn_at, slot_count, slots_of};
ghost use Rattle.instruction_set.specs.Slots.{IsSelected};
ghost use Rattle.abstract_value.specs.States.{View, view};
ghost use Rattle.abstract_value.specs.Pending.{boxed_view, held, room, size, peak_of, nothing};
ghost use Rattle.verifier.specs.Stores.{code_with_len};
ghost use Rattle.verifier.specs.Structure.{IsStructured, leads_to};
ghost use Rattle.verifier.specs.Rules.{of_access, inside_stack, fall, jump};
ghost use Rattle.verifier.specs.Assignments.{FailsLeastFor, IsTypable, IsTypableFor};
ghost use Rattle.verifier.specs.Width.{widest};
ghost use Rattle.verifier.specs.Peak.{IsPeak, IsPeakFor, IsPeakAtFault, IsPeakAtFaultFor};
ghost use Rattle.verifier.specs.model.Flow.{flow, flow_edge, sent_on};
ghost use Rattle.verifier.specs.model.Pending.{IsPending, IsPassed, IsStopped};
ghost use Rattle.refusals.specs.Answers.{HasCause};
ghost use Rattle.verifier.specs.Refusals.{verify_fault_number, IsRefused, IsRefusedFor, IsRefusedAt, IsRefusedAtFor};
ghost use Rattle.verifier.specs.declared.refusal.Refusal.{Refusal};

use crate::checks::check;
use crate::refusal::{Refusal, VerifyFault};
use crate::rule::Rule;
use crate::structure::{check_structure, leads_to};
use crate::transfer::{fall, jump};
use crate::verified::{Verified, VerifiedFor};
use abstract_value::{Domain, Pending, State};
use instruction_set::{Code, Insn, MAX_SLOTS, RECORD_LEN};
use std::alloc::{AllocError, Global};

// Returns a copy of the state that follows a jump, if any.
fn jumping<D: Domain>(insn: Insn, state: &State<D>) -> Option<State<D>>
    ensures { option_map view result ≡ jump D.ops insn (view state.now) }
{
    match insn {
        Insn::Jump { .. } | Insn::JumpLong { .. } | Insn::JumpIf { .. } => {}
        _ => return None,
    }
    let mut next = *state;
    if jump(insn, &mut next) {
        Some(next)
    } else {
        None
    }
}

// Turns the state into the one of the next instruction, if any.
fn falling<D: Domain>(insn: Insn, state: Box<State<D>>) -> Option<Box<State<D>>>
    requires selected { IsSelected insn }
    requires inside { IsTrue (of_access insn (view state.value) inside_stack) }
    ensures { boxed_view result ≡ fall D.ops insn (view state.value) }
{
    let mut state = state;
    if fall(insn, &mut state) {
        Some(state)
    } else {
        None
    }
}

// Puts a state at a slot, if there is one.
fn carry<D: Domain>(pending: &mut Pending<D>, to: usize, state: Option<Box<State<D>>>)
    requires place { (s : View D) → boxed_view state ≡ Some s → to < room pending.old }
    requires few { size pending.old ≤ peak_of pending.old }
    ensures states { held pending.new ≡ flow D.ops (held pending.old) to (boxed_view state) }
    ensures room { room pending.new ≡ room pending.old }
    ensures peak { peak_of pending.new ≡ max (peak_of pending.old) (size pending.new) }
{
    if let Some(state) = state {
        pending.put(to, state);
    }
}

// Joins a state to the one that waits at a slot, or puts it there in a new box.
fn merge<D: Domain>(
    alloc: Global,
    pending: &mut Pending<D>,
    to: usize,
    state: State<D>,
) -> Result<(), AllocError>
    requires place { to < room pending.old }
    ensures states { OnOk result (held pending.new ≡ flow D.ops (held pending.old) to (Some (view state))) }
    ensures room { room pending.new ≡ room pending.old }
    ensures peak { OnOk result (peak_of pending.new ≡ max (peak_of pending.old) (size pending.new)) }
    ensures kept { OnErr result (peak_of pending.new ≡ peak_of pending.old) }
{
    let merged = match pending.take(to) {
        Some(mut waiting) => {
            waiting.join(&state);
            waiting
        }
        None => Box::new(alloc, state)?,
    };
    pending.put(to, merged);
    Ok(())
}

// Merges the state that follows a jump into its target, if there is one.
fn carry_over<D: Domain>(
    alloc: Global,
    pending: &mut Pending<D>,
    to: Option<usize>,
    state: Option<State<D>>,
) -> Result<(), AllocError>
    requires place { (slot : ℕ) → to ≡ Some slot → slot < room pending.old }
    requires few { size pending.old ≤ peak_of pending.old }
    ensures states { OnOk result (held pending.new ≡ flow_edge D.ops (held pending.old) to (option_map view state)) }
    ensures room { room pending.new ≡ room pending.old }
    ensures peak { OnOk result (peak_of pending.new ≡ max (peak_of pending.old) (size pending.new)) }
    ensures kept { OnErr result (peak_of pending.new ≡ peak_of pending.old) }
{
    let Some(to) = to else {
        return Ok(());
    };
    match state {
        Some(state) => merge(alloc, pending, to, state),
        None => Ok(()),
    }
}

// An instruction and its slot.
#[derive(Clone, Copy)]
struct PlacedInsn {
    slot: usize,
    insn: Insn,
}

// Sends the state that was taken of a slot to the next instruction and along the jump.
fn send_on<D: Domain>(
    alloc: Global,
    pending: &mut Pending<D>,
    here: PlacedInsn,
    state: Box<State<D>>,
) -> Result<(), AllocError>
    requires short { here.slot < MAX_SLOTS }
    requires selected { IsSelected here.insn }
    requires inside { IsTrue (of_access here.insn (view state.value) inside_stack) }
    requires next { (s : View D) → fall D.ops here.insn (view state.value) ≡ Some s
        → here.slot + slots_of here.insn < room pending.old }
    requires target { (to : ℕ) → leads_to here.slot here.insn ≡ Some to → to < room pending.old }
    requires taken { size pending.old < peak_of pending.old }
    ensures states { OnOk result (held pending.new
        ≡ sent_on D.ops (held pending.old) here.slot here.insn (view state.value)) }
    ensures room { room pending.new ≡ room pending.old }
    ensures peak { OnOk result (peak_of pending.new ≡ max (peak_of pending.old) (size pending.new)) }
    ensures kept { OnErr result (peak_of pending.new ≡ peak_of pending.old) }
{
    let to = leads_to(here.slot, &here.insn);
    let jumping = jumping(here.insn, &state);
    let next = here.slot + here.insn.slots();
    carry(pending, next, falling(here.insn, state));
    carry_over(alloc, pending, to, jumping)
}

// Takes the state of a slot, if it has one, checks the instruction in it, and sends it on if the instruction passes.
fn visit<D: Domain>(
    alloc: Global,
    code: &Code,
    context_len: u16,
    here: PlacedInsn,
    pending: &mut Pending<D>,
) -> Result<Option<Rule>, AllocError>
    requires place { here.slot < slot_count code.now }
    requires is_at { insn_at code.now here.slot ≡ Some here.insn }
    requires structured { IsStructured code.now }
    requires room { room pending.old ≡ slot_count code.now }
    requires least { IsPending context_len D.ops code.now here.slot (held pending.old) (peak_of pending.old) }
    ensures least { IfOk result (λ failed. MatchOption failed
        (IsPending context_len D.ops code.now (here.slot + slots_of here.insn) (held pending.new) (peak_of pending.new))
        (λ rule. FailsLeastFor context_len D.ops code.now here.slot rule)) }
    ensures stops { IfOk result (λ failed. IfSome failed
        (λ _. IsPeakFor context_len D.ops code.now here.slot (peak_of pending.new))) }
    ensures room { room pending.new ≡ room pending.old }
    ensures kept { peak_of pending.old ≤ peak_of pending.new }
    ensures peak { peak_of pending.new ≤ max (peak_of pending.old) (1 + widest code.now) }
{
    // For the proof: its instructions are listed.
    code.known();
    let Some(state) = pending.take(here.slot) else {
        return Ok(None);
    };
    match check(here.insn, &state, context_len) {
        Some(rule) => Ok(Some(rule)),
        None => {
            send_on(alloc, pending, here, state)?;
            Ok(None)
        }
    }
}

// Visits the instructions that begin before a slot, from first to last, and returns the first refusal.
pub(crate) fn pass<D: Domain>(
    alloc: Global,
    code: &Code,
    context_len: u16,
    end: usize,
    pending: &mut Pending<D>,
) -> Result<Option<Refusal>, AllocError>
    requires structured { IsStructured code.now }
    requires room { room pending.old ≡ slot_count code.now }
    requires none { held pending.old ≡ nothing }
    requires peak { peak_of pending.old ≡ 0 }
    ensures answer { IfOk result (λ refusal. MatchOption refusal
        (IsPassed context_len D.ops code.now end (held pending.new) (peak_of pending.new))
        (λ r. IsStopped context_len D.ops code.now end r.slot r.rule (peak_of pending.new))) }
    ensures room { room pending.new ≡ room pending.old }
    ensures some { OnOk result (1 ≤ peak_of pending.new) }
    ensures peak { peak_of pending.new ≤ 1 + widest code.now }
{
    // For the proof: it has few slots, and at least one.
    code.known();
    pending.put(0, Box::new(alloc, State::entry())?);
    let insns = code.insns();
    let mut at = 0;
    for &insn in insns {
        if at >= end {
            return Ok(None);
        }
        let here = PlacedInsn { slot: at, insn };
        if let Some(rule) = visit(alloc, code, context_len, here, pending)? {
            return Ok(Some(Refusal {
                slot: at as u32,
                rule,
            }));
        }
        at += insn.slots();
    }
    Ok(None)
}

/// Verifies code like `verify_for`, and also returns the peak number of states.
pub fn verify_peak_for<D: Domain>(
    alloc: Global,
    code: Code,
    context_len: u16,
) -> (Result<VerifiedFor, VerifyFault>, u32)
    // The result is the code passed in, for contexts of this length. Its type states that it is safe.
    ensures accepted { IfOk result.0 (λ verified. verified ≡ code_with_len code context_len) }
    ensures structured { IfOk result.0 (λ _. IsStructured code) }
    ensures typable { IfOk result.0 (λ _. IsTypableFor context_len D.ops code) }
    // A refusal names the slot and the rule, and no assignment fulfils the rules up to there.
    ensures refused { IfErr result.0 (HasCause verify_fault_number (IsRefusedFor context_len D.ops code)) }
    // Accepted code needs at least one state; the peak is bounded by the code's width.
    ensures held { IfOk result.0 (λ _. 1 ≤ result.1) }
    ensures peak { result.1 ≤ 1 + widest code }
    // The peak is that of the whole pass, or of the pass up to the refused slot.
    ensures exact { IfOk result.0 (λ _. IsPeakFor context_len D.ops code (slot_count code) result.1) }
    ensures exact_refused { IfErr result.0 (IsPeakAtFaultFor context_len D.ops code result.1) }
{
    if let Some(refusal) = check_structure(&code) {
        return (Err(VerifyFault::Refused(refusal)), 0);
    }
    // For the proof: it has few slots, and its instructions are listed.
    code.known();
    let mut pending: Pending<D> = match Pending::new(alloc, code.slot_count()) {
        Ok(pending) => pending,
        Err(AllocError) => return (Err(VerifyFault::OutOfMemory), 0),
    };
    let answer = pass(alloc, &code, context_len, code.slot_count(), &mut pending);
    let peak = pending.peak();
    match answer {
        Ok(None) => (Ok(VerifiedFor::new(code, context_len)), peak),
        Ok(Some(refusal)) => (Err(VerifyFault::Refused(refusal)), peak),
        Err(AllocError) => (Err(VerifyFault::OutOfMemory), peak),
    }
}

/// Accepts code that is safe for contexts of this length, or returns the first slot that fails and the least rule that
/// fails there.
///
/// Applies the rules of `verify` with the context in place of the record. A context of 0 bytes has no byte to load.
/// Returns 90 when out of memory, and allocates like `verify`.
pub fn verify_for<D: Domain>(
    alloc: Global,
    code: Code,
    context_len: u16,
) -> Result<VerifiedFor, VerifyFault>
    // The result is the code passed in, for contexts of this length. Its type states that it is safe.
    ensures accepted { IfOk result (λ verified. verified ≡ code_with_len code context_len) }
    ensures structured { IfOk result (λ _. IsStructured code) }
    ensures typable { IfOk result (λ _. IsTypableFor context_len D.ops code) }
    // A refusal names the slot and the rule, and no assignment fulfils the rules up to there.
    ensures refused { IfErr result (HasCause verify_fault_number (IsRefusedFor context_len D.ops code)) }
{
    verify_peak_for::<D>(alloc, code, context_len).0
}

/// Verifies code like `verify`, and also returns the peak number of states.
pub fn verify_peak<D: Domain>(alloc: Global, code: Code) -> (Result<Verified, VerifyFault>, u32)
    // The result is the code passed in. Its type states that it is safe.
    ensures accepted { IfOk result.0 (λ verified. verified ≡ code) }
    ensures structured { IfOk result.0 (λ _. IsStructured code) }
    ensures typable { IfOk result.0 (λ _. IsTypable D.ops code) }
    // A refusal names the slot and the rule, and no assignment fulfils the rules up to there.
    ensures refused { IfErr result.0 (HasCause verify_fault_number (IsRefused D.ops code)) }
    // Accepted code needs at least one state; the peak is bounded by the code's width.
    ensures held { IfOk result.0 (λ _. 1 ≤ result.1) }
    ensures peak { result.1 ≤ 1 + widest code }
    // The peak is that of the whole pass, or of the pass up to the refused slot.
    ensures exact { IfOk result.0 (λ _. IsPeak D.ops code (slot_count code) result.1) }
    ensures exact_refused { IfErr result.0 (IsPeakAtFault D.ops code result.1) }
{
    let (answer, peak) = verify_peak_for::<D>(alloc, code, RECORD_LEN as u16);
    match answer {
        Ok(verified) => (Ok(Verified::new(verified)), peak),
        Err(fault) => (Err(fault), peak),
    }
}

/// Accepts code that is safe, or returns the first slot that fails and the least rule that fails there.
///
/// Checks the rules of structure (10 to 14) over the whole code first, then the rules 15 to 26 in the least state of each
/// slot. Returns 90 when out of memory: it allocates eight bytes per slot and at most one state plus one per pending jump
/// target.
pub fn verify<D: Domain>(alloc: Global, code: Code) -> Result<Verified, VerifyFault>
    // The result is the code passed in. Its type states that it is safe.
    ensures accepted { IfOk result (λ verified. verified ≡ code) }
    ensures structured { IfOk result (λ _. IsStructured code) }
    ensures typable { IfOk result (λ _. IsTypable D.ops code) }
    // A refusal names the slot and the rule, and no assignment fulfils the rules up to there.
    ensures refused { IfErr result (HasCause verify_fault_number (IsRefused D.ops code)) }
{
    verify_peak::<D>(alloc, code).0
}

/// States that code either fulfils the rules or fails exactly one rule at one slot, and that a pass has one peak. Does
/// nothing at run time.
pub fn one_verdict_theorem<D: Domain>()
    // Code that fulfils the rules isn't refused, so `verify` accepts it unless memory runs out.
    ensures either { (code : List Insn) (refusal : Refusal) → IsStructured code → IsTypable D.ops code
        → IsRefusedAt D.ops code refusal.slot refusal.rule → ⊥ }
    // Two refusals of code are equal, so `verify` returns the only one.
    ensures one_refusal { (code : List Insn) (a b : Refusal) → IsRefusedAt D.ops code a.slot a.rule
        → IsRefusedAt D.ops code b.slot b.rule → a ≡ b }
    // Two peaks up to one slot are equal, so `verify_peak` returns the only one.
    ensures one_peak { (code : List Insn) (slot m n : ℕ) → IsPeak D.ops code slot m → IsPeak D.ops code slot n → m ≡ n }
{}

/// States what `one_verdict_theorem` states, for contexts of each length. Does nothing at run time.
pub fn one_verdict_for_theorem<D: Domain>()
    // Code that fulfils the rules isn't refused, so `verify_for` accepts it unless memory runs out.
    ensures either { (len : ℕ) (code : List Insn) (refusal : Refusal) → IsStructured code → IsTypableFor len D.ops code
        → IsRefusedAtFor len D.ops code refusal.slot refusal.rule → ⊥ }
    // Two refusals of code are equal, so `verify_for` returns the only one.
    ensures one_refusal { (len : ℕ) (code : List Insn) (a b : Refusal) → IsRefusedAtFor len D.ops code a.slot a.rule
        → IsRefusedAtFor len D.ops code b.slot b.rule → a ≡ b }
    // Two peaks up to one slot are equal, so `verify_peak_for` returns the only one.
    ensures one_peak { (len : ℕ) (code : List Insn) (slot m n : ℕ) → IsPeakFor len D.ops code slot m
        → IsPeakFor len D.ops code slot n → m ≡ n }
{}
