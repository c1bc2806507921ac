//! The rules of structure, 10 to 14: jump targets, the last instruction and reachability.
ghost use Rattle.std.specs.Prelude.{◌≡◌, ℕ, ◌+◌, ◌<◌, ◌≤◌, ◌⊎◌, true, false, length, Some, MatchOption};
ghost use Rattle.instruction_set.specs.Machine.{insn_at, slot_count, slots_of};
ghost use Rattle.verifier.specs.declared.rule.Rule.{Rule};
ghost use Rattle.verifier.specs.Structure.{distance_of, goes_on, leads_to, HasEdge, MeetsStructure, IsStructured, IsIllStructured};
ghost use Rattle.verifier.specs.model.Edges.{MeetsBelow, FailsStructure, falls_to, mark, IsSeen};

use crate::refusal::Refusal;
use crate::rule::Rule;
use instruction_set::{Code, Insn, MAX_SLOTS};

// Returns a jump's distance, counted from the slot after it.
fn distance_of(insn: &Insn) -> Option<i32>
    ensures { result ≡ distance_of insn.now }
{
    match insn {
        Insn::Jump { distance } => Some(*distance as i32),
        Insn::JumpLong { distance } => Some(*distance),
        Insn::JumpIf { distance, .. } => Some(*distance as i32),
        _ => None,
    }
}

// Returns whether the next instruction may follow.
fn goes_on(insn: &Insn) -> bool
    ensures { result ≡ goes_on insn.now }
{
    !matches!(insn, Insn::Jump { .. } | Insn::JumpLong { .. } | Insn::Exit)
}

/// Returns the target of the jump at a slot, unless it is backward.
pub(crate) fn leads_to(slot: usize, insn: &Insn) -> Option<usize>
    requires { slot < MAX_SLOTS }
    ensures { result ≡ leads_to slot insn.now }
{
    match distance_of(insn) {
        Some(distance) if distance >= 0 => Some(slot + 1 + distance as usize),
        _ => None,
    }
}

// Returns the slot of the next instruction, if it may follow.
fn falls_to(slot: usize, insn: &Insn) -> Option<usize>
    requires { slot < MAX_SLOTS }
    ensures { result ≡ falls_to slot insn.now }
{
    if goes_on(insn) {
        Some(slot + insn.slots())
    } else {
        None
    }
}

// Returns the first of the rules 10 to 12 that an instruction fails.
fn jump_fault(code: &Code, slot: usize, insn: &Insn) -> Option<Rule>
    requires { slot < slot_count code.now }
    ensures { MatchOption result (MeetsBelow code.now slot insn.now 13)
        (λ rule. FailsStructure code.now slot insn.now rule) }
{
    if distance_of(insn).is_none() {
        return None;
    }
    let count = code.slot_count();
    match leads_to(slot, insn) {
        None => Some(Rule::Backward),
        Some(to) if to >= count => Some(Rule::Outside),
        Some(to) if code.begins(to) => None,
        Some(_) => Some(Rule::IntoWide),
    }
}

// Returns the first of the rules 10 to 14 that an instruction fails; `reached` means that it is the first instruction or
// the target of an edge.
fn fault(code: &Code, slot: usize, insn: &Insn, is_reached: bool) -> Option<Rule>
    requires slot { slot < slot_count code.now }
    requires reached { is_reached ≡ true → (slot ≡ 0) ⊎ HasEdge code.now slot }
    requires unreached { is_reached ≡ false → (slot ≡ 0) ⊎ HasEdge code.now slot → ⊥ }
    ensures { MatchOption result ((rule : Rule) → MeetsStructure code.now slot insn.now rule)
        (λ rule. FailsStructure code.now slot insn.now rule) }
{
    if let Some(rule) = jump_fault(code, slot, insn) {
        return Some(rule);
    }
    let count = code.slot_count();
    if goes_on(insn) && slot + insn.slots() >= count {
        return Some(Rule::FallsOff);
    }
    if !is_reached {
        return Some(Rule::NoEdge);
    }
    None
}

fn mark(reached: &mut [bool], to: Option<usize>)
    requires { (k : ℕ) → to ≡ Some k → k < length reached.old }
    ensures { reached.new ≡ mark reached.old to }
{
    if let Some(to) = to {
        reached[to] = true;
    }
}

// Checks the instruction at a slot, and marks its successors as reached.
fn visit(code: &Code, slot: usize, insn: &Insn, reached: &mut [bool]) -> Option<Rule>
    requires slot { slot < slot_count code.now }
    requires is_at { insn_at code.now slot ≡ Some insn.now }
    requires few { slot_count code.now ≤ MAX_SLOTS }
    requires long { length reached.old ≡ MAX_SLOTS }
    requires seen { IsSeen code.now slot reached.old }
    ensures { MatchOption result (IsSeen code.now (slot + slots_of insn.now) reached.new)
        (λ rule. IsIllStructured code.now slot rule) }
{
    if let Some(rule) = fault(code, slot, insn, reached[slot]) {
        return Some(rule);
    }
    mark(reached, falls_to(slot, insn));
    mark(reached, leads_to(slot, insn));
    None
}

/// Returns the first slot whose instruction fails one of the rules 10 to 14, and the least rule that it fails.
///
/// Edges lead forward only, so all edges into a slot are known before its check.
pub(crate) fn check_structure(code: &Code) -> Option<Refusal>
    ensures { MatchOption result (IsStructured code.now) (λ r. IsIllStructured code.now r.slot r.rule) }
{
    // For the proof: it has few slots.
    code.known();
    let mut reached = [false; MAX_SLOTS];
    mark(&mut reached, Some(0));
    let insns = code.insns();
    let mut slot = 0;
    for insn in insns {
        if let Some(rule) = visit(code, slot, insn, &mut reached) {
            return Some(Refusal {
                slot: slot as u32,
                rule,
            });
        }
        slot += insn.slots();
    }
    None
}
