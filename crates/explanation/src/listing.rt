//! The text of instructions, each after the state before it.
ghost use Rattle.std.specs.Prelude.{◌≡◌, IfOk, string_bytes};
ghost use Rattle.instruction_set.specs.Machine.{slot_count};
ghost use Rattle.abstract_value.specs.Pending.{boxed_view};
ghost use Rattle.abstract_value.specs.States.{view};
ghost use Rattle.explanation.specs.Listings.{ListsCode, IsSlotText, IsTextAt};
ghost use Rattle.explanation.specs.StateTexts.{found_text, slot_text, state_text};

use crate::registers::registers_text;
use crate::stack_bytes::written_text;
use abstract_value::{Domain, State};
use assembler_text::Listing;
use instruction_set::{Code, Insn};
use std::alloc::{AllocError, Global};
use verifier::state_before;

// Returns the line of a state.
fn state_text<D: Domain>(alloc: Global, state: &State<D>) -> Result<String, AllocError>
    ensures { IfOk result (λ text. string_bytes text ≡ state_text D.ops (view state.now)) }
{
    let registers = registers_text(alloc, state)?;
    let written = written_text(alloc, state.stack())?;
    format!(in alloc; "     {registers}{written}\n")
}

// Returns the line of a state that was found, or nothing.
fn found_text<D: Domain>(alloc: Global, found: &Option<Box<State<D>>>) -> Result<String, AllocError>
    ensures { IfOk result (λ text. string_bytes text ≡ found_text D.ops (boxed_view found.now)) }
{
    match found {
        Some(state) => state_text(alloc, state),
        None => Ok(String::new(alloc)),
    }
}

// Returns the text of the instruction at a slot, after the state that the verifier has before it, if any.
fn explain_slot<D: Domain>(
    alloc: Global,
    code: &Code,
    slot: usize,
    insn: Insn,
) -> Result<String, AllocError>
    ensures { IfOk result (λ text. IsSlotText D.ops code.now slot insn (string_bytes text)) }
{
    let found = state_before::<D>(alloc, code, slot)?;
    let state = found_text(alloc, &found)?;
    let listing = Listing(insn);
    format!(in alloc; "{state}{slot}: {listing}\n")
}

/// Returns the text of the instruction at a slot, after the state that the verifier has before it, if any.
///
/// Returns nothing if no instruction begins at the slot.
pub fn explain_at<D: Domain>(alloc: Global, code: &Code, slot: usize) -> Result<String, AllocError>
    ensures { IfOk result (λ text. IsTextAt D.ops code.now slot (string_bytes text)) }
{
    // For the proof: it has few slots.
    code.known();
    let insns = code.insns();
    let mut at = 0;
    for &insn in insns {
        if at == slot {
            return explain_slot::<D>(alloc, code, at, insn);
        }
        at += insn.slots();
    }
    Ok(String::new(alloc))
}

/// Returns the text of code: each instruction after the state that the verifier has before it.
///
/// An instruction that is never reached has no state, and so has each instruction after one that fails a rule.
pub fn explain_code<D: Domain>(alloc: Global, code: &Code) -> Result<String, AllocError>
    ensures { IfOk result (λ text. ListsCode D.ops code.now code.now (string_bytes text)) }
{
    // For the proof: it has few slots.
    code.known();
    let insns = code.insns();
    let mut text = String::new(alloc);
    let mut at = 0;
    for &insn in insns {
        text.push_str(&explain_slot::<D>(alloc, code, at, insn)?)?;
        at += insn.slots();
    }
    Ok(text)
}
