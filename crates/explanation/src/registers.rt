//! The text of registers.
ghost use Rattle.std.specs.Prelude.{◌≡◌, ◌≤◌, IfOk, string_bytes};
ghost use Rattle.abstract_value.specs.States.{view};
ghost use Rattle.explanation.specs.StateTexts.{contents_text, range_text, held_text, registers_text, span_text};

use crate::signed_range::signed_text;
use abstract_value::{Domain, RegState, Span, State};
use instruction_set::Register;
use std::alloc::{AllocError, Global};

// Returns the text of the numbers from `low` to `high`.
fn range_text(alloc: Global, low: u64, high: u64) -> Result<String, AllocError>
    ensures { IfOk result (λ text. string_bytes text ≡ range_text low high) }
{
    if high <= low {
        format!(in alloc; "{low}")
    } else {
        format!(in alloc; "{low}..{high}")
    }
}

// Returns the text of offsets.
fn span_text(alloc: Global, span: &Span) -> Result<String, AllocError>
    ensures { IfOk result (λ text. string_bytes text ≡ span_text span.now) }
{
    let (lo, hi) = (span.lo, span.hi);
    if hi <= lo {
        format!(in alloc; "[{lo}]")
    } else {
        format!(in alloc; "[{lo}..{hi}]")
    }
}

// Returns the text of what a register may hold.
fn contents_text<D: Domain>(alloc: Global, contents: &RegState<D>) -> Result<String, AllocError>
    ensures { IfOk result (λ text. string_bytes text ≡ contents_text D.ops contents.now) }
{
    match contents {
        RegState::Scalar(words) => {
            let (low, high) = words.bounds();
            let range = range_text(alloc, low, high)?;
            let signed = signed_text(alloc, words)?;
            format!(in alloc; "{range}{signed}")
        }
        RegState::Record(span) => {
            let offsets = span_text(alloc, span)?;
            format!(in alloc; "record{offsets}")
        }
        RegState::Stack(span) => {
            let offsets = span_text(alloc, span)?;
            format!(in alloc; "stack{offsets}")
        }
        RegState::Unreadable => Ok(String::new(alloc)),
    }
}

// Returns the text of a register, or nothing if it can't be read.
fn register_text<D: Domain>(
    alloc: Global,
    number: u8,
    contents: &RegState<D>,
) -> Result<String, AllocError>
    ensures { IfOk result (λ text. string_bytes text ≡ held_text D.ops number contents.now) }
{
    match contents {
        RegState::Unreadable => Ok(String::new(alloc)),
        _ => {
            let held = contents_text(alloc, contents)?;
            format!(in alloc; " r{number}={held}")
        }
    }
}

// Returns the text of the registers.
#[tactic(auto, using(crate::proofs::Longer::longer))]
pub(crate) fn registers_text<D: Domain>(
    alloc: Global,
    state: &State<D>,
) -> Result<String, AllocError>
    ensures { IfOk result (λ text. string_bytes text ≡ registers_text D.ops (view state.now).registers 11) }
{
    let mut text = String::new(alloc);
    for number in 0..11 {
        let contents = state.register(Register { number });
        text.push_str(&register_text(alloc, number, &contents)?)?;
    }
    Ok(text)
}
