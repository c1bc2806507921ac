//! The text of the written stack bytes.
ghost use Rattle.std.specs.Prelude.{◌≡◌, ◌<◌, ◌&&◌, nat_lt, IfOk, string_bytes};
ghost use Rattle.instruction_set.specs.Machine.{stack_len};
ghost use Rattle.abstract_value.specs.StackBytes.{is_written};
ghost use Rattle.explanation.specs.StateTexts.{begins_run, byte_text, ends_run, written_text};

use abstract_value::StackState;
use instruction_set::STACK_LEN;
use std::alloc::{AllocError, Global};

// Checks whether a run of written bytes begins at this byte.
fn begins_run(stack: &StackState, at: usize) -> bool
    requires { at < STACK_LEN }
    ensures { result ≡ begins_run (is_written stack.now) at }
{
    stack.is_written(at) && !(0 < at && stack.is_written(at - 1))
}

// Checks whether a run of written bytes ends with this byte.
fn ends_run(stack: &StackState, at: usize) -> bool
    requires { at < STACK_LEN }
    ensures { result ≡ ends_run (is_written stack.now) at }
{
    stack.is_written(at) && !(at < STACK_LEN - 1 && stack.is_written(at + 1))
}

// Returns the text of a byte: where a run begins, where one ends, or nothing.
fn byte_text(alloc: Global, stack: &StackState, at: usize) -> Result<String, AllocError>
    requires { at < STACK_LEN }
    ensures { IfOk result (λ text. string_bytes text ≡ byte_text (is_written stack.now) at) }
{
    let below = STACK_LEN - at;
    match (begins_run(stack, at), ends_run(stack, at)) {
        (true, true) => format!(in alloc; " written[-{below}]"),
        (true, false) => format!(in alloc; " written[-{below}.."),
        (false, true) => format!(in alloc; "-{below}]"),
        (false, false) => Ok(String::new(alloc)),
    }
}

// Returns the text of the written bytes.
#[tactic(auto, using(crate::proofs::Longer::longer))]
pub(crate) fn written_text(alloc: Global, stack: &StackState) -> Result<String, AllocError>
    ensures { IfOk result (λ text. string_bytes text ≡ written_text (is_written stack.now) stack_len) }
{
    let mut text = String::new(alloc);
    for at in 0..STACK_LEN {
        text.push_str(&byte_text(alloc, stack, at)?)?;
    }
    Ok(text)
}
