//! The state before an instruction, which explains what the verifier knows there.
ghost use Rattle.std.specs.Prelude.{◌≡◌, ◌<◌, MatchOption, IfOk};
ghost use Rattle.instruction_set.specs.Machine.{slot_count};
ghost use Rattle.abstract_value.specs.Pending.{boxed_view, held, nothing, peak_of, room};
ghost use Rattle.verifier.specs.Structure.{IsStructured};
ghost use Rattle.verifier.specs.Before.{HasNoState, HasNoStateFor, IsStateBefore, IsStateBeforeFor};

use crate::structure::check_structure;
use crate::verify_code::pass;
use abstract_value::{Domain, Pending, State};
use instruction_set::{Code, RECORD_LEN};
use std::alloc::{AllocError, Global};

/// Returns the state before the instruction at a slot, in the least assignment that fulfils the rules before it.
///
/// Returns `None` if that assignment has no state there, or if a rule fails before the slot. Allocates like `verify`.
pub fn state_before<D: Domain>(
    alloc: Global,
    code: &Code,
    slot: usize,
) -> Result<Option<Box<State<D>>>, AllocError>
    ensures { IfOk result (λ found. MatchOption (boxed_view found)
        (HasNoState D.ops code.now slot) (IsStateBefore D.ops code.now slot)) }
{
    state_before_for(alloc, code, slot, RECORD_LEN as u16)
}

/// Returns the state before the instruction at a slot, in the least assignment that fulfils the rules before it, for
/// contexts of this length.
///
/// Returns `None` if that assignment has no state there, or if a rule fails before the slot. Allocates like `verify_for`.
pub fn state_before_for<D: Domain>(
    alloc: Global,
    code: &Code,
    slot: usize,
    context_len: u16,
) -> Result<Option<Box<State<D>>>, AllocError>
    ensures { IfOk result (λ found. MatchOption (boxed_view found)
        (HasNoStateFor context_len D.ops code.now slot) (IsStateBeforeFor context_len D.ops code.now slot)) }
{
    if slot >= code.slot_count() {
        return Ok(None);
    }
    if check_structure(code).is_some() {
        return Ok(None);
    }
    let mut pending = Pending::new(alloc, code.slot_count())?;
    find_state(alloc, code, context_len, slot, &mut pending)
}

// Passes over the instructions before a slot, and returns its state.
fn find_state<D: Domain>(
    alloc: Global,
    code: &Code,
    context_len: u16,
    slot: usize,
    pending: &mut Pending<D>,
) -> Result<Option<Box<State<D>>>, AllocError>
    requires inside { slot < slot_count code.now }
    requires structured { IsStructured code.now }
    requires room { room pending.old ≡ slot_count code.now }
    requires none { held pending.old ≡ nothing }
    requires peak { peak_of pending.old ≡ 0 }
    ensures { IfOk result (λ found. MatchOption (boxed_view found)
        (HasNoStateFor context_len D.ops code.now slot) (IsStateBeforeFor context_len D.ops code.now slot)) }
{
    match pass(alloc, code, context_len, slot, pending)? {
        Some(_) => Ok(None),
        None => Ok(pending.take(slot)),
    }
}
