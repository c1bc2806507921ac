//! Programs for contexts of any length: they are loaded, run, and are freed.
ghost use Rattle.std.specs.Prelude.{◌≡◌, ◌⊎◌, List, Err, IsOk, IfOk, IfErr, None};
ghost use Rattle.refusals.specs.Answers.{HasCause, RanOut};
ghost use Rattle.instruction_set.specs.declared.insn.Insn.{Insn};
ghost use Rattle.verifier.specs.Programs.{program_fault_number, IsLoadable, IsLoadFault};
ghost use Rattle.verifier.specs.declared.program_fault.ProgramFault.{ProgramFault};
ghost use Rattle.c_calls.specs.Answers.{ReadsHandle};
ghost use Rattle.heal_c.specs.Sandboxes.{IsLoadedFor, IsLoadFor, IsLoadWithin, Runs};

use crate::sandbox_handle::HealSandbox;
use bpf::{LoadFault, Sandbox, load_sandbox};
use c_calls::{EMPTY_HANDLE, HealEnded, INDEX_OUT_OF_RANGE, OTHER_LENGTH, slot_of};
use refusals::Numbered;
use std::alloc::Global;
use verifier::VerifyFault;

/// Reads bytes as a program for contexts of this length, and puts it into the handle with a memory for its runs. `slot` receives
/// the slot of the refusal, or 0.
///
/// Rejects a length above 65,535 (92), bytes that spell no code (1 to 7) and code that breaks a rule of the verifier (10 to
/// 26). Returns 90 when out of memory.
#[unsafe(no_mangle)]
pub extern "C" fn heal_bpf_load(
    alloc: Global,
    code: &[u8],
    context_len: u32,
    bpf: &mut HealSandbox,
    slot: &mut u32,
) -> u32
    ensures { IsLoadWithin context_len code.now bpf.old.sandbox bpf.new.sandbox result slot.new }
{
    if context_len > 65_535 {
        *slot = 0;
        return INDEX_OUT_OF_RANGE;
    }
    load_for(alloc, code, context_len as u16, bpf, slot)
}

// Reads bytes as a program for contexts of this length, and puts it into the handle.
#[tactic(auto, using(c_calls::specs::laws::Loads::refused_of))]
fn load_for(
    alloc: Global,
    code: &[u8],
    context_len: u16,
    bpf: &mut HealSandbox,
    slot: &mut u32,
) -> u32
    ensures { IsLoadFor context_len code.now bpf.old.sandbox bpf.new.sandbox result slot.new }
{
    match boxed(alloc, code, context_len) {
        Ok(loaded) => {
            bpf.put(loaded);
            *slot = 0;
            0
        }
        Err(fault) => {
            *slot = slot_of(&fault);
            fault.number()
        }
    }
}

// Reads bytes as a program for contexts of this length, on the heap.
fn boxed(alloc: Global, code: &[u8], context_len: u16) -> Result<Box<Sandbox>, LoadFault>
    ensures loaded { IfOk result (λ sandbox. IsLoadedFor context_len code.now sandbox.value) }
    ensures taken { (insns : List Insn) → IsLoadable context_len code.now insns → IsOk result ⊎ RanOut program_fault_number result }
    ensures refused { IfErr result (HasCause program_fault_number (IsLoadFault context_len code.now)) }
    ensures reported { (fault : ProgramFault) → IsLoadFault context_len code.now fault
        → (result ≡ Err fault) ⊎ RanOut program_fault_number result }
{
    let sandbox = load_sandbox(alloc, code, context_len)?;
    match Box::new(alloc, sandbox) {
        Ok(sandbox) => Ok(sandbox),
        Err(_) => Err(LoadFault::Verify(VerifyFault::OutOfMemory)),
    }
}

/// Runs the program on a context.
///
/// Returns 91 for an empty handle, and 93 if the context has another length than the program's.
#[unsafe(no_mangle)]
pub extern "C" fn heal_bpf_run(bpf: &mut HealSandbox, context: &[u8], ended: &mut HealEnded) -> u32
    ensures { ReadsHandle bpf.old.sandbox bpf.new.sandbox
        (λ held n. Runs held context.now ended.old ended.new n) (ended.new ≡ ended.old) result }
{
    match bpf.held() {
        Some(held) => match held.run(context) {
            Some(run) => {
                *ended = HealEnded {
                    r0: run.r0,
                    steps: run.steps,
                    reserved: 0,
                };
                0
            }
            None => OTHER_LENGTH,
        },
        None => EMPTY_HANDLE,
    }
}

/// Frees the program, if the handle holds one, and leaves the handle empty.
#[unsafe(no_mangle)]
pub extern "C" fn heal_bpf_free(alloc: Global, bpf: &mut HealSandbox)
    ensures { bpf.new.sandbox ≡ None }
{
    bpf.take(alloc);
}
