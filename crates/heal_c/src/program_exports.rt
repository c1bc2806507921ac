//! Programs: they are loaded, judge records, and are freed.
ghost use Rattle.std.specs.Prelude.{◌≡◌, None};
ghost use Rattle.c_calls.specs.Answers.{ReadsHandle};
ghost use Rattle.c_calls.specs.Programs.{IsLoad, AnswersRecord};

use crate::program_handle::HealProgram;
use c_calls::{EMPTY_HANDLE, HealEnded, load, slot_of};
use clash_record::{ProgramId, record_of};
use interpreter::run;
use refusals::Numbered;
use std::alloc::Global;

/// Reads bytes as a verified program, and puts it into the handle. `slot` receives the slot of the refusal, or 0.
///
/// Rejects bytes that spell no code (1 to 7) and code that breaks a rule of the verifier (10 to 26). Returns 90 when out
/// of memory.
#[unsafe(no_mangle)]
#[tactic(auto, using(c_calls::specs::laws::Loads::load_refused))]
pub extern "C" fn heal_program_load(
    alloc: Global,
    code: &[u8],
    program: &mut HealProgram,
    slot: &mut u32,
) -> u32
    ensures { IsLoad code.now program.old.program program.new.program result slot.new }
{
    match load(alloc, code) {
        Ok(loaded) => {
            program.put(loaded);
            *slot = 0;
            0
        }
        Err(fault) => {
            *slot = slot_of(&fault);
            fault.number()
        }
    }
}

/// Runs the program on the record of a clash.
///
/// Returns 91 for an empty handle.
#[unsafe(no_mangle)]
pub extern "C" fn heal_program_judge(
    program: &mut HealProgram,
    record: &[u8; 160],
    ended: &mut HealEnded,
) -> u32
    ensures { ReadsHandle program.old.program program.new.program
        (λ held n. (n ≡ 0) × AnswersRecord held «record».now ended.new) (ended.new ≡ ended.old) result }
{
    match program.held() {
        Some(held) => {
            let run = run(held.program(), &record_of(*record));
            *ended = HealEnded {
                r0: run.r0,
                steps: run.steps,
                reserved: 0,
            };
            0
        }
        None => EMPTY_HANDLE,
    }
}

/// Returns the program's id: the SHA-256 digest of its bytes.
///
/// Returns 91 for an empty handle.
#[unsafe(no_mangle)]
pub extern "C" fn heal_program_id(program: &mut HealProgram, id: &mut [u8; 32]) -> u32
    ensures { ReadsHandle program.old.program program.new.program
        (λ held n. (n ≡ 0) × (id.new ≡ held.id.0)) (id.new ≡ id.old) result }
{
    match program.held() {
        Some(held) => {
            let ProgramId(bytes) = held.id();
            *id = bytes;
            0
        }
        None => EMPTY_HANDLE,
    }
}

/// Frees the program, if the handle holds one, and leaves the handle empty.
#[unsafe(no_mangle)]
pub extern "C" fn heal_program_free(alloc: Global, program: &mut HealProgram)
    ensures { program.new.program ≡ None }
{
    program.take(alloc);
}
