//! Bytes that are loaded as a program.
ghost use Rattle.std.specs.Prelude.{◌≡◌, ◌⊎◌, List, Err, IsOk, IfOk, IfErr};
ghost use Rattle.refusals.specs.Answers.{HasCause, RanOut};
ghost use Rattle.instruction_set.specs.declared.insn.Insn.{Insn};
ghost use Rattle.verifier.specs.Programs.{IsAccepted, IsProgramFault, program_fault_number};
ghost use Rattle.verifier.specs.declared.program_fault.ProgramFault.{ProgramFault};
ghost use Rattle.upload_store.specs.Programs.{id_of};
ghost use Rattle.c_calls.specs.Programs.{IsLoadedResolver};

use std::alloc::{AllocError, Global};
use upload_store::Upload;
use verifier::{ProgramFault, Verified, VerifyFault, read_program};

/// Reads bytes as a verified program with its id, on the heap.
///
/// Rejects bytes that spell no code (1 to 7) and code that breaks a rule of the verifier (10 to 26). Returns 90 when out
/// of memory.
pub fn load(alloc: Global, bytes: &[u8]) -> Result<Box<Upload>, ProgramFault>
    ensures loaded { IfOk result (λ program. IsLoadedResolver bytes.now program.value) }
    ensures taken { (code : List Insn) → IsAccepted bytes.now code → IsOk result ⊎ RanOut program_fault_number result }
    ensures refused { IfErr result (HasCause program_fault_number (IsProgramFault bytes.now)) }
    ensures reported { (fault : ProgramFault) → IsProgramFault bytes.now fault
        → (result ≡ Err fault) ⊎ RanOut program_fault_number result }
{
    let program = read_program(alloc, bytes)?;
    match boxed(alloc, bytes, program) {
        Ok(upload) => Ok(upload),
        Err(_) => Err(ProgramFault::Verify(VerifyFault::OutOfMemory)),
    }
}

// Puts a program with the id of its bytes on the heap.
fn boxed(alloc: Global, bytes: &[u8], program: Verified) -> Result<Box<Upload>, AllocError>
    requires { IsAccepted bytes.now program }
    ensures { IfOk result (λ upload. upload.value ≡ record { id = id_of bytes.now; code = program }) }
{
    match Box::new(alloc, Upload::new(alloc, bytes, program)?) {
        Ok(upload) => Ok(upload),
        Err(_) => Err(AllocError),
    }
}
