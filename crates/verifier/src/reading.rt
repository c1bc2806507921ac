//! Reads bytes as code that the verifier accepts.
ghost use Rattle.std.specs.Prelude.{List, Ok, Err, IfOk, IfErr};
ghost use Rattle.refusals.specs.Answers.{HasCause, ReturnsOrRunsOut};
ghost use Rattle.instruction_set.specs.declared.insn.Insn.{Insn};
ghost use Rattle.instruction_set.specs.Machine.{IsSafe};
ghost use Rattle.verifier.specs.Programs.{program_fault_number, IsAccepted, IsAcceptedOver, IsProgramFault, IsProgramFaultOver};
ghost use Rattle.verifier.specs.declared.program_fault.ProgramFault.{ProgramFault};

use crate::program_fault::ProgramFault;
use crate::verified::Verified;
use crate::verify_code::{one_verdict_theorem, verify};
use abstract_value::{Both, Domain};
use insn_codec::{decode, one_reading_theorem};
use std::alloc::Global;

/// The domain over which programs are verified: ranges of words, in their own order and in that of signed numbers.
pub type Profile = Both;

/// Reads untrusted bytes as a program that is verified over any domain.
///
/// Rejects bytes that spell no code (1 to 7, with the slot from 4 on) and code that breaks a rule of the verifier (10 to
/// 26, with the slot). Returns 90 when out of memory: it allocates the code and one state per pending slot.
pub fn read_program_over<D: Domain>(alloc: Global, bytes: &[u8]) -> Result<Verified, ProgramFault>
    ensures accepted { IfOk result (IsAcceptedOver D.ops bytes.now) }
    ensures safe { IfOk result (λ program. IsSafe program) }
    // Accepted code is returned, unless memory runs out.
    ensures taken { (code : List Insn) → IsAcceptedOver D.ops bytes.now code
        → ReturnsOrRunsOut program_fault_number result (Ok code) }
    ensures refused { IfErr result (HasCause program_fault_number (IsProgramFaultOver D.ops bytes.now)) }
    // The fault of the bytes is returned, unless memory runs out; bytes have at most one.
    ensures reported { (fault : ProgramFault) → IsProgramFaultOver D.ops bytes.now fault
        → ReturnsOrRunsOut program_fault_number result (Err fault) }
{
    // For the proof: bytes have one reading, and code has one verdict.
    one_reading_theorem();
    one_verdict_theorem::<D>();
    let code = decode(alloc, bytes)?;
    let program = verify::<D>(alloc, code)?;
    // For the proof: verified code is safe.
    program.code();
    Ok(program)
}

/// Reads untrusted bytes as a verified program.
///
/// Rejects bytes that spell no code (1 to 7, with the slot from 4 on) and code that breaks a rule of the verifier (10 to
/// 26, with the slot). Returns 90 when out of memory: it allocates the code and one state per pending slot.
pub fn read_program(alloc: Global, bytes: &[u8]) -> Result<Verified, ProgramFault>
    ensures accepted { IfOk result (IsAccepted bytes.now) }
    ensures safe { IfOk result (λ program. IsSafe program) }
    // Accepted code is returned, unless memory runs out.
    ensures taken { (code : List Insn) → IsAccepted bytes.now code
        → ReturnsOrRunsOut program_fault_number result (Ok code) }
    ensures refused { IfErr result (HasCause program_fault_number (IsProgramFault bytes.now)) }
    // The fault of the bytes is returned, unless memory runs out; bytes have at most one.
    ensures reported { (fault : ProgramFault) → IsProgramFault bytes.now fault
        → ReturnsOrRunsOut program_fault_number result (Err fault) }
{
    read_program_over::<Profile>(alloc, bytes)
}
