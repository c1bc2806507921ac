//! Loaded programs.
ghost use Rattle.std.specs.Prelude.{◌≡◌, ◌≤◌, List, Ok, Err, IfOk, IfErr, length, replicate};
ghost use Rattle.refusals.specs.Answers.{HasCause, ReturnsOrRunsOut};
ghost use Rattle.instruction_set.specs.declared.insn.Insn.{Insn};
ghost use Rattle.instruction_set.specs.Machine.{IsSafeFor};
ghost use Rattle.verifier.specs.Stores.{code_with_len};
ghost use Rattle.verifier.specs.Programs.{program_fault_number, IsLoadable, IsLoadFault, IsLoadableOver, IsLoadFaultOver};
ghost use Rattle.verifier.specs.declared.program_fault.ProgramFault.{ProgramFault};

use crate::memory::Memory;
use crate::running::{Ended, run_for};
use abstract_value::Domain;
use insn_codec::{decode, one_reading_theorem};
use instruction_set::Code;
use std::alloc::{AllocError, Global};
use std::marker::Model;
use verifier::{Profile, ProgramFault, VerifiedFor, one_verdict_for_theorem, verify_for};

/// A program that is safe on each context of its length: it ends with one answer, in at most as many steps as it has
/// instructions, reads nothing outside its context and its own stack, and writes nothing but that stack.
///
/// Contracts see it as the list of its instructions and the length.
#[derive(Debug)]
pub struct Loaded {
    verified: VerifiedFor,
}

// Written out, so that a drop is one call in the proofs of callers.
impl Drop for Loaded {
    fn drop(self) {
        let Loaded { verified: _ } = self;
    }
}

impl Model for Loaded {
    ghost use Rattle.verifier.specs.Stores.{CodeFor};

    ghost Value = { CodeFor };

    ghost view = { λ loaded. loaded.verified };
}

impl Loaded {
    ghost use Rattle.std.specs.Prelude.{◌≡◌, ◌≤◌, IfOk, length, replicate};
    ghost use Rattle.instruction_set.specs.Machine.{EndsFor, IsSafeFor, meaning_for};
    ghost use Rattle.verifier.specs.Structure.{IsStructured};

    /// Returns the code, which is safe for contexts of its length and has no backward jump.
    pub fn code(&self) -> &Code
        ensures code { result.now ≡ self.now.code }
        ensures safe { IsSafeFor self.now.context_len self.now.code }
        ensures structured { IsStructured self.now.code }
    {
        self.verified.code()
    }

    /// Returns the length of its contexts.
    pub fn context_len(&self) -> u16
        ensures { result ≡ self.now.context_len }
    {
        self.verified.context_len()
    }

    /// Creates a memory for its contexts, whose bytes are zeros.
    pub fn memory(&self, alloc: Global) -> Result<Memory, AllocError>
        ensures { IfOk result (λ memory. memory ≡ replicate self.now.context_len 0) }
    {
        Memory::new(alloc, self.verified.context_len())
    }

    /// Runs the program on a context. Allocates nothing and never fails.
    ///
    /// The memory and the context have the length of its contexts. The result doesn't depend on earlier runs in this
    /// memory.
    pub fn run(&self, memory: &mut Memory, context: &[u8]) -> Ended
        requires memory { length memory.old ≡ self.now.context_len }
        requires context { length context.now ≡ self.now.context_len }
        // It ends with this answer in this number of steps, at every placement.
        ensures ends { EndsFor self.now.context_len self.now.code context.now result.r0 result.steps }
        ensures meaning { result.r0 ≡ meaning_for self.now.context_len self.now.code context.now }
        ensures few { result.steps ≤ length self.now.code }
        ensures kept { memory.new ≡ context.now }
    {
        memory.write(context);
        self.run_written(memory)
    }

    /// Runs the program on the context that the memory holds, as `run` does, and copies nothing. Keeps the context.
    pub fn run_written(&self, memory: &mut Memory) -> Ended
        requires { length memory.old ≡ self.now.context_len }
        // It ends with this answer in this number of steps, at every placement.
        ensures ends { EndsFor self.now.context_len self.now.code memory.old result.r0 result.steps }
        ensures meaning { result.r0 ≡ meaning_for self.now.context_len self.now.code memory.old }
        ensures few { result.steps ≤ length self.now.code }
        ensures kept { memory.new ≡ memory.old }
    {
        run_for(&mut memory.bytes, &self.verified)
    }
}

// Loads bytes over any domain.
fn load_over<D: Domain>(
    alloc: Global,
    bytes: &[u8],
    context_len: u16,
) -> Result<Loaded, ProgramFault>
    ensures accepted { IfOk result (λ loaded. IsLoadableOver D.ops context_len bytes.now loaded.code) }
    ensures length { IfOk result (λ loaded. loaded.context_len ≡ context_len) }
    ensures safe { IfOk result (λ loaded. IsSafeFor context_len loaded.code) }
    ensures taken { (code : List Insn) → IsLoadableOver D.ops context_len bytes.now code
        → ReturnsOrRunsOut program_fault_number result (Ok (code_with_len code context_len)) }
    ensures refused { IfErr result (HasCause program_fault_number (IsLoadFaultOver D.ops context_len bytes.now)) }
    ensures reported { (fault : ProgramFault) → IsLoadFaultOver D.ops context_len bytes.now fault
        → ReturnsOrRunsOut program_fault_number result (Err fault) }
{
    // For the proof: bytes have one reading, and code has one verdict.
    one_reading_theorem();
    one_verdict_for_theorem::<D>();
    let code = decode(alloc, bytes)?;
    let verified = verify_for::<D>(alloc, code, context_len)?;
    // For the proof: verified code is safe.
    verified.code();
    Ok(Loaded { verified })
}

/// Loads untrusted bytes as a program for contexts of this length, from 0 to 65,535 bytes.
///
/// Rejects bytes that spell no code (1 to 7, with the slot from 4 on) and code that breaks a rule of the verifier (10 to
/// 26, with the slot). Returns 90 when out of memory: it allocates the code and one state per pending slot.
pub fn load(alloc: Global, bytes: &[u8], context_len: u16) -> Result<Loaded, ProgramFault>
    // The program is the code that the bytes spell, for contexts of this length.
    ensures accepted { IfOk result (λ loaded. IsLoadable context_len bytes.now loaded.code) }
    ensures length { IfOk result (λ loaded. loaded.context_len ≡ context_len) }
    ensures safe { IfOk result (λ loaded. IsSafeFor context_len loaded.code) }
    // Accepted code is returned, unless memory runs out.
    ensures taken { (code : List Insn) → IsLoadable context_len bytes.now code
        → ReturnsOrRunsOut program_fault_number result (Ok (code_with_len code context_len)) }
    ensures refused { IfErr result (HasCause program_fault_number (IsLoadFault context_len bytes.now)) }
    // The fault of the bytes is returned, unless memory runs out; bytes have at most one.
    ensures reported { (fault : ProgramFault) → IsLoadFault context_len bytes.now fault
        → ReturnsOrRunsOut program_fault_number result (Err fault) }
{
    load_over::<Profile>(alloc, bytes, context_len)
}
