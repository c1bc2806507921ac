//! Loaded programs with a memory for their runs.
ghost use Rattle.std.specs.Prelude.{◌≡◌, ◌≢◌, List, Ok, Err, IfOk, IfErr, length};
ghost use Rattle.refusals.specs.Answers.{HasCause, ReturnsOrRunsOut};
ghost use Rattle.instruction_set.specs.declared.insn.Insn.{Insn};
ghost use Rattle.instruction_set.specs.Machine.{IsSafeFor};
ghost use Rattle.verifier.specs.Stores.{code_with_len};
ghost use Rattle.verifier.specs.Programs.{program_fault_number, IsLoadable, IsLoadFault};
ghost use Rattle.verifier.specs.declared.program_fault.ProgramFault.{ProgramFault};

use crate::loaded::{Loaded, load};
use crate::memory::Memory;
use crate::running::Ended;
use std::alloc::{AllocError, Global};
use std::marker::Model;
use verifier::{ProgramFault, VerifyFault};

/// A loaded program with its own memory.
///
/// Contracts see it as the list of the program's instructions and the length of its contexts.
#[derive(Debug)]
pub struct Sandbox {
    loaded: Loaded,
    memory: Memory,
}

// Written out, so that a drop is one call in the proofs of callers.
impl Drop for Sandbox {
    fn drop(self) {
        let Sandbox {
            loaded: _,
            memory: _,
        } = self;
    }
}

impl Model for Sandbox {
    ghost use Rattle.std.specs.Prelude.{◌≡◌, length};
    ghost use Rattle.verifier.specs.Stores.{CodeFor};

    ghost Value = { CodeFor };

    ghost view = { λ sandbox. sandbox.loaded };

    ghost invariant = { λ sandbox. length sandbox.memory ≡ sandbox.loaded.context_len };
}

impl Sandbox {
    ghost use Rattle.std.specs.Prelude.{◌≡◌, IfOk, IfSome, MatchOption, length};
    ghost use Rattle.bpf.specs.Running.{IsRun};

    /// Gives a loaded program a memory.
    pub fn new(alloc: Global, loaded: Loaded) -> Result<Sandbox, AllocError>
        ensures { IfOk result (λ sandbox. sandbox ≡ loaded) }
    {
        let memory = loaded.memory(alloc)?;
        Ok(Sandbox { loaded, memory })
    }

    /// Returns the length of its contexts.
    pub fn context_len(&self) -> u16
        ensures { result ≡ self.now.context_len }
    {
        self.loaded.context_len()
    }

    /// Runs the program on a context. Allocates nothing. Returns `None` if the context has another length.
    ///
    /// The result doesn't depend on earlier runs.
    pub fn run(&mut self, context: &[u8]) -> Option<Ended>
        ensures ended { MatchOption result (length context.now ≢ self.old.context_len) (IsRun self.old context.now) }
        ensures same { self.new ≡ self.old }
    {
        if context.len() != self.loaded.context_len() as usize {
            return None;
        }
        Some(self.loaded.run(&mut self.memory, context))
    }
}

/// Loads untrusted bytes as a program with a memory, as `load` does and with its refusals.
pub fn load_sandbox(alloc: Global, bytes: &[u8], context_len: u16) -> Result<Sandbox, ProgramFault>
    // The program is the code that the bytes spell, for contexts of this length.
    ensures accepted { IfOk result (λ sandbox. IsLoadable context_len bytes.now sandbox.code) }
    ensures length { IfOk result (λ sandbox. sandbox.context_len ≡ context_len) }
    ensures safe { IfOk result (λ sandbox. IsSafeFor context_len sandbox.code) }
    // Accepted code is returned, unless memory runs out.
    ensures taken { (code : List Insn) → IsLoadable context_len bytes.now code
        → ReturnsOrRunsOut program_fault_number result (Ok (code_with_len code context_len)) }
    ensures refused { IfErr result (HasCause program_fault_number (IsLoadFault context_len bytes.now)) }
    // The fault of the bytes is returned, unless memory runs out; bytes have at most one.
    ensures reported { (fault : ProgramFault) → IsLoadFault context_len bytes.now fault
        → ReturnsOrRunsOut program_fault_number result (Err fault) }
{
    let loaded = load(alloc, bytes, context_len)?;
    match Sandbox::new(alloc, loaded) {
        Ok(sandbox) => Ok(sandbox),
        Err(_) => Err(ProgramFault::Verify(VerifyFault::OutOfMemory)),
    }
}
