//! Runs code that is safe for contexts of a length.
ghost use Rattle.std.specs.Prelude.{◌≡◌, ℕ, ◌<◌, ◌≤◌, ◌^◌, List, length, take};
ghost use Rattle.instruction_set.specs.declared.insn.Insn.{Insn};
ghost use Rattle.instruction_set.specs.Machine.{Placement, EndsWithFor, EndsFor, IsSafeFor, meaning_for};
ghost use Rattle.verifier.specs.Structure.{IsStructured};
ghost use Rattle.bpf.specs.Running.{HasRoomFor};

use instruction_set::{Code, layout_theorem};
use one_step::{Registers, execute};
use verifier::VerifiedFor;

/// The end of a run.
#[derive(Clone, Copy, Debug, PartialEq, Eq)]
pub struct Ended {
    /// The answer: the word in R0 at `exit`.
    pub r0: u64,
    /// The number of executed instructions, including `exit`.
    pub steps: u32,
}

/// Runs safe code in a memory that begins with the context, and has a stack after it unless the code has no stores.
///
/// It never fails. The bytes of the stack don't matter: the code reads no stack byte that it didn't write.
pub fn run_code(memory: &mut [u8], code: &Code, context_len: u16) -> Ended
    requires safe { IsSafeFor context_len code.now }
    requires structured { IsStructured code.now }
    requires room { HasRoomFor context_len code.now memory.old }
    // It ends with this answer in this number of steps, at every placement.
    ensures ends { EndsFor context_len code.now (take context_len memory.old) result.r0 result.steps }
    ensures meaning { result.r0 ≡ meaning_for context_len code.now (take context_len memory.old) }
    ensures few { result.steps ≤ length code.now }
    ensures kept { take context_len memory.new ≡ take context_len memory.old }
{
    // For the proof: code has few slots, and they are laid out as its instructions.
    code.known();
    layout_theorem();
    let mut registers = Registers::start_for(context_len);
    let mut slots = code.slots();
    let mut steps = 0;
    loop {
        steps += 1;
        match execute(&slots[0], slots, &mut registers, memory) {
            Some(next) => slots = next,
            None => {
                return Ended {
                    r0: registers.answer(),
                    steps,
                };
            }
        }
    }
}

/// Runs verified code as `run_code` does, on a context of its length.
pub fn run_for(memory: &mut [u8], verified: &VerifiedFor) -> Ended
    requires room { HasRoomFor verified.now.context_len verified.now.code memory.old }
    // It ends with this answer in this number of steps, at every placement.
    ensures ends { EndsFor verified.now.context_len verified.now.code (take verified.now.context_len memory.old)
        result.r0 result.steps }
    ensures meaning { result.r0
        ≡ meaning_for verified.now.context_len verified.now.code (take verified.now.context_len memory.old) }
    ensures few { result.steps ≤ length verified.now.code }
    ensures kept { take verified.now.context_len memory.new ≡ take verified.now.context_len memory.old }
{
    run_code(memory, verified.code(), verified.context_len())
}

/// States that code ends with one answer in one number of steps at each placement. Does nothing at run time.
pub fn one_meaning_for_theorem()
    ensures one { (len : ℕ) (code : List Insn) (bytes : List ℕ) (p : Placement) (v n w m : ℕ)
        → EndsWithFor len code bytes p v n → EndsWithFor len code bytes p w m → (v ≡ w) × (n ≡ m) }
    // The meaning is the answer with which code ends at every placement.
    ensures meaning { (len : ℕ) → len < 2 ^ 16 → (code : List Insn) (bytes : List ℕ) (v n : ℕ)
        → n ≤ length code → EndsFor len code bytes v n → meaning_for len code bytes ≡ v }
{}
