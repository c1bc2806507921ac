//! The memory of runs.
ghost use Rattle.std.specs.Prelude.{◌≡◌, ◌≤◌, ◌++◌, IfOk, drop, length, replicate};

use instruction_set::STACK_LEN;
use std::alloc::{AllocError, Global};
use std::marker::Model;

/// The memory of runs: a context and a stack. One memory serves any number of runs, one after another.
///
/// Contracts see it as the bytes of its context.
#[derive(Debug)]
pub struct Memory {
    pub(crate) bytes: Vec<u8>,
    context_len: u16,
}

// Written out, so that a drop is one call in the proofs of callers.
impl Drop for Memory {
    fn drop(self) {
        let Memory {
            bytes: _,
            context_len: _,
        } = self;
    }
}

impl Model for Memory {
    ghost use Rattle.std.specs.Prelude.{◌≡◌, ℕ, ◌+◌, List, length, take, vec_items};
    ghost use Rattle.instruction_set.specs.Machine.{stack_len};

    ghost Value = { List ℕ };

    ghost view = { λ m. take m.context_len (vec_items m.bytes) };

    ghost invariant = { λ m. length (vec_items m.bytes) ≡ m.context_len + stack_len };
}

impl Memory {
    /// Creates a memory for contexts of this length, whose bytes are zeros.
    ///
    /// It is the only allocation that runs need.
    pub fn new(alloc: Global, context_len: u16) -> Result<Memory, AllocError>
        ensures { IfOk result (λ memory. memory ≡ replicate context_len 0) }
    {
        let bytes = vec![in alloc; 0; context_len as usize + STACK_LEN]?;
        Ok(Memory { bytes, context_len })
    }

    /// Returns the bytes of the context.
    pub fn context(&self) -> &[u8]
        ensures { result.now ≡ self.now }
    {
        &self.bytes[..self.context_len as usize]
    }

    /// Copies a context to the place where runs read it.
    pub fn write(&mut self, context: &[u8])
        requires { length context.now ≡ length self.old }
        ensures { self.new ≡ context.now }
    {
        put_front(&mut self.bytes, context);
    }
}

// Copies bytes to the front.
fn put_front(bytes: &mut [u8], front: &[u8])
    requires { length front.now ≤ length bytes.old }
    ensures { bytes.new ≡ front.now ++ drop (length front.now) bytes.old }
{
    bytes[..front.len()].copy_from_slice(front);
}
