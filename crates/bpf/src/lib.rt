//! A verified sandbox: untrusted BPF programs (RFC 9669) that decide over a context of bytes.
//!
//! | step | call |
//! |---|---|
//! | accept or reject a program, once | `load(alloc, bytes, context_len)` gives a `Loaded` |
//! | allocate, once per thread | `loaded.memory(alloc)` gives a `Memory` |
//! | decide, any number of times | `loaded.run(&mut memory, context)` gives an `Ended`: R0 and the number of steps |
//!
//! A context has from 0 to 65,535 bytes, and each program has one length. Programs start with the address of the context in
//! R1 and the address just past a stack of 512 bytes in R10, and answer with a number in R0.
//!
//! A loaded program can't fail: on each context of its length it ends, in at most as many steps as it has instructions,
//! with an answer that depends on the context alone. It reads only its context and the stack bytes that it wrote, writes
//! only the stack, and calls nothing. The verifier accepts exactly the code that fulfils its rules, so a rejection has one
//! cause: its number, and the slot of the instruction.
//!
//! `run_code` and `run_for` run code in a memory of the caller's.
#![tactic(auto)]

mod loaded;
mod memory;
mod running;
mod sandbox;

pub use loaded::{Loaded, load};
pub use memory::Memory;
pub use running::{Ended, one_meaning_for_theorem, run_code, run_for};
pub use sandbox::{Sandbox, load_sandbox};
pub use verifier::ProgramFault as LoadFault;
