//! Executes single instructions on registers and one memory, which holds the record and the stack.
#![tactic(auto)]

mod machine;
mod memory;
mod table;

pub use machine::{Next, Registers};
pub use memory::MEMORY_LEN;
pub use table::execute;
