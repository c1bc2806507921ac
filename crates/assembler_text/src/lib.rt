//! Assembles text to code and disassembles code to text.
#![tactic(auto)]

mod assembler;
mod disassembler;
mod faults;
mod lexer;
mod line;
mod mnemonic;
mod number;
mod operand;

pub use assembler::{assemble, line_theorem, text_theorem};
pub use disassembler::{Listing, disassemble};
pub use faults::{Fault, LineFault};
