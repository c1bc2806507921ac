//! What the verifier knows before an instruction, in words: the registers, and the written stack bytes.
#![tactic(auto)]

mod listing;
mod registers;
mod signed_range;
mod stack_bytes;

pub use listing::{explain_at, explain_code};
pub use signed_range::signed_range_theorem;
