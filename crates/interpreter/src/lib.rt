//! Runs verified code on a clash record: its answer is the code's meaning.
#![tactic(auto)]

mod running;
mod scratch;

pub use bpf::Ended;
pub use running::{one_meaning_theorem, run, run_in, run_written};
pub use scratch::Scratch;
