//! Accepts safe code by one forward pass over an abstract domain, or returns the first rule that fails; reads untrusted bytes as such
//! code.
#![tactic(auto)]

mod before;
mod checks;
mod kinds;
mod longer_records;
mod memory_access;
mod pointer_moves;
mod program_fault;
mod reading;
mod refusal;
mod rule;
mod structure;
mod transfer;
mod verified;
mod verify_code;
mod wider;

pub use before::{state_before, state_before_for};
pub use longer_records::{SHORTER_RECORD_LEN, longer_context_theorem, longer_record_theorem};
pub use program_fault::ProgramFault;
pub use reading::{Profile, read_program, read_program_over};
pub use refusal::{Refusal, VerifyFault};
pub use rule::Rule;
pub use verified::{Verified, VerifiedFor};
pub use verify_code::{
    one_verdict_for_theorem, one_verdict_theorem, verify, verify_for, verify_peak, verify_peak_for,
};
pub use wider::wider_theorem;
