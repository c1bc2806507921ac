//! The calls of the C library, on what its handles hold: programs, halves, messages and outcomes.
//!
//! Each call returns a value or a number: that of its refusal. The crate `heal_c` has the handles and the exports.
#![tactic(auto)]

mod answer;
mod codes;
mod half;
mod kept;
mod knowledge;
mod loading;
mod marking;
mod message;
mod negotiation;
mod outcome;
mod registry;
mod rows;

pub use answer::{
    EMPTY_HANDLE, HEALING, INDEX_OUT_OF_RANGE, INVALID_NAME, NOT_REGISTERED, OTHER_LENGTH,
    OTHER_MESSAGE, STILL_NAMED, UNKNOWN_PROGRAM, UNKNOWN_RESOLVER, UNKNOWN_SIDE, give, number_of,
    slot_in, slot_of,
};
pub use codes::{
    HealClash, HealEnded, HealFacts, HealName, HealNotice, HealOwner, HealRegistration, HealRow,
    facts_of, name_code, name_of, notice_code, registration_code, registration_of, row_code,
    side_code, side_id, verdict_code,
};
pub use half::Half;
pub use knowledge::HealSideState;
pub use loading::load;
pub use message::{Message, boxed, copy};
pub use outcome::{Mark, Outcome};
pub use rows::{found_in, row_in, row_in_after};
