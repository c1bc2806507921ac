//! Names, registrations and sides, their orders, and the record of a clash.
//!
//! Nothing here allocates.
#![tactic(auto)]

mod halves;
mod names;
mod orders;
mod records;
mod registrations;
mod side_id;

pub use halves::{Uptimes, Withdrawal};
pub use instruction_set::RECORD_LEN;
pub use names::naming::name;
pub use names::{BadName, NAME_LEN, Name};
pub use orders::order_theorem;
pub use records::{ClashRecord, Contender, Facts, record, record_of, set_word, write_record};
pub use registrations::{
    Builtin, OWNER_TEXT_LEN, Owner, ProgramId, Registration, ResolverId, Terms,
};
pub use side_id::SideId;
