//! Sides under locks, rounds whose rulings they take, and the meeting of two sides that finished.
#![tactic(auto)]

mod comparing;
mod fault;
mod healed;
mod inbox;
mod laws;
mod meeting;
mod partition;
mod telling;

pub use fault::MeetFault;
pub use healed::Healed;
pub use laws::seen_theorem;
pub use meeting::meet;
pub use partition::Partition;
pub use telling::{Judging, tell_round, tell_round_by};
