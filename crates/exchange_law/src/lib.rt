//! The exchange of two sides: what each call does, every history of calls and messages, and two theorems over them.
#![tactic(auto)]

mod events;
mod history;

pub use events::events_theorem;
pub use history::history_theorem;
