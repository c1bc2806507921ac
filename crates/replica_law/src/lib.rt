//! The law of replicas that follow a primary, for every machine and any number of them.
#![tactic(auto)]

mod law;
mod position;

pub use law::{Replicated, agreement_theorem, lax_rules_theorem};
pub use position::{Life, Position, View};
