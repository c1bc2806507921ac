//! Domains of sets of words with their laws, two such domains (`Interval` and `Both`), abstract states over any domain,
//! and the pending states of a pass.
#![tactic(auto)]

mod boths;
mod domains;
mod intervals;
mod pending;
mod stack;
mod states;

pub use boths::{Both, both_is_exact_theorem};
pub use domains::Domain;
pub use intervals::Interval;
pub use pending::Pending;
pub use stack::StackState;
pub use states::{RegState, Span, State, state_order_theorem};
