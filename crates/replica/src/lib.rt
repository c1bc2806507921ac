//! A node's copy of a half, and the theorem over every history of any number of them.
#![tactic(auto)]

mod edit;
mod fault;
mod half;
mod messages;
mod replica;
mod theorem;

pub use edit::Edit;
pub use fault::ReplicaFault;
pub use half::Half;
pub use messages::{Entry, Snapshot};
pub use replica::{Applied, Replica};
pub use replica_law::{Life, Position, View};
pub use theorem::replicas_theorem;
