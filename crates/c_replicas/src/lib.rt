//! The calls of the C library on a replica, and on logs of replicas' messages.
//!
//! Each call returns a value or a number: that of its refusal. The crate `heal_c` has the handles and the exports.
#![tactic(auto)]

mod edits;
mod exchanges;
mod following;
mod logs;
mod positions;

pub use edits::{begin, register, set_limit, unregister, upload};
pub use exchanges::{change, side};
pub use following::{apply, follow, lead, snapshot};
pub use logs::{HealLogFront, log_front};
pub use positions::{HealLife, HealPosition, HealReplicaState, life_of, position_of, state};
