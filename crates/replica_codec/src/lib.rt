//! Entries and snapshots of replicas as bytes: encoded, decoded from untrusted bytes, and found in a log.
#![tactic(auto)]

mod building;
mod edits;
mod entries;
mod fault;
mod frames;
mod log;
mod snapshot_texts;
mod snapshots;
mod stores;
mod texts;
mod theorem;

pub use entries::{decode_entry, encode_entry};
pub use fault::ReplicaMessageFault;
pub use log::{LogFront, read_front};
pub use snapshots::{decode_snapshot, encode_snapshot};
pub use theorem::{one_entry_theorem, one_snapshot_theorem};
