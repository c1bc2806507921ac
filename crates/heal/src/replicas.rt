//! The nodes of a half: replicas, their entries and snapshots as bytes, and logs.

pub use replica::{
    Applied, Edit, Entry, Half, Life, Position, Replica, ReplicaFault, Snapshot, View,
    replicas_theorem,
};
pub use replica_codec::{
    LogFront, ReplicaMessageFault, decode_entry, decode_snapshot, encode_entry, encode_snapshot,
    one_entry_theorem, one_snapshot_theorem, read_front,
};
pub use upload_store::Upload;
