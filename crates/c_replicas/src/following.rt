//! Views, snapshots and entries.
ghost use Rattle.std.specs.Prelude.{◌≡◌, ℕ, List, Option};
ghost use Rattle.c_calls.specs.Answers.{held_after, returned_number};
ghost use Rattle.c_replicas.specs.Following.{AppliesBytes, AppliesEntry, FollowsBytes, FollowsSnapshot, Leads, Shows};

use c_calls::{Message, boxed, number_of};
use refusals::{Numbered, OUT_OF_MEMORY};
use replica::{Entry, Replica, Snapshot};
use replica_codec::{decode_entry, decode_snapshot, encode_snapshot};
use std::alloc::Global;

/// Starts a view with the half as it is.
pub fn lead(replica: &mut Replica) -> u32
    ensures { Leads replica.old replica.new result }
{
    number_of(&replica.lead())
}

/// Returns the bytes of a snapshot.
#[tactic(auto, using(c_calls::specs::laws::Reading::boxed_spelled))]
pub fn snapshot(replica: &Replica, alloc: Global) -> Result<Box<Message>, u32>
    ensures { (before : Option (List ℕ)) → Shows replica.now before (held_after (λ made. made.value) before result)
        (returned_number (λ n. n) result) }
{
    let Ok(shown) = replica.snapshot() else {
        return Err(OUT_OF_MEMORY);
    };
    match boxed(alloc, encode_snapshot(alloc, &shown)) {
        Ok(message) => Ok(message),
        Err(_) => Err(OUT_OF_MEMORY),
    }
}

/// Takes the position and the half of a snapshot.
pub fn follow(replica: &mut Replica, alloc: Global, bytes: &[u8]) -> u32
    ensures { FollowsBytes bytes.now replica.old replica.new result }
{
    match decode_snapshot(alloc, bytes) {
        Ok(snapshot) => follow_snapshot(replica, &snapshot),
        Err(fault) => fault.number(),
    }
}

// Takes the position and the half of a decoded snapshot.
fn follow_snapshot(replica: &mut Replica, snapshot: &Snapshot) -> u32
    ensures { FollowsSnapshot snapshot.now replica.old replica.new result }
{
    number_of(&replica.follow(snapshot))
}

/// Applies an entry.
#[tactic(auto, using(c_calls::specs::laws::Reading::rejected, c_calls::specs::laws::Reading::spent_answer))]
pub fn apply(replica: &mut Replica, alloc: Global, bytes: &[u8]) -> u32
    ensures { AppliesBytes bytes.now replica.old replica.new result }
{
    match decode_entry(alloc, bytes) {
        Ok(entry) => apply_entry(replica, &entry),
        Err(fault) => fault.number(),
    }
}

// Applies a decoded entry.
fn apply_entry(replica: &mut Replica, entry: &Entry) -> u32
    ensures { AppliesEntry entry.now replica.old replica.new result }
{
    number_of(&replica.apply(entry))
}
