//! Replicas: they start, follow one another, and are read.
ghost use Rattle.std.specs.Prelude.{◌≡◌, ◌⊎◌, Some, None, IfOk};
ghost use Rattle.refusals.specs.Answers.{out_of_memory};
ghost use Rattle.replica.specs.Replicas.{new_replica};
ghost use Rattle.c_calls.specs.Answers.{GivesDue, OnHandle, ReadsHandle};
ghost use Rattle.c_calls.specs.Rows.{found_in, row_in, row_in_after};
ghost use Rattle.c_replicas.specs.Exchanges.{Changes, Gets};
ghost use Rattle.c_replicas.specs.Following.{AppliesBytes, FollowsBytes, Leads, Shows};
ghost use Rattle.c_replicas.specs.Positions.{life_of, state_code};

use crate::message_handle::HealBytes;
use crate::replica_handle::HealReplica;
use crate::side_handle::HealSide;
use c_calls::{EMPTY_HANDLE, HealRegistration, HealRow, found_in, give, row_in, row_in_after};
use c_replicas::{
    HealLife, HealPosition, HealReplicaState, apply, change, follow, lead, life_of, side, snapshot,
    state,
};
use refusals::OUT_OF_MEMORY;
use replica::Replica;
use std::alloc::{AllocError, Global};

/// Starts a life of a node: a replica with an empty half, at the start of its first view.
///
/// Returns 90 when out of memory.
#[unsafe(no_mangle)]
pub extern "C" fn heal_replica_start(
    alloc: Global,
    life: &HealLife,
    replica: &mut HealReplica,
) -> u32
    ensures { ((result ≡ 0) × (replica.new.replica ≡ Some (new_replica (life_of life.now))))
        ⊎ ((result ≡ out_of_memory) × (replica.new.replica ≡ replica.old.replica)) }
{
    match started(alloc, life) {
        Ok(made) => {
            replica.put(made);
            0
        }
        Err(_) => OUT_OF_MEMORY,
    }
}

// Starts a replica on the heap.
fn started(alloc: Global, life: &HealLife) -> Result<Box<Replica>, AllocError>
    ensures { IfOk result (λ made. made.value ≡ new_replica (life_of life.now)) }
{
    match Box::new(alloc, Replica::start(alloc, life_of(life))?) {
        Ok(made) => Ok(made),
        Err(_) => Err(AllocError),
    }
}

/// Frees the replica, if the handle holds one, and leaves the handle empty.
#[unsafe(no_mangle)]
pub extern "C" fn heal_replica_free(alloc: Global, replica: &mut HealReplica)
    ensures { replica.new.replica ≡ None }
{
    replica.take(alloc);
}

/// Returns what the replica knows.
///
/// Returns 91 for an empty handle.
#[unsafe(no_mangle)]
pub extern "C" fn heal_replica_query(replica: &mut HealReplica, known: &mut HealReplicaState) -> u32
    ensures { ReadsHandle replica.old.replica replica.new.replica (λ held n. (n ≡ 0) × (known.new ≡ state_code held))
        (known.new ≡ known.old) result }
{
    match replica.held() {
        Some(held) => {
            *known = state(held);
            0
        }
        None => EMPTY_HANDLE,
    }
}

/// Looks a name up.
///
/// Returns 91 for an empty handle, 44 for an invalid name, and 31 for a name that isn't registered.
#[unsafe(no_mangle)]
pub extern "C" fn heal_replica_whereis(
    replica: &mut HealReplica,
    name: &[u8],
    registration: &mut HealRegistration,
) -> u32
    ensures { ReadsHandle replica.old.replica replica.new.replica (λ held. GivesDue (found_in name.now held.half.table)
        (λ found. registration.new ≡ found) (registration.new ≡ registration.old)) (registration.new ≡ registration.old) result }
{
    match replica.held() {
        Some(held) => give(found_in(held.half().table(), name), registration),
        None => EMPTY_HANDLE,
    }
}

/// Returns row `i` of the replica's table in the order of names, from 0.
///
/// Returns 91 for an empty handle, and 92 for an index out of range.
#[unsafe(no_mangle)]
pub extern "C" fn heal_replica_row(replica: &mut HealReplica, i: usize, row: &mut HealRow) -> u32
    ensures { ReadsHandle replica.old.replica replica.new.replica (λ held. GivesDue (row_in i held.half.table)
        (λ found. row.new ≡ found) (row.new ≡ row.old)) (row.new ≡ row.old) result }
{
    match replica.held() {
        Some(held) => give(row_in(held.half().table(), i), row),
        None => EMPTY_HANDLE,
    }
}

/// Returns the first row of the replica's table whose name is above this one.
///
/// Returns 91 for an empty handle, 44 for an invalid name, and 92 if no name is above it.
#[unsafe(no_mangle)]
pub extern "C" fn heal_replica_row_after(
    replica: &mut HealReplica,
    name: &[u8],
    row: &mut HealRow,
) -> u32
    ensures { ReadsHandle replica.old.replica replica.new.replica (λ held. GivesDue (row_in_after name.now held.half.table)
        (λ found. row.new ≡ found) (row.new ≡ row.old)) (row.new ≡ row.old) result }
{
    match replica.held() {
        Some(held) => give(row_in_after(held.half().table(), name), row),
        None => EMPTY_HANDLE,
    }
}

/// Starts a view with the half as it is.
///
/// Returns 91 for an empty handle, and 99 if no view number is left. Needs no memory.
#[unsafe(no_mangle)]
pub extern "C" fn heal_replica_lead(replica: &mut HealReplica) -> u32
    ensures { OnHandle replica.old.replica replica.new.replica Leads (Unit {0}) result }
{
    match replica.held() {
        Some(held) => lead(held),
        None => EMPTY_HANDLE,
    }
}

/// Puts the bytes of a snapshot into `shown`.
///
/// Returns 91 for an empty handle. Returns 90 when out of memory.
#[unsafe(no_mangle)]
pub extern "C" fn heal_replica_snapshot(
    alloc: Global,
    replica: &mut HealReplica,
    shown: &mut HealBytes,
) -> u32
    ensures { ReadsHandle replica.old.replica replica.new.replica (λ held. Shows held shown.old.message shown.new.message)
        (shown.new.message ≡ shown.old.message) result }
{
    match replica.held() {
        Some(held) => shown.fill(snapshot(held, alloc)),
        None => EMPTY_HANDLE,
    }
}

/// Takes the position and the half of a snapshot.
///
/// Returns 91 for an empty handle. Rejects bytes that aren't a snapshot (70 to 84); then returns 98 for one of the latest view
/// that the replica started. Returns 90 when out of memory.
#[unsafe(no_mangle)]
pub extern "C" fn heal_replica_follow(
    alloc: Global,
    replica: &mut HealReplica,
    snapshot: &[u8],
) -> u32
    ensures { OnHandle replica.old.replica replica.new.replica (FollowsBytes snapshot.now) (Unit {0}) result }
{
    match replica.held() {
        Some(held) => follow(held, alloc, snapshot),
        None => EMPTY_HANDLE,
    }
}

/// Applies an entry of the view: carries its edit out if it is the next, and changes nothing if the replica has it.
///
/// Returns 91 for an empty handle. Rejects bytes that aren't an entry (70 to 84); then returns 96 for an entry of another view,
/// 97 if an earlier entry is missing, and what the half refuses. Returns 90 when out of memory.
#[unsafe(no_mangle)]
pub extern "C" fn heal_replica_apply(alloc: Global, replica: &mut HealReplica, entry: &[u8]) -> u32
    ensures { OnHandle replica.old.replica replica.new.replica (AppliesBytes entry.now) (Unit {0}) result }
{
    match replica.held() {
        Some(held) => apply(held, alloc, entry),
        None => EMPTY_HANDLE,
    }
}

/// Puts an idle side with what the replica has into `side`, for an exchange with the other half: side A for 0, side B for 1.
///
/// Returns 91 for an empty handle, 74 for another number, and 32 if the table has more names than the replica's limit. Returns
/// 90 when out of memory.
#[unsafe(no_mangle)]
pub extern "C" fn heal_replica_side(
    alloc: Global,
    replica: &mut HealReplica,
    id: u32,
    made: &mut HealSide,
) -> u32
    ensures { ReadsHandle replica.old.replica replica.new.replica (λ held. Gets id held made.old.half made.new.half)
        (made.new.half ≡ made.old.half) result }
{
    match replica.held() {
        Some(held) => made.fill(side(held, alloc, id)),
        None => EMPTY_HANDLE,
    }
}

/// Starts a view with the table and the greatest number of a side, which an exchange left there. `from` is the position of the
/// replica after `heal_replica_begin`.
///
/// Returns 91 for an empty handle; then 33 if the side's exchange is open, 49 if the replica isn't at `from` any more, and 99 if no
/// view number is left. Returns 90 when out of memory.
#[unsafe(no_mangle)]
pub extern "C" fn heal_replica_change(
    alloc: Global,
    replica: &mut HealReplica,
    from: &HealPosition,
    left: &mut HealSide,
) -> u32
    ensures { ReadsHandle left.old.half left.new.half
        (λ half. OnHandle replica.old.replica replica.new.replica (Changes from.now half) (Unit {0}))
        (replica.new.replica ≡ replica.old.replica) result }
{
    let Some(half) = left.held() else {
        return EMPTY_HANDLE;
    };
    match replica.held() {
        Some(held) => change(held, alloc, from, half),
        None => EMPTY_HANDLE,
    }
}
