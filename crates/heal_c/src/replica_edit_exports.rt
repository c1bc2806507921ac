//! The edits of a primary.
ghost use Rattle.std.specs.Prelude.{◌≡◌};
ghost use Rattle.replica.specs.declared.edit.Edit.TheVariants as edit_of;
ghost use Rattle.c_calls.specs.Answers.{OnHandle, ReadsHandle};
ghost use Rattle.c_replicas.specs.Edits.{Makes, MakesIf, MakesLimit, register_edit, unregister_edit};

use crate::message_handle::HealBytes;
use crate::program_handle::HealProgram;
use crate::replica_handle::HealReplica;
use c_calls::{EMPTY_HANDLE, HealRegistration};
use c_replicas::{begin, register, set_limit, unregister, upload};
use std::alloc::Global;

/// Registers a name, and puts the entry into `entry`.
///
/// Returns 91 for an empty handle, 44 for an invalid name, and 76 for an unknown kind of resolver; then 95 if the replica isn't
/// the primary, 99 if no operation number is left, 30 for a registered name, 32 if the table is full, 41 for a program that isn't
/// uploaded, and 42 if the table has other code under its id. Returns 90 when out of memory.
#[unsafe(no_mangle)]
pub extern "C" fn heal_replica_register(
    alloc: Global,
    replica: &mut HealReplica,
    name: &[u8],
    registration: &HealRegistration,
    entry: &mut HealBytes,
) -> u32
    ensures { OnHandle replica.old.replica replica.new.replica
        (λ old new. MakesIf (register_edit name.now registration.now) old new entry.old.message entry.new.message)
        (entry.new.message ≡ entry.old.message) result }
{
    match replica.held() {
        Some(held) => entry.fill(register(held, alloc, name, registration)),
        None => EMPTY_HANDLE,
    }
}

/// Unregisters a name, and puts the entry into `entry`.
///
/// Returns 91 for an empty handle, and 44 for an invalid name; then 95, 99, and 31 for a name that isn't registered. Returns 90
/// when out of memory.
#[unsafe(no_mangle)]
pub extern "C" fn heal_replica_unregister(
    alloc: Global,
    replica: &mut HealReplica,
    name: &[u8],
    entry: &mut HealBytes,
) -> u32
    ensures { OnHandle replica.old.replica replica.new.replica
        (λ old new. MakesIf (unregister_edit name.now) old new entry.old.message entry.new.message)
        (entry.new.message ≡ entry.old.message) result }
{
    match replica.held() {
        Some(held) => entry.fill(unregister(held, alloc, name)),
        None => EMPTY_HANDLE,
    }
}

/// Keeps a loaded program for registrations, and puts the entry into `entry`.
///
/// Returns 91 for an empty handle; then 95, 99, 42 if other code has the id, and 43 for a 257th program. Returns 90 when out of
/// memory.
#[unsafe(no_mangle)]
pub extern "C" fn heal_replica_upload(
    alloc: Global,
    replica: &mut HealReplica,
    program: &mut HealProgram,
    entry: &mut HealBytes,
) -> u32
    ensures { ReadsHandle program.old.program program.new.program (λ loaded. OnHandle replica.old.replica replica.new.replica
        (λ old new. Makes (edit_of.Upload loaded) old new entry.old.message entry.new.message)
        (entry.new.message ≡ entry.old.message))
        ((replica.new.replica ≡ replica.old.replica) × (entry.new.message ≡ entry.old.message)) result }
{
    let Some(loaded) = program.held() else {
        return EMPTY_HANDLE;
    };
    match replica.held() {
        Some(held) => entry.fill(upload(held, alloc, loaded)),
        None => EMPTY_HANDLE,
    }
}

/// Sets how many names registrations may bring the table to, and puts the entry into `entry`.
///
/// Returns 91 for an empty handle, and 92 unless `names` is from 1 to 1,048,576; then 95, 99, and 32 if the table has more names.
/// Returns 90 when out of memory.
#[unsafe(no_mangle)]
pub extern "C" fn heal_replica_limit(
    alloc: Global,
    replica: &mut HealReplica,
    names: usize,
    entry: &mut HealBytes,
) -> u32
    ensures { OnHandle replica.old.replica replica.new.replica
        (λ old new. MakesLimit names old new entry.old.message entry.new.message)
        (entry.new.message ≡ entry.old.message) result }
{
    match replica.held() {
        Some(held) => entry.fill(set_limit(held, alloc, names)),
        None => EMPTY_HANDLE,
    }
}

/// Records the number of the next exchange, and puts the entry into `entry`.
///
/// Returns 91 for an empty handle; then 95, 99, and 35 for a number that isn't above every number recorded so far. Returns 90 when
/// out of memory.
#[unsafe(no_mangle)]
pub extern "C" fn heal_replica_begin(
    alloc: Global,
    replica: &mut HealReplica,
    number: u64,
    entry: &mut HealBytes,
) -> u32
    ensures { OnHandle replica.old.replica replica.new.replica
        (λ old new. Makes (edit_of.Begin number) old new entry.old.message entry.new.message)
        (entry.new.message ≡ entry.old.message) result }
{
    match replica.held() {
        Some(held) => entry.fill(begin(held, alloc, number)),
        None => EMPTY_HANDLE,
    }
}
