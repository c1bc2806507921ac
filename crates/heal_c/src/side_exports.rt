//! Sides: they are created, keep programs and names, and are freed.
ghost use Rattle.std.specs.Prelude.{◌≡◌, ◌⊎◌, None, IsSomeAnd, length};
ghost use Rattle.std.specs.FinMap.{len};
ghost use Rattle.refusals.specs.Answers.{out_of_memory};
ghost use Rattle.partition_table.specs.Tables.{max_names};
ghost use Rattle.exchange_core.specs.Shown.{shown, calls};
ghost use Rattle.c_calls.specs.Answers.{GivesDue, GivesDueFirst, OnHandle, ReadsHandle};
ghost use Rattle.c_calls.specs.Kept.{Forgets, GivesCode, id_from};
ghost use Rattle.c_calls.specs.Sides.{side_id, side_within, Registers, Unregisters, Renews, GivesUp, IsNewHalf, IsUpload, found_at, row_after, row_code_at};

use crate::message_handle::HealBytes;
use crate::side_handle::HealSide;
use c_calls::{EMPTY_HANDLE, Half, HealRegistration, HealRow, INDEX_OUT_OF_RANGE, give, side_id};
use clash_record::SideId;
use partition_table::NameLimit;
use refusals::OUT_OF_MEMORY;
use std::alloc::Global;

/// Creates an idle side without names: side A for 0, side B for 1.
///
/// Returns 74 for another number. Returns 90 when out of memory.
#[unsafe(no_mangle)]
pub extern "C" fn heal_side_new(alloc: Global, id: u32, side: &mut HealSide) -> u32
    ensures { GivesDueFirst (side_id id) (λ id. IsSomeAnd side.new.half (IsNewHalf max_names id)) (side.new.half ≡ side.old.half)
        result }
{
    match side_id(id) {
        Ok(id) => new_half(alloc, id, NameLimit::default(), side),
        Err(number) => number,
    }
}

/// Creates an idle side like `heal_side_new`, which may have `names` names: 1 to 1,048,576.
///
/// Returns 74 for another side, and 92 for another number of names: the first that applies. Returns 90 when out of memory.
#[unsafe(no_mangle)]
pub extern "C" fn heal_side_new_within(
    alloc: Global,
    id: u32,
    names: usize,
    side: &mut HealSide,
) -> u32
    ensures { GivesDueFirst (side_within id names) (λ at. IsSomeAnd side.new.half (IsNewHalf at.1 at.0))
        (side.new.half ≡ side.old.half) result }
{
    let id = match side_id(id) {
        Ok(id) => id,
        Err(number) => return number,
    };
    match NameLimit::new(names) {
        Some(limit) => new_half(alloc, id, limit, side),
        None => INDEX_OUT_OF_RANGE,
    }
}

// Puts an idle side of this limit into the handle, or returns 90.
fn new_half(alloc: Global, id: SideId, limit: NameLimit, side: &mut HealSide) -> u32
    ensures { ((result ≡ 0) × IsSomeAnd side.new.half (IsNewHalf limit.names id))
        ⊎ ((result ≡ out_of_memory) × (side.new.half ≡ side.old.half)) }
{
    match Box::new(alloc, Half::new(alloc, id, limit)) {
        Ok(made) => {
            side.put(made);
            0
        }
        Err(_) => OUT_OF_MEMORY,
    }
}

/// Frees the side, if the handle holds one, and leaves the handle empty.
#[unsafe(no_mangle)]
pub extern "C" fn heal_side_free(alloc: Global, side: &mut HealSide)
    ensures { side.new.half ≡ None }
{
    side.take(alloc);
}

/// Verifies a program, keeps it for registrations of this side, and returns its id. `slot` receives the slot of the
/// refusal, or 0.
///
/// Returns 91 for an empty handle. Rejects what `heal_program_load` rejects, an id that other code has (42), and a 257th
/// program (43). Returns 90 when out of memory.
#[unsafe(no_mangle)]
pub extern "C" fn heal_side_upload(
    alloc: Global,
    side: &mut HealSide,
    code: &[u8],
    id: &mut [u8; 32],
    slot: &mut u32,
) -> u32
    ensures { OnHandle side.old.half side.new.half
        (λ old new n. IsUpload code.now old new id.old id.new n slot.new) ((id.new ≡ id.old) × (slot.new ≡ 0)) result }
{
    match side.held() {
        Some(half) => half.upload(alloc, code, id, slot),
        None => {
            *slot = 0;
            EMPTY_HANDLE
        }
    }
}

/// Forgets an uploaded program that no row of the side's table names.
///
/// Returns 91 for an empty handle; then 94 if a row names it, and 41 for an unknown program. Needs no memory.
#[unsafe(no_mangle)]
pub extern "C" fn heal_side_forget(side: &mut HealSide, id: &[u8; 32]) -> u32
    ensures { OnHandle side.old.half side.new.half (Forgets id.now) (Unit {0}) result }
{
    match side.held() {
        Some(half) => half.forget(id),
        None => EMPTY_HANDLE,
    }
}

/// Returns the code of an uploaded program, or of one that a row of the side's table names.
///
/// Returns 91 for an empty handle, and 41 for an unknown program. Returns 90 when out of memory.
#[unsafe(no_mangle)]
pub extern "C" fn heal_side_code(
    alloc: Global,
    side: &mut HealSide,
    id: &[u8; 32],
    code: &mut HealBytes,
) -> u32
    ensures { ReadsHandle side.old.half side.new.half
        (λ held. GivesCode (id_from id.now) held code.old.message code.new.message)
        (code.new.message ≡ code.old.message) result }
{
    match side.held() {
        Some(half) => code.fill(half.code(alloc, id)),
        None => EMPTY_HANDLE,
    }
}

/// Registers a name on an idle side.
///
/// Returns 91 for an empty handle, 44 for an invalid name, and 76 for an unknown kind of resolver; then 30 for a
/// registered name, 32 if the table is full, 33 if an exchange is open, 40 if the journal is full, 41 for a program that
/// isn't uploaded, and 42 if the table has other code under its id. Returns 90 when out of memory.
#[unsafe(no_mangle)]
pub extern "C" fn heal_side_register(
    alloc: Global,
    side: &mut HealSide,
    name: &[u8],
    registration: &HealRegistration,
) -> u32
    ensures { OnHandle side.old.half side.new.half (Registers name.now registration.now) (Unit {0}) result }
{
    match side.held() {
        Some(half) => half.register(alloc, name, registration),
        None => EMPTY_HANDLE,
    }
}

/// Unregisters a name on an idle side.
///
/// Returns 91 for an empty handle, and 44 for an invalid name; then 31 for a name that isn't registered, 33 if an
/// exchange is open, and 40 if the journal is full. Needs no memory.
#[unsafe(no_mangle)]
pub extern "C" fn heal_side_unregister(side: &mut HealSide, name: &[u8]) -> u32
    ensures { OnHandle side.old.half side.new.half (Unregisters name.now) (Unit {0}) result }
{
    match side.held() {
        Some(half) => half.unregister(name),
        None => EMPTY_HANDLE,
    }
}

/// Looks a name up.
///
/// Returns 91 for an empty handle, 44 for an invalid name, and 31 for a name that isn't registered, or that the side
/// withdrew in the open exchange.
#[unsafe(no_mangle)]
pub extern "C" fn heal_side_whereis(
    side: &mut HealSide,
    name: &[u8],
    registration: &mut HealRegistration,
) -> u32
    ensures { ReadsHandle side.old.half side.new.half (λ held. GivesDue (found_at name.now held) (λ found. registration.new ≡ found)
        (registration.new ≡ registration.old)) (registration.new ≡ registration.old) result }
{
    match side.held() {
        Some(half) => give(half.whereis(name), registration),
        None => EMPTY_HANDLE,
    }
}

/// Returns the number of names in the side's table; in an open exchange, with the withdrawn ones.
///
/// Returns 91 for an empty handle.
#[unsafe(no_mangle)]
pub extern "C" fn heal_side_count(side: &mut HealSide, count: &mut usize) -> u32
    ensures { ReadsHandle side.old.half side.new.half (λ held n. (n ≡ 0) × (count.new ≡ len (shown held.side).table))
        (count.new ≡ count.old) result }
{
    match side.held() {
        Some(half) => {
            *count = half.side().table().len();
            0
        }
        None => EMPTY_HANDLE,
    }
}

/// Returns row `i` of the side's table in the order of names, from 0; in an open exchange, with the withdrawn ones.
///
/// Returns 91 for an empty handle, and 92 for an index out of range.
#[unsafe(no_mangle)]
pub extern "C" fn heal_side_row(side: &mut HealSide, i: usize, row: &mut HealRow) -> u32
    ensures { ReadsHandle side.old.half side.new.half (λ held. GivesDue (row_code_at i held) (λ found. row.new ≡ found)
        (row.new ≡ row.old)) (row.new ≡ row.old) result }
{
    match side.held() {
        Some(half) => give(half.row(i), row),
        None => EMPTY_HANDLE,
    }
}

/// Returns the first row of the side's table whose name is above this one; in an open exchange, also a withdrawn one.
/// Row 0 and then the row after each name are the table, each in logarithmic time.
///
/// Returns 91 for an empty handle, 44 for an invalid name, and 92 if no name is above it.
#[unsafe(no_mangle)]
pub extern "C" fn heal_side_row_after(side: &mut HealSide, name: &[u8], row: &mut HealRow) -> u32
    ensures { ReadsHandle side.old.half side.new.half (λ held. GivesDue (row_after name.now held) (λ found. row.new ≡ found)
        (row.new ≡ row.old)) (row.new ≡ row.old) result }
{
    match side.held() {
        Some(half) => give(half.row_after(name), row),
        None => EMPTY_HANDLE,
    }
}

/// Returns the number of events in the side's journal.
///
/// Returns 91 for an empty handle.
#[unsafe(no_mangle)]
pub extern "C" fn heal_side_events(side: &mut HealSide, events: &mut usize) -> u32
    ensures { ReadsHandle side.old.half side.new.half (λ held n. (n ≡ 0) × (events.new ≡ length (calls held.side)))
        (events.new ≡ events.old) result }
{
    match side.held() {
        Some(half) => {
            *events = half.side().events();
            0
        }
        None => EMPTY_HANDLE,
    }
}

/// Starts a fresh journal on an idle side.
///
/// Returns 91 for an empty handle, and 33 if an exchange is open. Needs no memory.
#[unsafe(no_mangle)]
pub extern "C" fn heal_side_renew(side: &mut HealSide) -> u32
    ensures { OnHandle side.old.half side.new.half Renews (Unit {0}) result }
{
    match side.held() {
        Some(half) => half.renew(),
        None => EMPTY_HANDLE,
    }
}

/// Gives the open exchange up, if there is one, and starts a fresh journal, also where the journal is full. Afterwards
/// the side is idle, without the names that it withdrew.
///
/// Returns 91 for an empty handle.
#[unsafe(no_mangle)]
pub extern "C" fn heal_side_give_up(side: &mut HealSide) -> u32
    ensures { OnHandle side.old.half side.new.half GivesUp (Unit {0}) result }
{
    match side.held() {
        Some(half) => {
            half.give_up();
            0
        }
        None => EMPTY_HANDLE,
    }
}
