//! Queries for what a side knows.
ghost use Rattle.std.specs.Prelude.{◌≡◌};
ghost use Rattle.c_calls.specs.Answers.{GivesDue, ReadsHandle};
ghost use Rattle.exchange_core.specs.Shown.{shown};
ghost use Rattle.c_calls.specs.Kept.{program_at};
ghost use Rattle.c_calls.specs.Queries.{live_after, live_at, state_of, withdrawn_at};

use crate::side_handle::HealSide;
use c_calls::{EMPTY_HANDLE, HealName, HealRow, HealSideState, give};

/// Returns what the side knows.
///
/// Returns 91 for an empty handle.
#[unsafe(no_mangle)]
pub extern "C" fn heal_side_query(side: &mut HealSide, state: &mut HealSideState) -> u32
    ensures { ReadsHandle side.old.half side.new.half (λ held n. (n ≡ 0) × (state.new ≡ state_of (shown held.side)))
        (state.new ≡ state.old) result }
{
    match side.held() {
        Some(half) => {
            *state = half.state();
            0
        }
        None => EMPTY_HANDLE,
    }
}

/// Returns the name that the side withdrew in the open exchange as number `i`, from 0.
///
/// Returns 91 for an empty handle, and 92 for an index out of range; without an open exchange every index is.
#[unsafe(no_mangle)]
pub extern "C" fn heal_side_withdrawn(side: &mut HealSide, i: usize, name: &mut HealName) -> u32
    ensures { ReadsHandle side.old.half side.new.half (λ held. GivesDue (withdrawn_at i held) (λ found. name.new ≡ found)
        (name.new ≡ name.old)) (name.new ≡ name.old) result }
{
    match side.held() {
        Some(half) => give(half.withdrawn(i), name),
        None => EMPTY_HANDLE,
    }
}

/// Returns row `i` of the side's table in the order of names, from 0, without the withdrawn ones.
///
/// Returns 91 for an empty handle, and 92 for an index out of range.
#[unsafe(no_mangle)]
pub extern "C" fn heal_side_live(side: &mut HealSide, i: usize, row: &mut HealRow) -> u32
    ensures { ReadsHandle side.old.half side.new.half (λ held. GivesDue (live_at i held) (λ found. row.new ≡ found)
        (row.new ≡ row.old)) (row.new ≡ row.old) result }
{
    match side.held() {
        Some(half) => give(half.live(i), row),
        None => EMPTY_HANDLE,
    }
}

/// Returns the first row of the side's table whose name is above this one and isn't withdrawn.
///
/// Returns 91 for an empty handle, 44 for an invalid name, and 92 if there is none.
#[unsafe(no_mangle)]
pub extern "C" fn heal_side_live_after(side: &mut HealSide, name: &[u8], row: &mut HealRow) -> u32
    ensures { ReadsHandle side.old.half side.new.half (λ held. GivesDue (live_after name.now held) (λ found. row.new ≡ found)
        (row.new ≡ row.old)) (row.new ≡ row.old) result }
{
    match side.held() {
        Some(half) => give(half.live_after(name), row),
        None => EMPTY_HANDLE,
    }
}

/// Returns the id of uploaded program `i` in the order of ids, from 0.
///
/// Returns 91 for an empty handle, and 92 for an index out of range.
#[unsafe(no_mangle)]
pub extern "C" fn heal_side_program(side: &mut HealSide, i: usize, id: &mut [u8; 32]) -> u32
    ensures { ReadsHandle side.old.half side.new.half (λ held. GivesDue (program_at i held) (λ found. id.new ≡ found)
        (id.new ≡ id.old)) (id.new ≡ id.old) result }
{
    match side.held() {
        Some(half) => give(half.program(i), id),
        None => EMPTY_HANDLE,
    }
}
