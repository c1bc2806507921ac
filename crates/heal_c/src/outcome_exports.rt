//! Outcomes.
ghost use Rattle.std.specs.Prelude.{◌≡◌, None, length};
ghost use Rattle.c_calls.specs.Answers.{GivesDue, ReadsHandle};
ghost use Rattle.c_calls.specs.Outcomes.{clash_code_at, clashes_in, notice_at, withdrawn_of};

use crate::outcome_handle::HealOutcome;
use c_calls::{EMPTY_HANDLE, HealClash, HealName, HealNotice, give};
use std::alloc::Global;

/// Returns the number of the exchange.
///
/// Returns 91 for an empty handle.
#[unsafe(no_mangle)]
pub extern "C" fn heal_outcome_number(outcome: &mut HealOutcome, number: &mut u64) -> u32
    ensures { ReadsHandle outcome.old.outcome outcome.new.outcome (λ held n. (n ≡ 0) × (number.new ≡ held.number))
        (number.new ≡ number.old) result }
{
    match outcome.held() {
        Some(held) => {
            *number = held.number;
            0
        }
        None => EMPTY_HANDLE,
    }
}

/// Returns the number of names in the merged table.
///
/// Returns 91 for an empty handle.
#[unsafe(no_mangle)]
pub extern "C" fn heal_outcome_merged(outcome: &mut HealOutcome, names: &mut usize) -> u32
    ensures { ReadsHandle outcome.old.outcome outcome.new.outcome (λ held n. (n ≡ 0) × (names.new ≡ held.merged))
        (names.new ≡ names.old) result }
{
    match outcome.held() {
        Some(held) => {
            *names = held.merged;
            0
        }
        None => EMPTY_HANDLE,
    }
}

/// Returns name `i`, from 0, of those that a half withdrew, the earliest first: half A for 0, half B for 1.
///
/// Returns 91 for an empty handle, 74 for another half, and 92 for an index out of range.
#[unsafe(no_mangle)]
pub extern "C" fn heal_outcome_withdrawn(
    outcome: &mut HealOutcome,
    half: u32,
    i: usize,
    name: &mut HealName,
) -> u32
    ensures { ReadsHandle outcome.old.outcome outcome.new.outcome
        (λ held. GivesDue (withdrawn_of half i held) (λ found. name.new ≡ found) (name.new ≡ name.old))
        (name.new ≡ name.old) result }
{
    match outcome.held() {
        Some(held) => give(held.withdrawn(half, i), name),
        None => EMPTY_HANDLE,
    }
}

/// Returns the number of clashes.
///
/// Returns 91 for an empty handle.
#[unsafe(no_mangle)]
pub extern "C" fn heal_outcome_clashes(outcome: &mut HealOutcome, clashes: &mut usize) -> u32
    ensures { ReadsHandle outcome.old.outcome outcome.new.outcome
        (λ held n. (n ≡ 0) × (clashes.new ≡ length (clashes_in held))) (clashes.new ≡ clashes.old) result }
{
    match outcome.held() {
        Some(held) => {
            *clashes = held.len();
            0
        }
        None => EMPTY_HANDLE,
    }
}

/// Returns clash `i` in the order of names, from 0.
///
/// Returns 91 for an empty handle, and 92 for an index out of range.
#[unsafe(no_mangle)]
pub extern "C" fn heal_outcome_clash(
    outcome: &mut HealOutcome,
    i: usize,
    clash: &mut HealClash,
) -> u32
    ensures { ReadsHandle outcome.old.outcome outcome.new.outcome
        (λ held. GivesDue (clash_code_at held i) (λ found. clash.new ≡ found) (clash.new ≡ clash.old))
        (clash.new ≡ clash.old) result }
{
    match outcome.held() {
        Some(held) => give(held.clash(i), clash),
        None => EMPTY_HANDLE,
    }
}

/// Returns notice `n`, from 0, of clash `i`.
///
/// Returns 91 for an empty handle, and 92 for an index out of range.
#[unsafe(no_mangle)]
pub extern "C" fn heal_outcome_notice(
    outcome: &mut HealOutcome,
    i: usize,
    n: usize,
    notice: &mut HealNotice,
) -> u32
    ensures { ReadsHandle outcome.old.outcome outcome.new.outcome
        (λ held. GivesDue (notice_at held i n) (λ found. notice.new ≡ found) (notice.new ≡ notice.old))
        (notice.new ≡ notice.old) result }
{
    match outcome.held() {
        Some(held) => give(held.notice(i, n), notice),
        None => EMPTY_HANDLE,
    }
}

/// Frees the outcome, if the handle holds one, and leaves the handle empty.
#[unsafe(no_mangle)]
pub extern "C" fn heal_outcome_free(alloc: Global, outcome: &mut HealOutcome)
    ensures { outcome.new.outcome ≡ None }
{
    outcome.take(alloc);
}
