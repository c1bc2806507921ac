//! Exchanges.
ghost use Rattle.std.specs.Prelude.{◌≡◌};
ghost use Rattle.c_calls.specs.Answers.{OnHandle};
ghost use Rattle.c_calls.specs.Exchanges.{BeginsExchange, Hears, Settles, Withdraws, Closes, HearsList, Finishes, Abandons};

use crate::message_handle::HealBytes;
use crate::outcome_handle::HealOutcome;
use crate::side_handle::HealSide;
use c_calls::EMPTY_HANDLE;
use std::alloc::Global;

/// Opens an exchange, and puts the offer to be sent into `offer`.
///
/// Returns 91 for an empty handle; then 33 if an exchange is open, 35 for a number that isn't above every number this
/// side began, and 40 if the journal is full. Returns 90 when out of memory.
#[unsafe(no_mangle)]
pub extern "C" fn heal_side_begin(
    alloc: Global,
    side: &mut HealSide,
    number: u64,
    seed: u64,
    uptime: u64,
    offer: &mut HealBytes,
) -> u32
    ensures { OnHandle side.old.half side.new.half
        (λ old new. BeginsExchange number seed uptime old new offer.old.message offer.new.message)
        (offer.new.message ≡ offer.old.message) result }
{
    match side.held() {
        Some(half) => offer.fill(half.begin(alloc, number, seed, uptime)),
        None => EMPTY_HANDLE,
    }
}

/// Hears the other side's offer.
///
/// Returns 91 for an empty handle. Judges the head first: 70, 71, 74 or 82; then 34 if no exchange is open; then the least of
/// 40, a full journal, 45, another number, and 46, an offer of the side itself. Then 70 to 82 if the other bytes aren't those
/// of an offer; then 83 for an offer that differs from the one that was heard; for the first one 36 if the seeds differ, 37 if
/// both tables have more names together than the side may have, 40, and 42 if the tables have two codes under one id.
/// Returns 90 when out of memory.
#[unsafe(no_mangle)]
pub extern "C" fn heal_side_hear(alloc: Global, side: &mut HealSide, offer: &[u8]) -> u32
    ensures { OnHandle side.old.half side.new.half (Hears offer.now) (Unit {0}) result }
{
    match side.held() {
        Some(half) => half.hear(alloc, offer),
        None => EMPTY_HANDLE,
    }
}

/// Judges every clash that has no ruling, at the word that both halves judge it at.
///
/// Returns 91 for an empty handle; then 34 if no exchange is open, 39 if the other's offer isn't heard, and 40 if the
/// journal has no room. Needs no memory.
#[unsafe(no_mangle)]
pub extern "C" fn heal_side_settle(side: &mut HealSide) -> u32
    ensures { OnHandle side.old.half side.new.half Settles (Unit {0}) result }
{
    match side.held() {
        Some(half) => half.settle(),
        None => EMPTY_HANDLE,
    }
}

/// Withdraws a name in the open exchange.
///
/// Returns 91 for an empty handle, and 44 for an invalid name; then 31 for a name that isn't in the table, 34 if no
/// exchange is open, 40 if the journal is full, 47 for a name that is already withdrawn, and 48 if the list is closed.
/// Returns 90 when out of memory.
#[unsafe(no_mangle)]
pub extern "C" fn heal_side_withdraw(side: &mut HealSide, name: &[u8]) -> u32
    ensures { OnHandle side.old.half side.new.half (Withdraws name.now) (Unit {0}) result }
{
    match side.held() {
        Some(half) => half.withdraw(name),
        None => EMPTY_HANDLE,
    }
}

/// Closes the list of withdrawn names, and puts the list to be sent into `list`.
///
/// Returns 91 for an empty handle; then 34 if no exchange is open, 40 if the journal is full, and 48 if the list is
/// already closed. Returns 90 when out of memory.
#[unsafe(no_mangle)]
pub extern "C" fn heal_side_close_list(
    alloc: Global,
    side: &mut HealSide,
    list: &mut HealBytes,
) -> u32
    ensures { OnHandle side.old.half side.new.half
        (λ old new. Closes old new list.old.message list.new.message) (list.new.message ≡ list.old.message) result }
{
    match side.held() {
        Some(half) => list.fill(half.close_list(alloc)),
        None => EMPTY_HANDLE,
    }
}

/// Hears the other side's list.
///
/// Returns 91 for an empty handle. Judges the head like `heal_side_hear`; then returns 70 to 82 if the other bytes aren't those
/// of a list, 83 for a list that differs from the one that was heard, and 40. Returns 90 when out of memory.
#[unsafe(no_mangle)]
pub extern "C" fn heal_side_hear_list(alloc: Global, side: &mut HealSide, list: &[u8]) -> u32
    ensures { OnHandle side.old.half side.new.half (HearsList list.now) (Unit {0}) result }
{
    match side.held() {
        Some(half) => half.hear_list(alloc, list),
        None => EMPTY_HANDLE,
    }
}

/// Replaces the table by the merge, closes the exchange, and puts its outcome into `outcome`.
///
/// Returns 91 for an empty handle; then 34 if no exchange is open, 39 if a part is missing, and 40 if the journal is
/// full. Returns 90 when out of memory.
#[unsafe(no_mangle)]
pub extern "C" fn heal_side_finish(
    alloc: Global,
    side: &mut HealSide,
    outcome: &mut HealOutcome,
) -> u32
    ensures { OnHandle side.old.half side.new.half
        (λ old new. Finishes old new outcome.old.outcome outcome.new.outcome)
        (outcome.new.outcome ≡ outcome.old.outcome) result }
{
    match side.held() {
        Some(half) => outcome.fill(half.finish(alloc)),
        None => EMPTY_HANDLE,
    }
}

/// Closes the exchange and keeps the table, without the withdrawn names.
///
/// Returns 91 for an empty handle; then 34 if no exchange is open, and 40 if the journal is full.
#[unsafe(no_mangle)]
pub extern "C" fn heal_side_abandon(side: &mut HealSide) -> u32
    ensures { OnHandle side.old.half side.new.half Abandons (Unit {0}) result }
{
    match side.held() {
        Some(half) => half.abandon(),
        None => EMPTY_HANDLE,
    }
}
