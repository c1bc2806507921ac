//! Exchanges between two plain sides: refusals, messages lost, repeated and late, withdrawn names, exchanges that are
//! abandoned, and a full journal.
use crate::assertions::{assert_gives, assert_same};
use crate::exchange_rows as rows;
use crate::two_sides::{Other, Part, Row, Seen, first_other};
use builtin_resolvers::Verdict3;
use clash_record::SideId;
use exchange_core::{MAX_EVENTS, Side, history_theorem};
use partition_table::word;
use std::alloc::Global;
use std::test::Fail;

#[test]
fn numbers_are_begun_once(rt: HostRuntime) {
    let parts = [
        Part::Calls(rows::NUMBERS),
        Part::Seen(Seen::Events(SideId::A, 3)),
        Part::Calls(rows::NUMBERS_LEFT),
        Part::Seen(Seen::Events(SideId::A, 4)),
    ];
    assert_gives(&rt, first_other(rt.alloc(), &[], &parts), None);
    assert_same(&rt, Side::new(rt.alloc(), SideId::B).id(), SideId::B);
    history_theorem();
}

#[test]
fn offers_that_are_refused(rt: HostRuntime) {
    let parts = [Part::Calls(rows::STRANGE_OFFERS)];
    assert_gives(&rt, first_other(rt.alloc(), &["db"], &parts), None);
}

// 4,096 names on each side, none on both.
#[test]
fn too_many_names(rt: HostRuntime) {
    let parts = [
        Part::NamesApart(4096),
        Part::Calls(rows::TOO_MANY),
        Part::Seen(Seen::Events(SideId::A, 4097)),
        Part::Seen(Seen::Shown("yaaaa", false, true)),
    ];
    assert_gives(&rt, first_other(rt.alloc(), &[], &parts), None);
}

// Three clashes; rulings in any order and repeated, offers and lists heard twice.
#[test]
fn finishes_one_table(rt: HostRuntime) {
    let parts = [
        Part::Calls(rows::ONE_TABLE),
        Part::Seen(Seen::Agreed),
        Part::Seen(Seen::Uptimes(3, 4)),
        Part::Seen(Seen::Ruling(0, 0, Verdict3::First)),
        Part::Seen(Seen::Ruling(1, 1, Verdict3::Second)),
        Part::Seen(Seen::Ruling(2, 2, Verdict3::First)),
        Part::Seen(Seen::OwnerOn(SideId::A, "b1", 2)),
        Part::Seen(Seen::OwnerOn(SideId::B, "c1", 1)),
        Part::Seen(Seen::Events(SideId::A, 14)),
    ];
    assert_gives(
        &rt,
        first_other(rt.alloc(), &["a1", "b1", "c1"], &parts),
        None,
    );
    assert_same(&rt, word(0, 0, 3, 1), 1);
}

// One finishes 1 while the other has abandoned it and goes on to 2.
#[test]
fn finishes_alone(rt: HostRuntime) {
    let parts = [
        Part::Calls(rows::ALONE),
        Part::Seen(Seen::LatestTable(1)),
        Part::Calls(rows::ALONE_LEFT),
        Part::Seen(Seen::Shown("web", false, true)),
    ];
    assert_gives(&rt, first_other(rt.alloc(), &["db"], &parts), None);
}

// Returns where an exchange is otherwise in which names are withdrawn by these calls, whether the sides show the name
// then, and whether it is left.
fn other_where_gone(
    alloc: Global,
    gone: &'static [Row],
    shown: (bool, bool),
    left: bool,
) -> Result<Option<Other>, Fail> {
    let parts = [
        Part::Calls(gone),
        Part::Seen(Seen::Shown("db", shown.0, shown.1)),
        Part::Seen(Seen::Rows(SideId::A, shown.0)),
        Part::Calls(rows::WITHDRAWN),
        Part::Seen(Seen::Shown("db", left, left)),
    ];
    first_other(alloc, &["db"], &parts)
}

// The winner's withdrawal drops the name, the loser's changes nothing.
#[test]
fn withdrawn_names(rt: HostRuntime) {
    let on_a = other_where_gone(rt.alloc(), rows::GONE_ON_A, (false, true), false);
    assert_gives(&rt, on_a, None);
    let on_b = other_where_gone(rt.alloc(), rows::GONE_ON_B, (true, false), true);
    assert_gives(&rt, on_b, None);
    let on_both = other_where_gone(rt.alloc(), rows::GONE_ON_BOTH, (false, false), false);
    assert_gives(&rt, on_both, None);
}

// Returns where an exchange is otherwise that side A abandons after this number of its steps.
fn other_after(alloc: Global, steps: usize) -> Result<Option<Other>, Fail> {
    let is_kept = steps == 0;
    let rulings = if is_kept { rows::NEXT_RULINGS } else { &[] };
    let parts = [
        Part::Calls(rows::TO_BE_ABANDONED),
        Part::Calls(rows::STEPS.get(..steps).ok_or("too few steps")?),
        Part::Calls(rows::ABANDON),
        Part::Seen(Seen::Shown("db", is_kept, true)),
        Part::Calls(rows::NEXT_NUMBER),
        Part::Calls(rulings),
        Part::Calls(rows::NEXT_END),
        Part::Seen(Seen::Agreed),
        Part::Seen(Seen::LatestTable(1)),
    ];
    first_other(alloc, &["db"], &parts)
}

// Returns the first count of steps after which an exchange is otherwise, and where it is.
fn first_other_after(alloc: Global) -> Result<Option<(usize, Other)>, Fail> {
    for steps in 0..6 {
        if let Some(other) = other_after(alloc, steps)? {
            return Ok(Some((steps, other)));
        }
    }
    Ok(None)
}

// A side abandons an exchange after each of its steps: its table is unchanged, without what it withdrew, what was sent
// is refused under the next number, and the next number succeeds.
#[test]
fn the_next_number_succeeds(rt: HostRuntime) {
    assert_gives(&rt, first_other_after(rt.alloc()), None);
}

#[test]
fn full_journal(rt: HostRuntime) {
    let parts = [
        Part::Repeated(32_767, rows::COME_AND_GO),
        Part::Calls(rows::LAST_EVENT),
        Part::Seen(Seen::Events(SideId::A, MAX_EVENTS)),
        Part::Calls(rows::FULL_JOURNAL),
    ];
    assert_gives(&rt, first_other(rt.alloc(), &["web"], &parts), None);
}

// An offer heard twice and one ruling taken twice: each call succeeds, adds one event and changes nothing else.
#[test]
fn repeated_messages_change_nothing(rt: HostRuntime) {
    let names = Part::Seen(Seen::Names(SideId::A, &[("db", 1, 1)]));
    let parts = [
        Part::Calls(rows::HEARD),
        Part::Seen(Seen::Events(SideId::A, 3)),
        Part::Calls(rows::HEARD_AGAIN),
        Part::Seen(Seen::Events(SideId::A, 4)),
        names,
        Part::Calls(rows::TAKEN),
        Part::Seen(Seen::Events(SideId::A, 5)),
        Part::Calls(rows::TAKEN),
        Part::Seen(Seen::Events(SideId::A, 6)),
        names,
        Part::Calls(rows::TAKEN_ON_B),
        Part::Calls(rows::LISTS_AND_END),
        Part::Seen(Seen::Agreed),
        Part::Seen(Seen::Ruling(0, 0, Verdict3::First)),
        names,
        Part::Seen(Seen::Names(SideId::B, &[("db", 1, 1)])),
    ];
    assert_gives(&rt, first_other(rt.alloc(), &["db"], &parts), None);
}

// Returns where an exchange is otherwise that one side abandons after this number of steps of both, and then the
// other side.
fn other_abandoned_after(
    alloc: Global,
    steps: usize,
    first: &'static [Row],
    second: &'static [Row],
) -> Result<Option<Other>, Fail> {
    let done = rows::EACH_STEP.get(..steps).ok_or("too few steps")?;
    let on_a = Part::Seen(Seen::Names(SideId::A, &[("db", 1, 10)]));
    let on_b = Part::Seen(Seen::Names(SideId::B, &[("db", 2, 20), ("web", 2, 21)]));
    let merged = &[("db", 1, 10), ("web", 2, 21)];
    let parts = [
        Part::Calls(rows::DB_AND_WEB),
        Part::Calls(done),
        Part::Calls(first),
        on_a,
        on_b,
        Part::Calls(second),
        on_a,
        on_b,
        Part::Calls(rows::OLD_OFFERS),
        Part::Calls(rows::NEXT_WHOLE),
        Part::Seen(Seen::Agreed),
        Part::Seen(Seen::Names(SideId::A, merged)),
        Part::Seen(Seen::Names(SideId::B, merged)),
    ];
    first_other(alloc, &[], &parts)
}

// Returns the first count of steps after which an exchange that the sides abandon in this order is otherwise, and where
// it is.
fn first_other_abandoned(
    alloc: Global,
    first: &'static [Row],
    second: &'static [Row],
) -> Result<Option<(usize, Other)>, Fail> {
    for steps in 2..=rows::EACH_STEP.len() {
        if let Some(other) = other_abandoned_after(alloc, steps, first, second)? {
            return Ok(Some((steps, other)));
        }
    }
    Ok(None)
}

// Either side abandons after each step: its whole table is the one before, its old offer is refused under the next
// number, and the next number succeeds.
#[test]
fn abandoned_after_each_step(rt: HostRuntime) {
    let by_a = first_other_abandoned(rt.alloc(), rows::ABANDON, rows::ABANDON_ON_B);
    assert_gives(&rt, by_a, None);
    let by_b = first_other_abandoned(rt.alloc(), rows::ABANDON_ON_B, rows::ABANDON);
    assert_gives(&rt, by_b, None);
}

// A side settles the clashes without a ruling; a ruling that it took stays.
#[test]
fn sides_settle(rt: HostRuntime) {
    let parts = [
        Part::Calls(rows::SETTLED),
        // Two names, the calls so far, and two rulings.
        Part::Seen(Seen::Events(SideId::A, 8)),
        Part::Calls(rows::LISTS_AND_END),
        Part::Seen(Seen::Agreed),
        Part::Seen(Seen::Ruling(0, 1, Verdict3::Second)),
        Part::Seen(Seen::Ruling(1, 5, Verdict3::Second)),
        Part::Seen(Seen::Ruling(2, 3, Verdict3::Second)),
    ];
    assert_gives(
        &rt,
        first_other(rt.alloc(), &["a1", "b1", "c1"], &parts),
        None,
    );
}

#[test]
fn a_journal_is_renewed(rt: HostRuntime) {
    let parts = [
        Part::Repeated(100, rows::NAME_COMES_AND_GOES),
        Part::Seen(Seen::Events(SideId::A, 201)),
        Part::Calls(rows::RENEWED),
        // One name, and the number that was begun and abandoned.
        Part::Seen(Seen::Events(SideId::A, 3)),
        Part::Seen(Seen::OwnerOn(SideId::A, "db", 1)),
        Part::Calls(rows::RENEWED_LEFT),
        Part::Seen(Seen::Shown("web", true, false)),
    ];
    assert_gives(&rt, first_other(rt.alloc(), &["db"], &parts), None);
}

// A side with less room in its journal than clashes without a ruling settles none of them.
#[test]
fn a_full_journal_settles_nothing(rt: HostRuntime) {
    let parts = [
        Part::Calls(rows::HEARD),
        Part::Repeated(MAX_EVENTS as u32 - 5, rows::HEARD_AGAIN),
        Part::Seen(Seen::Events(SideId::A, MAX_EVENTS - 1)),
        Part::Calls(rows::NO_ROOM),
        Part::Seen(Seen::Events(SideId::A, MAX_EVENTS)),
    ];
    assert_gives(&rt, first_other(rt.alloc(), &["a1", "b1"], &parts), None);
}
