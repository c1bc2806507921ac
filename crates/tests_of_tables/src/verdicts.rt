//! Clashes of two tables: the order of registrations, the facts of each half, words and answers, and equality.
use crate::assertions::{assert_gives, assert_same};
use builtin_resolvers::Verdict3;
use clash_record::{Registration, ResolverId, name};
use fixtures::{EXIT, Row, clashes_of, exit_registration, reading, registration, stored, table_of};
use partition_table::{Clash, ClashList, Ruling, Table, Verdict, clashes, word};
use std::alloc::Global;
use std::test::Fail;

const TWO: [Row; 2] = [("db", 2, 1), ("web", 3, 1)];

const THREE: [Row; 3] = [("db", 1, 9), ("web", 3, 1), ("x", 1, 1)];

// The half that is up longer holds the lesser registration, whichever side asks.
#[test]
fn lesser_is_first(rt: HostRuntime) {
    let wanted = Shown {
        first: exit_registration(1, 9),
        second: exit_registration(2, 1),
        facts: ((3, 6), (2, 5)),
        resolver: EXIT,
        is_builtin: true,
    };
    let seen = only_clash(rt.alloc(), &TWO, 5, &THREE, 6);
    assert_gives(&rt, seen, ((1, 1, true), Some(wanted)));
    let seen = only_clash(rt.alloc(), &THREE, 6, &TWO, 5);
    assert_gives(&rt, seen, ((1, 1, true), Some(wanted)));
}

/// The fields of a clash. A built-in resolver has no code.
#[derive(Clone, Copy, Debug, PartialEq)]
struct Shown {
    first: Registration,
    second: Registration,
    facts: ((u64, u64), (u64, u64)),
    resolver: ResolverId,
    is_builtin: bool,
}

// Returns the count of clashes, by length and by iteration, whether the second is missing, and the first if its name is db.
fn only_clash(
    alloc: Global,
    left: &[Row],
    up_left: u64,
    right: &[Row],
    up_right: u64,
) -> Result<((usize, usize, bool), Option<Shown>), Fail> {
    let list = clashes_of(alloc, left, up_left, right, up_right)?;
    let counts = (list.len(), list.iter().count(), list.get(1).is_none());
    Ok((counts, list.get(0).and_then(shown_db)))
}

fn shown_db(clash: &Clash) -> Option<Shown> {
    if clash.name().as_str() != "db" {
        return None;
    }
    Some(Shown {
        first: *clash.first(),
        second: *clash.second(),
        facts: facts_of(clash),
        resolver: clash.resolver(),
        is_builtin: clash.program().is_none(),
    })
}

// Size and uptime of the half of the first registration, and of the half of the second.
fn facts_of(clash: &Clash) -> ((u64, u64), (u64, u64)) {
    let (first, second) = (clash.of_first(), clash.of_second());
    ((first.size, first.uptime), (second.size, second.uptime))
}

/// A seed, and the word and the answer of each of three clashes in the first round.
const WORDS: [(u64, [(u64, Verdict3); 3]); 2] = [
    (
        0,
        [
            (0, Verdict3::First),
            (1, Verdict3::Second),
            (2, Verdict3::First),
        ],
    ),
    (
        u64::MAX,
        [
            (u64::MAX, Verdict3::Second),
            (0, Verdict3::First),
            (1, Verdict3::Second),
        ],
    ),
];

// The word and the answer of the verdict on a clash, if the verdict and its ruling are of this clash.
fn judged(clash: &Clash, k: u32, at: u64) -> Option<(u64, Verdict3)> {
    let verdict = Verdict::judged(clash, at);
    let ruling = Ruling {
        number: 1,
        k,
        verdict,
    };
    let answer = ruling.verdict.answer();
    if verdict.clash().name().as_str() != clash.name().as_str() || verdict.answer() != answer {
        return None;
    }
    Some((verdict.word(), answer))
}

/// Three names on both sides, with other owners.
const ON_A: &[Row] = &[("a1", 1, 1), ("b1", 1, 1), ("c1", 1, 1)];

const ON_B: &[Row] = &[("a1", 2, 1), ("b1", 2, 1), ("c1", 2, 1)];

// The word and the answer of this clash in the first round, if there is one.
fn judged_at(list: &ClashList, seed: u64, k: u32) -> Option<(u64, Verdict3)> {
    judged(list.get(k)?, k, word(seed, 0, 3, k))
}

// The first three of these, if there are three.
fn first_three(list: &ClashList, seed: u64) -> Option<[(u64, Verdict3); 3]> {
    Some([
        judged_at(list, seed, 0)?,
        judged_at(list, seed, 1)?,
        judged_at(list, seed, 2)?,
    ])
}

// How many clashes the names have, and the word and the answer of the first three in the first round.
fn judged_three(alloc: Global, seed: u64) -> Result<(usize, Option<[(u64, Verdict3); 3]>), Fail> {
    let list = clashes_of(alloc, ON_A, 0, ON_B, 0)?;
    Ok((list.len(), first_three(&list, seed)))
}

#[test]
fn words_and_answers(rt: HostRuntime) {
    assert_same(&rt, word(5, 2, 3, 1), 12);
    for (seed, wanted) in WORDS {
        let judged = judged_three(rt.alloc(), seed);
        assert_gives(&rt, judged, (3, Some(wanted)));
    }
}

// A table whose name db is judged by code that reads the record from this place on.
fn judged_table(alloc: Global, offset: u8) -> Result<Table, Fail> {
    let (store, id) = stored(alloc, &reading(offset))?;
    let mut table = Table::new(alloc);
    table.register(
        name(b"db")?,
        registration(1, 9, ResolverId::Program(id)),
        &store,
    )?;
    Ok(table)
}

// Its clash with a table of two names that has been up half as long, as either side has it.
fn judged_clash(alloc: Global, offset: u8, is_swapped: bool) -> Result<ClashList, Fail> {
    let one = judged_table(alloc, offset)?;
    let two = table_of(alloc, &[("db", 2, 1), ("web", 2, 2)])?;
    let list = if is_swapped {
        clashes(alloc, &two, 1, &one, 2)
    } else {
        clashes(alloc, &one, 2, &two, 1)
    };
    Ok(list?)
}

// What the first clash is answered at word 0, if a program judges it.
fn first_answer(list: &ClashList) -> Option<Verdict3> {
    let clash = list.get(0)?;
    clash.program()?;
    Some(Verdict::judged(clash, 0).answer())
}

// The place in the record that is read, whether the tables are swapped, and the answer.
const BY_FACTS: &[(u8, bool, Verdict3)] = &[
    (128, false, Verdict3::First),
    (128, true, Verdict3::First),
    (136, false, Verdict3::Second),
    (136, true, Verdict3::Second),
    (144, false, Verdict3::Second),
    (144, true, Verdict3::Second),
    (152, false, Verdict3::First),
    (152, true, Verdict3::First),
];

// Returns the first row with another answer, and this answer.
fn first_other_answer(
    alloc: Global,
    rows: &[(u8, bool, Verdict3)],
) -> Result<Option<(u8, bool, Option<Verdict3>)>, Fail> {
    for (offset, is_swapped, expected) in rows {
        let answer = first_answer(&judged_clash(alloc, *offset, *is_swapped)?);
        if answer != Some(*expected) {
            return Ok(Some((*offset, *is_swapped, answer)));
        }
    }
    Ok(None)
}

// A resolver sees size and uptime of the half that holds each registration, whichever side asks.
#[test]
fn facts_by_registration(rt: HostRuntime) {
    assert_gives(&rt, first_other_answer(rt.alloc(), BY_FACTS), None);
}

// Checks whether the first clashes of two lists are equal.
fn has_equal_first(one: &ClashList, other: &ClashList) -> Option<bool> {
    Some(one.get(0)? == other.get(0)?)
}

// Returns whether the first clash of the tables with uptimes 5 and 6 is that of these.
fn equals_first(
    alloc: Global,
    left: &[Row],
    up_left: u64,
    right: &[Row],
    up_right: u64,
) -> Result<Option<bool>, Fail> {
    let one = clashes_of(alloc, &TWO, 5, &THREE, 6)?;
    let again = clashes_of(alloc, left, up_left, right, up_right)?;
    Ok(has_equal_first(&one, &again))
}

// The clash of two tables is the same in either order, and differs if a half has another uptime.
#[test]
fn equal_clashes(rt: HostRuntime) {
    let swapped = equals_first(rt.alloc(), &THREE, 6, &TWO, 5);
    assert_gives(&rt, swapped, Some(true));
    let other = equals_first(rt.alloc(), &TWO, 5, &THREE, 7);
    assert_gives(&rt, other, Some(false));
}
