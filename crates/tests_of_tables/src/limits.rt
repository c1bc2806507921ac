//! Limits that the owner of a side chooses.
use crate::assertions::{assert_gives, assert_same};
use crate::wordings::number;
use clash_record::{SideId, name};
use exchange_core::{MAX_EVENTS, Side};
use fixtures::{EXIT, begin_both, exit_registration, numbered_name, register_numbered};
use partition_table::{MAX_NAMES, NameLimit, Table};
use refusals::Numbered;
use std::alloc::Global;
use std::test::Fail;
use upload_store::UploadStore;

fn limit(names: usize) -> Result<NameLimit, Fail> {
    Ok(NameLimit::new(names).ok_or("no limit")?)
}

// Returns a side of this limit with numbered names.
fn side_of(alloc: Global, id: SideId, names: usize, count: u16) -> Result<Side, Fail> {
    let mut side = Side::with_limit(alloc, id, limit(names)?);
    let node = if id == SideId::A { 1 } else { 2 };
    for number in 0..count {
        let name = numbered_name(letter_of(id), number)?;
        side.register(name, exit_registration(node, 1), &UploadStore::new(alloc))?;
    }
    Ok(side)
}

fn letter_of(id: SideId) -> u8 {
    if id == SideId::A { b'a' } else { b'b' }
}

// The number with which a side refuses one more name.
fn refused(alloc: Global, side: &mut Side, text: &str) -> Result<Option<u32>, Fail> {
    let name = name(text.as_bytes())?;
    let answer = side.register(name, exit_registration(1, 1), &UploadStore::new(alloc));
    Ok(number(answer.err()))
}

fn names_of(limit: usize) -> Option<usize> {
    Some(NameLimit::new(limit)?.names())
}

#[test]
fn a_limit_is_from_1_to_1048576(rt: HostRuntime) {
    let found = (names_of(0), names_of(1), names_of(4096));
    assert_same(&rt, found, (None, Some(1), Some(4096)));
    let found = (names_of(1_048_576), names_of(1_048_577));
    assert_same(&rt, found, (Some(1_048_576), None));
    assert_same(&rt, NameLimit::default().names(), MAX_NAMES);
}

// Returns how many names and how many events a side may have.
fn most(side: &Side) -> (usize, usize) {
    (side.limit().names(), side.max_events())
}

#[test]
fn a_new_side_has_4096_names_and_65536_events(rt: HostRuntime) {
    let found = most(&Side::new(rt.alloc(), SideId::A));
    assert_same(&rt, found, (4096, 65_536));
    assert_same(&rt, found.1, MAX_EVENTS);
}

// Returns the numbers with which a full side refuses one more name: at first, once its journal is renewed, and without
// one of its names. In between is how many names and events it may have.
fn refused_at_limit(
    alloc: Global,
    side: &mut Side,
) -> Result<(Option<u32>, (usize, usize), [Option<u32>; 2]), Fail> {
    let first = refused(alloc, side, "more")?;
    side.renew()?;
    let (most, renewed) = (most(side), refused(alloc, side, "more")?);
    side.unregister(&numbered_name(b'a', 0)?)?;
    Ok((first, most, [renewed, refused(alloc, side, "more")?]))
}

fn refused_at_three(
    alloc: Global,
) -> Result<(Option<u32>, (usize, usize), [Option<u32>; 2]), Fail> {
    refused_at_limit(alloc, &mut side_of(alloc, SideId::A, 3, 3)?)
}

#[test]
fn a_side_is_full_at_its_limit(rt: HostRuntime) {
    let wanted = (Some(32), (3, 48), [Some(32), None]);
    assert_gives(&rt, refused_at_three(rt.alloc()), wanted);
}

// Returns the first number with which a side refuses a name that comes and goes eight times, its count of events then,
// and the numbers with which it refuses the name before and after its journal is renewed.
fn refused_at_events(
    alloc: Global,
    side: &mut Side,
) -> Result<(Option<u32>, usize, [Option<u32>; 2]), Fail> {
    let db = name(b"db")?;
    let mut first = None;
    for _ in 0..8 {
        first = first.or(refused(alloc, side, "db")?);
        side.unregister(&db)?;
    }
    let (events, full) = (side.events(), refused(alloc, side, "db")?);
    side.renew()?;
    Ok((first, events, [full, refused(alloc, side, "db")?]))
}

fn refused_at_16(alloc: Global) -> Result<(Option<u32>, usize, [Option<u32>; 2]), Fail> {
    refused_at_events(alloc, &mut side_of(alloc, SideId::A, 1, 0)?)
}

// A limit of one name holds 16 events.
#[test]
fn a_journal_is_full_at_16_events_for_each_name(rt: HostRuntime) {
    assert_gives(&rt, refused_at_16(rt.alloc()), (None, 16, [Some(40), None]));
}

// Returns the numbers with which two sides refuse each other's offers.
fn refused_offers(
    alloc: Global,
    a: &mut Side,
    b: &mut Side,
) -> Result<(Option<u32>, Option<u32>), Fail> {
    let offers = begin_both(alloc, 1, 0, a, b)?;
    let by_a = number(a.hear(alloc, &offers.of_b).err());
    Ok((by_a, number(b.hear(alloc, &offers.of_a).err())))
}

// Returns the same for sides that may have three and four names, and have two.
fn refused_by_limits(alloc: Global) -> Result<(Option<u32>, Option<u32>), Fail> {
    let mut a = side_of(alloc, SideId::A, 3, 2)?;
    let mut b = side_of(alloc, SideId::B, 4, 2)?;
    refused_offers(alloc, &mut a, &mut b)
}

// Four names together fit into one of the two sides.
#[test]
fn each_side_refuses_by_its_own_limit(rt: HostRuntime) {
    assert_gives(&rt, refused_by_limits(rt.alloc()), (Some(37), None));
}

// Returns the count of names of a side with this limit that registers `count` names.
fn count_registered(alloc: Global, names: usize, count: u16) -> Result<usize, Fail> {
    let mut side = Side::with_limit(alloc, SideId::A, limit(names)?);
    register_numbered(&mut side, count, 1, EXIT, &UploadStore::new(alloc))?;
    Ok(side.table().len())
}

#[test]
fn a_side_has_more_than_4096_names(rt: HostRuntime) {
    assert_gives(&rt, count_registered(rt.alloc(), 5000, 4097), 4097);
}

// Returns the latest number and the count of names of a side with a table of two names, or the number of the refusal.
fn with_two_names(
    alloc: Global,
    names: usize,
    latest: Option<u64>,
) -> Result<Result<(Option<u64>, usize), u32>, Fail> {
    let side = Side::with_table(alloc, SideId::A, limit(names)?, two_names(alloc)?, latest);
    Ok(match side {
        Ok(side) => Ok((side.latest(), side.table().len())),
        Err(fault) => Err(fault.number()),
    })
}

#[test]
fn a_table_fits_into_the_limit_of_its_side(rt: HostRuntime) {
    assert_gives(&rt, with_two_names(rt.alloc(), 1, None), Err(32));
    let seen = with_two_names(rt.alloc(), 2, Some(7));
    assert_gives(&rt, seen, Ok((Some(7), 2)));
}

fn two_names(alloc: Global) -> Result<Table, Fail> {
    let mut table = Table::new(alloc);
    register_numbered(&mut table, 2, 1, EXIT, &UploadStore::new(alloc))?;
    Ok(table)
}
