//! Tables: rows in the order of names, refusals, clones, and failed allocations.
use crate::assertions::{assert_gives, assert_same};
use crate::wordings::{Worded, first_misworded, number};
use clash_record::{Name, Registration, ResolverId, name};
use fixtures::{Row, UNKNOWN, exit_registration, reading, registration, table_of};
use partition_table::{Table, TableFault};
use refusals::Numbered;
use std::alloc::Global;
use std::test::Fail;
use upload_store::UploadStore;

// The name of the row in this place, and its owner's serial number.
fn row_at(table: &Table, place: usize) -> Option<(Name, u32)> {
    let (name, registration) = table.rows().nth(place)?;
    Some((*name, registration.owner.serial))
}

/// How many names a table has, and what it has a name registered with.
type Found = (usize, Option<Registration>);

fn found(table: &Table, name: &Name) -> Found {
    (table.len(), table.whereis(name).copied())
}

// What the name was registered with, and the number with which it is refused then.
fn unregister_twice(table: &mut Table, name: &Name) -> (Option<Registration>, Option<u32>) {
    let first = table.unregister(name).ok();
    (first, number(table.unregister(name).err()))
}

// The names ab, a and b, registered in this order.
const UNORDERED: &[Row] = &[("ab", 1, 1), ("a", 1, 2), ("b", 1, 3)];

// The first four rows of their table.
fn ordered(alloc: Global) -> Result<[Option<(Name, u32)>; 4], Fail> {
    let table = table_of(alloc, UNORDERED)?;
    Ok([
        row_at(&table, 0),
        row_at(&table, 1),
        row_at(&table, 2),
        row_at(&table, 3),
    ])
}

fn wanted_order() -> Result<[Option<(Name, u32)>; 4], Fail> {
    let (a, ab, b) = (name(b"a")?, name(b"ab")?, name(b"b")?);
    Ok([Some((a, 2)), Some((ab, 1)), Some((b, 3)), None])
}

#[test]
fn rows_in_name_order(rt: HostRuntime) -> Result<(), Fail> {
    let wanted = wanted_order()?;
    assert_gives(&rt, ordered(rt.alloc()), wanted);
    Ok(())
}

// Unregisters ab twice. Returns what the table has of it before, both answers, and what it has afterwards.
fn unregistered(
    alloc: Global,
) -> Result<(Found, (Option<Registration>, Option<u32>), Found), Fail> {
    let ab = name(b"ab")?;
    let mut table = table_of(alloc, UNORDERED)?;
    let before = found(&table, &ab);
    let gone = unregister_twice(&mut table, &ab);
    Ok((before, gone, found(&table, &ab)))
}

#[test]
fn a_name_is_unregistered_once(rt: HostRuntime) {
    let ab = Some(exit_registration(1, 1));
    let wanted = ((3, ab), (ab, Some(31)), (2, None));
    assert_gives(&rt, unregistered(rt.alloc()), wanted);
}

// Returns the number that refuses the name if the store is empty.
fn refused(
    alloc: Global,
    table: &mut Table,
    name: Name,
    registration: Registration,
) -> Option<u32> {
    let registered = table.register(name, registration, &UploadStore::new(alloc));
    number(registered.err())
}

// Returns the numbers that refuse a taken name and an unknown program in a table of db, and what it has of db then.
fn refused_in_turn(alloc: Global) -> Result<([Option<u32>; 2], Found), Fail> {
    let (db, web) = (name(b"db")?, name(b"web")?);
    let mut table = table_of(alloc, &[("db", 2, 1)])?;
    let taken = refused(alloc, &mut table, db, exit_registration(1, 9));
    let unknown = refused(alloc, &mut table, web, registration(1, 1, UNKNOWN));
    Ok(([taken, unknown], found(&table, &db)))
}

// A taken name stays unchanged, and an unknown program registers nothing.
#[test]
fn refusals_of_register(rt: HostRuntime) {
    let db = Some(exit_registration(2, 1));
    let wanted = ([Some(30), Some(41)], (1, db));
    assert_gives(&rt, refused_in_turn(rt.alloc()), wanted);
}

// Whether the table of db and web equals its clone, and the table of these rows.
fn equals(alloc: Global, rows: &[Row]) -> Result<(bool, bool), Fail> {
    let one = table_of(alloc, &[("db", 2, 1), ("web", 3, 1)])?;
    let other = table_of(alloc, rows)?;
    Ok((one == one.try_clone()?, one == other))
}

#[test]
fn equal_and_cloned(rt: HostRuntime) {
    let other = equals(rt.alloc(), &[("db", 1, 9), ("web", 3, 1)]);
    assert_gives(&rt, other, (true, false));
    assert_gives(&rt, equals(rt.alloc(), &[]), (true, false));
}

// Registers the name. If memory runs out, checks that the table is unchanged, and registers the name again.
fn register_in_the_end(
    alloc: Global,
    table: &mut Table,
    name: Name,
) -> Result<Option<Registration>, Fail> {
    let mut store = UploadStore::new(alloc);
    let Ok(id) = store.upload(alloc, &reading(128)) else {
        return Ok(None);
    };
    let row = registration(1, 1, ResolverId::Program(id));
    if let Err(fault) = table.register(name, row, &store) {
        if (fault.number(), table.len()) != (90, 0) {
            return Err(Fail::from("refused otherwise"));
        }
        table.register(name, row, &store)?;
    }
    Ok(Some(row))
}

// Returns what the table has of the name in the end, and what it should have, unless the program isn't kept.
fn registered_in_the_end(alloc: Global) -> Result<Option<(Found, Found)>, Fail> {
    let db = name(b"db")?;
    let mut table = Table::new(alloc);
    let row = register_in_the_end(alloc, &mut table, db)?;
    Ok(match row {
        Some(_) => Some((found(&table, &db), (1, row))),
        None => None,
    })
}

// If one allocation fails, one call fails and leaves the table unchanged.
#[test]
fn survives_a_failed_allocation(rt: HostRuntime) -> Result<(), Fail> {
    if let Some((found, wanted)) = registered_in_the_end(rt.alloc())? {
        assert_same(&rt, found, wanted);
    }
    Ok(())
}

const REFUSALS: &[Worded<TableFault>] = &[
    (
        TableFault::NameTaken,
        30,
        None,
        "the name is already registered",
    ),
    (
        TableFault::NoSuchName,
        31,
        None,
        "the name isn't registered",
    ),
    (
        TableFault::Full,
        32,
        None,
        "the table is full: 4,096 names, or the side's limit",
    ),
    (
        TableFault::TooManyNames,
        37,
        None,
        "the two tables have more names together than one may have: 4,096, or the side's limit",
    ),
    (
        TableFault::UnknownProgram,
        41,
        None,
        "an unknown program, or a word that is neither a built-in resolver nor a label",
    ),
    (
        TableFault::OtherCode,
        42,
        None,
        "other code has the same program id",
    ),
    (TableFault::OutOfMemory, 90, None, "out of memory"),
];

#[test]
fn refuses_in_words(rt: HostRuntime) {
    assert_gives(&rt, first_misworded(rt.alloc(), REFUSALS), None);
}
