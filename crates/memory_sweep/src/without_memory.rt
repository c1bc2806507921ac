//! Calls that take no memory, though an argument holds an allocator. Others can't allocate.

use crate::callers::{Caller, SEATS};
use crate::exchange::{Exchange, NUMBER, SEED, WHOLE};
use crate::fault::Fault;
use crate::rows::clashing;
use crate::sweeping::{Starved, Subject};
use crate::tables::is_same_list;
use builtin_resolvers::Verdict3;
use clash_record::{Name, RECORD_LEN, Registration, ResolverId, SideId, record_of};
use exchange_core::Side;
use fixtures::{BY_WORD, numbered_name, numbered_table, registration, stored};
use interpreter::{Ended, run};
use judge_pool::judge;
use partition_table::{ClashList, Table, TableFault, Verdict};
use questions::judge_one;
use upload_store::UploadStore;
use verdict_board::{Draw, open};
use verifier::read_program;

/// The word of the record that programs are run on. It is odd.
const WORD: u64 = 7;

/// Makes the calls that take no memory.
pub(crate) fn sweep_without_memory(rt: &HostRuntime) -> Result<(), Fault> {
    let list = clashing(rt.alloc(), 1)?;
    make_calls(rt, &list)
}

// Makes all the calls, some of them on this list of one clash, and returns the first fault.
fn make_calls(rt: &HostRuntime, list: &ClashList) -> Result<(), Fault> {
    let mut calls = Starved::new(rt);
    runs(&mut calls)
        .and(verdicts(&mut calls, list))
        .and(stores(&mut calls))
        .and(tables(&mut calls))
        .and(shared_tables(&mut calls))
        .and(sides(&mut calls))
        .and(draws(&mut calls, list))
        .and(gathers(&mut calls, list))
        .and(reads(&mut calls, list))
        .and(meetings(&mut calls, list))?;
    calls.end()
}

// The record of the name `db` of owners 1.1 and 2.1, at the word.
fn record_bytes() -> [u8; RECORD_LEN] {
    let mut bytes = [0; RECORD_LEN];
    for (at, value) in [
        (0, 2),
        (8, b'd'),
        (9, b'b'),
        (40, 7),
        (48, 1),
        (52, 1),
        (88, 2),
        (92, 1),
    ] {
        bytes[at] = value;
    }
    for (at, value) in [(128, 1), (136, 3), (144, 1), (152, 4)] {
        bytes[at] = value;
    }
    bytes
}

fn runs(calls: &mut Starved<'_>) -> Result<(), Fault> {
    let program = read_program(calls.alloc(), &BY_WORD)?;
    let record = record_of(record_bytes());
    calls.refuse("run");
    calls.gave(run(&program, &record), Ended { r0: 2, steps: 4 });
    calls.refuse("judge_one");
    let answered = judge_one(&program, &record);
    calls.gave(
        (answered.verdict(), answered.steps()),
        (Verdict3::Second, 4),
    );
    Ok(())
}

fn verdicts(calls: &mut Starved<'_>, list: &ClashList) -> Result<(), Fault> {
    if list.len() == 0 {
        return Err(Fault::Unprepared);
    }
    let clash = list.get(0).ok_or(Fault::Unprepared)?;
    calls.refuse("Verdict::judged");
    calls.gave(Verdict::judged(clash, WORD).answer(), Verdict3::Second);
    calls.refuse("judge");
    calls.gave(judge(list, 0, WORD).answer(), Verdict3::Second);
    calls.refuse("the parts of a list of clashes");
    calls.gave(is_same_list(list, list), true);
    Ok(())
}

fn stores(calls: &mut Starved<'_>) -> Result<(), Fault> {
    let alloc = calls.alloc();
    calls.refuse("UploadStore::new");
    calls.gave(UploadStore::new(alloc).len(), 0);
    let (store, id) = stored(alloc, &BY_WORD)?;
    calls.refuse("UploadStore::len");
    calls.gave(store.len(), 1);
    calls.refuse("UploadStore::get");
    let slots = store.get(&id).map(|program| program.code().slot_count());
    calls.gave(slots, Some(4));
    Ok(())
}

fn tables(calls: &mut Starved<'_>) -> Result<(), Fault> {
    let alloc = calls.alloc();
    calls.refuse("Table::new");
    calls.gave(Table::new(alloc).len(), 0);
    let first = numbered_name(b'n', 0)?;
    let (store, program) = stored(alloc, &BY_WORD)?;
    let resolver = ResolverId::Program(program);
    let mut table = numbered_table(alloc, 12, 1, resolver, &store)?;
    calls_of_table(calls, &mut table, first, registration(1, 1, resolver));
    Ok(())
}

// The table has 12 names, the first of them with this registration.
fn calls_of_table(
    calls: &mut Starved<'_>,
    table: &mut Table,
    first: Name,
    registration: Registration,
) {
    calls.refuse("Table::len");
    calls.gave(table.len(), 12);
    calls.refuse("Table::whereis");
    calls.gave(table.whereis(&first).copied(), Some(registration));
    calls.refuse("Table::rows");
    calls.gave(table.rows().count(), 12);
    calls.refuse("Table::unregister");
    calls.gave(table.unregister(&first), Ok(registration));
    calls.refuse("Table::len");
    calls.gave(table.len(), 11);
}

fn shared_tables(calls: &mut Starved<'_>) -> Result<(), Fault> {
    let alloc = calls.alloc();
    let names = [numbered_name(b'n', 0)?, numbered_name(b'n', 2)?];
    let (store, program) = stored(alloc, &BY_WORD)?;
    let resolver = ResolverId::Program(program);
    let mut table = numbered_table(alloc, 12, 1, resolver, &store)?;
    let other = table.share()?;
    calls_of_shared(
        calls,
        &mut table,
        &other,
        names,
        registration(1, 1, resolver),
    );
    Ok(())
}

// Both tables have the same 12 names with this registration. One of them drops the first and the third.
fn calls_of_shared(
    calls: &mut Starved<'_>,
    table: &mut Table,
    other: &Table,
    names: [Name; 2],
    registration: Registration,
) {
    let [first, third] = names;
    calls.refuse("Table::unregister of shared rows");
    calls.gave(table.unregister(&third), Ok(registration));
    calls.refuse("Table::unregister of a dropped row");
    calls.gave(table.unregister(&third), Err(TableFault::NoSuchName));
    calls.refuse("Table::unregister of shared rows of which one is dropped");
    calls.gave(table.unregister(&first), Ok(registration));
    calls.refuse("a table that dropped shared rows");
    let counts = (
        table.len(),
        table.rows().count(),
        table.rows_after(&first).count(),
    );
    calls.gave(counts, (10, 10, 10));
    calls.refuse("Table::whereis of dropped rows");
    calls.gave(
        table.whereis(&first).is_none() && table.whereis(&third).is_none(),
        true,
    );
    calls.refuse("the table that shares the rows");
    calls.gave(
        (other.len(), other.whereis(&third).copied()),
        (12, Some(registration)),
    );
}

fn sides(calls: &mut Starved<'_>) -> Result<(), Fault> {
    let alloc = calls.alloc();
    calls.refuse("Side::new");
    calls.gave(Side::new(alloc, SideId::A).events(), 0);
    let registered = numbered_name(b'n', 0)?;
    let exchange = Exchange::after(alloc, 1, &WHOLE)?;
    calls_of_side(calls, &exchange, &registered);
    Ok(())
}

// The exchange finished with this name alone, which the second kept.
fn calls_of_side(calls: &mut Starved<'_>, exchange: &Exchange, registered: &Name) {
    let side = exchange.side();
    let registration = registration(2, 1, ResolverId::Program(exchange.program()));
    calls.refuse("Side::events");
    calls.gave(side.events(), 7);
    calls.refuse("Side::whereis");
    calls.gave(side.whereis(registered).copied(), Some(registration));
    calls.refuse("Side::rows");
    calls.gave(count_rows(side), 1);
    calls.refuse("the parts of an exchange");
    calls.gave(exchange.is_same(exchange), true);
}

fn count_rows(side: &Side) -> usize {
    let mut count: usize = 0;
    for _ in side.rows() {
        count = count.wrapping_add(1);
    }
    count
}

// The last seat draws first, in the first round.
fn draws(calls: &mut Starved<'_>, list: &ClashList) -> Result<(), Fault> {
    let (board, mut seats) = open(calls.alloc(), NUMBER, SEED, list, SEATS)?;
    calls.refuse("Board::draw");
    let drawn = match seats.pop() {
        Some(mut seat) => Some(board.draw(&mut seat, 0)),
        None => None,
    };
    calls.gave(drawn, Some(Draw::Clash(0)));
    Ok(())
}

fn gathers(calls: &mut Starved<'_>, list: &ClashList) -> Result<(), Fault> {
    let (board, seats) = open(calls.alloc(), NUMBER, SEED, list, SEATS)?;
    calls.refuse("Board::gather");
    calls.gave(board.gather(seats), [0; 4]);
    Ok(())
}

fn reads(calls: &mut Starved<'_>, list: &ClashList) -> Result<(), Fault> {
    let (caller, _, _) = Caller::new(calls.alloc(), list)?.post();
    calls.refuse("Board::read");
    calls.gave(caller.read(), Some(SEED));
    Ok(())
}

fn meetings(calls: &mut Starved<'_>, list: &ClashList) -> Result<(), Fault> {
    let alloc = calls.alloc();
    let (caller, _, _) = Caller::new(alloc, list)?.post();
    let first = Exchange::finished(alloc, 1)?;
    let second = Exchange::finished(alloc, 1)?;
    calls.refuse("meet");
    calls.gave(caller.meet(first, second), Some(1));
    Ok(())
}
