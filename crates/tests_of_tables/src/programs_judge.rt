//! An exchange that a program judges, and the notices of a clash.
use crate::assertions::{assert_gives, assert_same};
use builtin_resolvers::{Notice, Verdict3, notices};
use clash_record::{Builtin, Owner, Registration, ResolverId, SideId, name};
use exchange_core::{Side, SideFault};
use fixtures::{
    BY_STAMP, begin_both, finish_both, hear_both, register_rows, registration, stored, take_all,
};
use partition_table::{Clash, ClashList, Table, Verdict, clashes};
use std::alloc::Global;
use std::sync::Arc;
use std::test::Fail;
use upload_store::UploadStore;

fn stamped(node: u32, serial: u32, stamp: u64, resolver: ResolverId) -> Registration {
    let mut given = registration(node, serial, resolver);
    given.stamp = stamp;
    given
}

fn heal(alloc: Global, a: &mut Side, b: &mut Side) -> Result<Arc<Table>, SideFault> {
    let offers = begin_both(alloc, 1, 0, a, b)?;
    hear_both(alloc, a, b, &offers)?;
    take_rulings(a, b, &offers.clashes(alloc)?)?;
    Ok(finish_both(alloc, a, b)?.first.into_table())
}

fn take_rulings(a: &mut Side, b: &mut Side, list: &ClashList) -> Result<(), SideFault> {
    take_all(a, list, 1, 0)?;
    take_all(b, list, 1, 0)
}

// How many names a table has, and its registrations of `db` and `web`.
type Found = (usize, [Option<Registration>; 2]);

fn found(table: &Table) -> Result<Found, Fail> {
    let db = table.whereis(&name(b"db")?).copied();
    let web = table.whereis(&name(b"web")?).copied();
    Ok((table.len(), [db, web]))
}

// Heals `db`, which a program judges on both sides, with `web` on side B alone. Returns what the table has, and what it
// should have.
fn heal_by_stamp(alloc: Global) -> Result<[Found; 2], Fail> {
    let (store, program) = stored(alloc, &BY_STAMP)?;
    let of_a = stamped(1, 10, 5, ResolverId::Program(program));
    let of_b = stamped(2, 20, 9, ResolverId::Program(program));
    let web = stamped(2, 21, 1, ResolverId::Builtin(Builtin::NotifyAll));
    let table = heal_rows(
        alloc,
        &store,
        &[("db", of_a)],
        &[("db", of_b), ("web", web)],
    )?;
    Ok([found(&table)?, (2, [Some(of_b), Some(web)])])
}

fn heal_rows(
    alloc: Global,
    store: &UploadStore,
    on_a: &[(&str, Registration)],
    on_b: &[(&str, Registration)],
) -> Result<Arc<Table>, Fail> {
    let mut a = Side::new(alloc, SideId::A);
    let mut b = Side::new(alloc, SideId::B);
    register_rows(&mut a, on_a, store)?;
    register_rows(&mut b, on_b, store)?;
    Ok(heal(alloc, &mut a, &mut b)?)
}

// The later stamp keeps `db`, and the name of one side alone stays.
#[test]
fn a_program_judges_an_exchange(rt: HostRuntime) -> Result<(), Fail> {
    let [found, wanted] = heal_by_stamp(rt.alloc())?;
    assert_same(&rt, found, wanted);
    Ok(())
}

fn notified(alloc: Global) -> Result<ClashList, Fail> {
    let store = UploadStore::new(alloc);
    let resolver = ResolverId::Builtin(Builtin::NotifyAll);
    let mut a = Table::new(alloc);
    let mut b = Table::new(alloc);
    a.register(name(b"m")?, registration(1, 1, resolver), &store)?;
    b.register(name(b"m")?, registration(2, 2, resolver), &store)?;
    Ok(clashes(alloc, &a, 0, &b, 0)?)
}

// The answer to a clash, and its first three notices.
type Told = (Verdict3, [Option<Notice>; 3]);

// Returns the answer to this clash at this word, and the notices.
fn told_of(clash: &Clash, word: u64) -> Told {
    let answer = Verdict::judged(clash, word).answer();
    let (first, second) = (clash.first().owner, clash.second().owner);
    let told = notices(Builtin::NotifyAll, clash.name(), first, second, answer);
    let all = told.as_slice();
    let third = all.get(2).copied();
    (answer, [all.get(0).copied(), all.get(1).copied(), third])
}

// Returns this of the only clash at this word.
fn told_at(alloc: Global, word: u64) -> Result<Told, Fail> {
    let list = notified(alloc)?;
    Ok(told_of(list.get(0).ok_or("no clash")?, word))
}

fn notices_to_both() -> Result<[Option<Notice>; 3], Fail> {
    let m = name(b"m")?;
    let one = Owner { node: 1, serial: 1 };
    let two = Owner { node: 2, serial: 2 };
    Ok([
        Some(Notice::ConflictWith(m, one, two)),
        Some(Notice::ConflictWith(m, two, one)),
        None,
    ])
}

#[test]
fn notify_all_at_word_three(rt: HostRuntime) -> Result<(), Fail> {
    let wanted = (Verdict3::Neither, notices_to_both()?);
    assert_gives(&rt, told_at(rt.alloc(), 3), wanted);
    Ok(())
}
