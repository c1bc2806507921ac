//! Partitions whose sides are under locks: what one keeps, and two that workers tell a round, finish and meet.
ghost use Rattle.std.specs.Prelude.{◌≡◌, All};

use crate::exchanging;
use crate::exchanging::{NUMBER, SEED, crew, meet_at};
use crate::registering::Names;
use clash_record::{SideId, name};
use exchange_core::SideFault;
use fixtures::{Ended, exit_registration, finish_both};
use judge_pool::{OpenGate, Workers, heal_round};
use partition_table::ClashList;
use registry_lock::Partition;
use std::alloc::Global;
use std::sync::Wait;
use std::test::Fail;
use std::thread::Threads;
use upload_store::UploadStore;
use verdict_board::{Board, Seat, open};

#[derive(Drop)]
struct Partitions {
    left: Partition,
    right: Partition,
    alloc: Global,
}

// What came of a healing: how many workers were started, how many verdicts were kept, what the journals held before and
// after the round, and how many names the one table has.
#[derive(Clone, Copy)]
struct Outcome {
    started: u32,
    kept: u32,
    before: (usize, usize),
    after: (usize, usize),
    names: usize,
}

fn events<R: Wait>(rt: &R, partition: &Partition) -> usize {
    partition.with_side(rt, |side| side.events())
}

impl Partitions {
    fn new(alloc: Global) -> Partitions {
        Partitions {
            left: Partition::new(alloc, SideId::A),
            right: Partition::new(alloc, SideId::B),
            alloc,
        }
    }

    fn begin<R: Wait>(&self, rt: &R, names: Names) -> Result<ClashList, Fail> {
        let alloc = self.alloc;
        self.left.with_side(rt, |a| {
            self.right.with_side(rt, |b| {
                names.register(alloc, a, b)?;
                exchanging::begin(alloc, a, b)
            })
        })
    }

    fn events<R: Wait>(&self, rt: &R) -> (usize, usize) {
        (events(rt, &self.left), events(rt, &self.right))
    }

    // How many workers were started, and how many verdicts were kept.
    fn judge<'p, R: Threads + Wait + Sync>(
        &self,
        rt: &R,
        board: &Board<'p>,
        seats: Vec<Seat>,
    ) -> (u32, u32)
        requires { All (λ s. s.draws ≡ board.now.draws) seats.items }
    {
        let done = heal_round(
            rt,
            self.alloc,
            board,
            seats,
            0,
            &OpenGate,
            &self.left,
            &self.right,
        );
        (done.started, done.kept)
    }

    fn finish<R: Wait>(&self, rt: &R) -> Result<Ended, Fail> {
        let alloc = self.alloc;
        let ended = self.left.with_side(
            rt,
            |a| self.right.with_side(rt, |b| finish_both(alloc, a, b)),
        );
        Ok(ended?)
    }

    fn heal<R: Threads + Wait + Sync>(
        &self,
        rt: &R,
        list: &ClashList,
        workers: Workers,
    ) -> Result<Outcome, Fail> {
        let (board, seats) = open(self.alloc, NUMBER, SEED, list, workers.count())?;
        let before = self.events(rt);
        let (started, kept) = self.judge(rt, &board, seats);
        let after = self.events(rt);
        let names = meet_at(self.finish(rt)?, &board)?.len();
        Ok(Outcome {
            started,
            kept,
            before,
            after,
            names,
        })
    }
}

// Heals two partitions with these names: a round of `workers` workers judges, both sides finish, and they meet.
fn heal<R: Threads + Wait + Sync>(
    rt: &R,
    alloc: Global,
    names: Names,
    workers: Workers,
) -> Result<Outcome, Fail> {
    let partitions = Partitions::new(alloc);
    let list = partitions.begin(rt, names)?;
    partitions.heal(rt, &list, workers)
}

// For 4,096 names the journals hold them, a begin, an offer heard, and 4,096 rulings.
#[test]
fn partitions_are_told_and_meet(rt: HostRuntime) -> Result<(), Fail> {
    for (names, workers, kept, before, after, table) in [
        (Names::DbAndWeb, 2, 1, (3, 4), (4, 5), 2),
        (
            Names::Numbered(4096),
            16,
            4096,
            (4098, 4098),
            (8194, 8194),
            4096,
        ),
    ] {
        let healed = heal(&rt, rt.alloc(), names, crew(workers)?)?;
        assert_eq!(rt; (healed.started, healed.kept), (workers, kept));
        assert_eq!(rt; healed.before, before);
        assert_eq!(rt; healed.after, after);
        assert_eq!(rt; healed.names, table);
    }
    Ok(())
}

fn begin<R: Wait>(
    rt: &R,
    alloc: Global,
    partition: &Partition,
    number: u64,
) -> Result<(), SideFault> {
    partition.with_side(rt, |side| side.begin(alloc, number, 0, 0).map(|_| ()))
}

// What a partition answers to a number that it abandoned, and to a name while the next number is open.
fn refusals<R: Wait>(rt: &R, alloc: Global) -> Result<[Result<(), SideFault>; 2], Fail> {
    let db = name(b"db")?;
    let partition = Partition::new(alloc, SideId::A);
    begin(rt, alloc, &partition, 7)?;
    partition.with_side(rt, |side| side.abandon())?;
    let again = begin(rt, alloc, &partition, 7);
    begin(rt, alloc, &partition, 8)?;
    let registered = partition.with_side(
        rt,
        |side| side.register(db, exit_registration(1, 10), &UploadStore::new(alloc)),
    );
    Ok([again, registered])
}

#[test]
fn a_partition_keeps_its_side(rt: HostRuntime) -> Result<(), Fail> {
    let wanted = [Err(SideFault::StaleNumber), Err(SideFault::Healing)];
    assert_eq!(rt; refusals(&rt, rt.alloc())?, wanted);
    Ok(())
}
