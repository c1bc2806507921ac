//! Two sides that take the rulings of a round once its workers have ended, finish and meet.
ghost use Rattle.std.specs.Prelude.{◌≡◌, All};

use crate::exchanging::{NUMBER, SEED, begin, crew, meet_at, rulings_of};
use crate::registering::Names;
use builtin_resolvers::Verdict3;
use clash_record::{Owner, SideId, name};
use exchange_core::{Judged, Side};
use fixtures::{Ended, Together, finish_both};
use judge_pool::{Gate, OpenGate, Workers};
use partition_table::ClashList;
use registry_lock::tell_round;
use std::alloc::Global;
use std::sync::Wait;
use std::test::Fail;
use std::thread::Threads;
use verdict_board::{Board, Seat, open};

// Two sides, and the counts of the round that judged for them.
#[derive(Drop)]
struct Sides {
    a: Side,
    b: Side,
    started: u32,
    kept: u32,
    alloc: Global,
}

// The outcome of a healing.
#[derive(Clone, Copy)]
struct Outcome {
    started: u32,
    kept: u32,
    // The counts of events after the round.
    events: (usize, usize),
    // The first four that each side finished with.
    rulings: [[Option<Judged>; 4]; 2],
    // The count of names in the merged table, and the owner of `db`.
    names: usize,
    db: Option<Owner>,
}

impl Sides {
    fn new(alloc: Global) -> Sides {
        Sides {
            a: Side::new(alloc, SideId::A),
            b: Side::new(alloc, SideId::B),
            started: 0,
            kept: 0,
            alloc,
        }
    }

    fn begin(&mut self, names: Names) -> Result<ClashList, Fail> {
        names.register(self.alloc, &mut self.a, &mut self.b)?;
        begin(self.alloc, &mut self.a, &mut self.b)
    }

    fn told<'p, G: Gate + Sync, R: Threads + Wait + Sync>(
        self,
        rt: &R,
        board: &Board<'p>,
        seats: Vec<Seat>,
        gate: &G,
    ) -> Sides
        requires { All (λ s. s.draws ≡ board.now.draws) seats.items }
    {
        let Sides { a, b, alloc, .. } = self;
        let (a, b, done) = tell_round(rt, alloc, board, seats, 0, gate, a, b);
        Sides {
            a,
            b,
            started: done.started,
            kept: done.kept,
            alloc,
        }
    }

    fn finish(self) -> Result<Ended, Fail> {
        let Sides {
            mut a,
            mut b,
            alloc,
            ..
        } = self;
        Ok(finish_both(alloc, &mut a, &mut b)?)
    }

    fn heal<G: Gate + Sync, R: Threads + Wait + Sync>(
        self,
        rt: &R,
        list: &ClashList,
        workers: Workers,
        gate: &G,
    ) -> Result<Outcome, Fail> {
        let db = name(b"db")?;
        let (board, seats) = open(self.alloc, NUMBER, SEED, list, workers.count())?;
        let told = self.told(rt, &board, seats, gate);
        let (started, kept) = (told.started, told.kept);
        let events = (told.a.events(), told.b.events());
        let ended = told.finish()?;
        let rulings = rulings_of(&ended);
        let table = meet_at(ended, &board)?;
        Ok(Outcome {
            started,
            kept,
            events,
            rulings,
            names: table.len(),
            db: table.whereis(&db).map(|registration| registration.owner),
        })
    }
}

// Heals two sides with these names: a round of `workers` workers judges, both sides finish, and they meet.
fn heal<G: Gate + Sync, R: Threads + Wait + Sync>(
    rt: &R,
    alloc: Global,
    names: Names,
    workers: Workers,
    gate: &G,
) -> Result<Outcome, Fail> {
    let mut sides = Sides::new(alloc);
    let list = sides.begin(names)?;
    sides.heal(rt, &list, workers, gate)
}

#[test]
fn two_told_sides_meet(rt: HostRuntime) -> Result<(), Fail> {
    let healed = heal(&rt, rt.alloc(), Names::DbAndWeb, crew(2)?, &OpenGate)?;
    assert_eq!(rt; (healed.started, healed.kept), (2, 1));
    assert_eq!(rt; healed.events, (4, 5));
    assert_eq!(rt; healed.names, 2);
    let kept = Owner {
        node: 1,
        serial: 10,
    };
    assert_eq!(rt; healed.db, Some(kept));
    Ok(())
}

#[test]
fn three_clashes_are_told_in_order(rt: HostRuntime) -> Result<(), Fail> {
    let healed = heal(&rt, rt.alloc(), Names::Three, crew(2)?, &OpenGate)?;
    let ruling = |word, answer| Some(Judged { word, answer });
    let rulings = [
        ruling(0, Verdict3::First),
        ruling(1, Verdict3::Second),
        ruling(2, Verdict3::First),
        None,
    ];
    assert_eq!(rt; healed.rulings, [rulings, rulings]);
    Ok(())
}

#[test]
fn told_workers_run_beside_each_other(rt: HostRuntime) -> Result<(), Fail> {
    for workers in [2, 16] {
        let gate = Together::new(&rt, u64::from(workers));
        let healed = heal(
            &rt,
            rt.alloc(),
            Names::Numbered(workers),
            crew(u32::from(workers))?,
            &gate,
        )?;
        let all = u32::from(workers);
        assert_eq!(rt; (healed.started, healed.kept), (all, all));
        assert_eq!(rt; gate.counts(), (u64::from(workers), 0));
        assert_eq!(rt; healed.names, usize::from(workers));
    }
    Ok(())
}
