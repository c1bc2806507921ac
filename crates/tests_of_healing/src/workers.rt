//! Workers that judge the clashes of a board concurrently.
ghost use Rattle.std.specs.Prelude.{◌≡◌, All, vec_len};

use crate::exchanging::crew;
use crate::registering::exit_clashes;
use fixtures::Together;
use judge_pool::{Ear, OpenGate, Workers, heal_round};
use partition_table::{ClashList, Ruling};
use std::alloc::Global;
use std::sync::Wait;
use std::sync::atomic::{AtomicU64, Ordering};
use std::test::Fail;
use std::thread::Threads;
use std::time::Clock;
use verdict_board::{Board, Pass, Seat, open};

// Counts the rulings that it hears of each clash.
#[derive(Drop)]
struct Told {
    each: Vec<AtomicU64>,
}

impl Told {
    fn new(alloc: Global, count: usize) -> Result<Told, Fail> {
        let mut each = Vec::new(alloc);
        for _ in 0..count {
            each.push(AtomicU64::new(0))?;
        }
        Ok(Told { each })
    }

    fn is_once_each(&self) -> bool {
        self.each
            .iter()
            .all(|times| times.load(Ordering::SeqCst) == 1)
    }
}

impl Ear for Told {
    fn told<'p, R: Wait>(&self, _rt: &R, ruling: Ruling<'p>, _pass: &Pass<'p>) {
        if let Some(times) = self.each.get(ruling.k as usize) {
            times.fetch_add(1, Ordering::SeqCst);
        }
    }
}

// The gate before each post, and the two ears.
#[derive(Drop)]
struct Listeners<'a, C> {
    gate: Together<'a, C>,
    left: Told,
    right: Told,
}

// The counts of a round.
#[derive(Clone, Copy)]
struct Worked {
    started: u32,
    // The posts that were kept, came after an earlier verdict, and were refused.
    posts: (u32, u32, u32),
    // The draws in each round.
    drawn: [u64; 4],
}

impl<'a, R: Threads + Wait + Clock + Sync> Listeners<'a, R> {
    fn new(rt: &'a R, alloc: Global, held: u64, count: usize) -> Result<Listeners<'a, R>, Fail> {
        let left = Told::new(alloc, count)?;
        let right = Told::new(alloc, count)?;
        Ok(Listeners {
            gate: Together::new(rt, held),
            left,
            right,
        })
    }

    fn is_told_once_each(&self) -> bool {
        self.left.is_once_each() && self.right.is_once_each()
    }

    // Judges a round of a board by its seats.
    fn work<'p>(
        &self,
        rt: &R,
        alloc: Global,
        board: &Board<'p>,
        seats: Vec<Seat>,
    ) -> Result<Worked, Fail>
        requires board { All (λ s. s.draws ≡ board.now.draws) seats.items }
        requires all { vec_len seats ≡ board.now.seats }
    {
        let workers = seats.len();
        let done = heal_round(
            rt,
            alloc,
            board,
            seats,
            0,
            &self.gate,
            &self.left,
            &self.right,
        );
        if done.seats.len() != workers {
            return Err(Fail::from("a seat is lost"));
        }
        Ok(Worked {
            started: done.started,
            posts: (done.kept, done.earlier, done.refused),
            drawn: board.gather(done.seats),
        })
    }

    fn work_anew(
        &self,
        rt: &R,
        alloc: Global,
        list: &ClashList,
        workers: Workers,
    ) -> Result<Worked, Fail> {
        let (board, seats) = open(alloc, 7, 100, list, workers.count())?;
        self.work(rt, alloc, &board, seats)
    }
}

// The outcome of a round: its counts, the posts that reached the gate and those that it released too early, and whether
// both ears heard each ruling once.
#[derive(Clone, Copy)]
struct Outcome {
    worked: Worked,
    gate: (u64, u64),
    once_each: bool,
}

// Judges `count` clashes by `workers` workers. The gate holds the posts until `held` posts reach it.
fn judge<R: Threads + Wait + Clock + Sync>(
    rt: &R,
    alloc: Global,
    workers: Workers,
    count: u16,
    held: u64,
) -> Result<Outcome, Fail> {
    let list = exit_clashes(alloc, count)?;
    let listeners = Listeners::new(rt, alloc, held, list.len())?;
    let worked = listeners.work_anew(rt, alloc, &list, workers)?;
    Ok(Outcome {
        worked,
        gate: listeners.gate.counts(),
        once_each: listeners.is_told_once_each(),
    })
}

#[test]
fn workers_run_beside_each_other(rt: HostRuntime) -> Result<(), Fail> {
    for (workers, count, held) in [(2, 2, 2), (16, 16, 16), (16, 4096, 16)] {
        let Outcome {
            worked,
            gate,
            once_each,
        } = judge(&rt, rt.alloc(), crew(workers)?, count, held)?;
        assert_eq!(rt; worked.started, workers);
        assert_eq!(rt; worked.posts, (u32::from(count), 0, 0));
        assert_eq!(rt; gate, (u64::from(count), 0));
        assert!(rt; once_each);
        assert!(rt; worked.drawn[0] >= u64::from(count) && worked.drawn[1] == 0);
    }
    Ok(())
}

// Returns how many posts of each of two rounds are kept, come after an earlier verdict, and are refused.
fn judge_twice<R: Threads + Wait + Sync>(
    rt: &R,
    alloc: Global,
    workers: Workers,
    count: u16,
) -> Result<[(u32, u32, u32); 2], Fail> {
    let list = exit_clashes(alloc, count)?;
    let (board, seats) = open(alloc, 7, 100, &list, workers.count())?;
    Ok(judge_rounds(rt, alloc, &board, seats))
}

fn judge_rounds<'p, R: Threads + Wait + Sync>(
    rt: &R,
    alloc: Global,
    board: &Board<'p>,
    seats: Vec<Seat>,
) -> [(u32, u32, u32); 2]
    requires { All (λ s. s.draws ≡ board.now.draws) seats.items }
{
    let ear = Told {
        each: Vec::new(alloc),
    };
    let first = heal_round(rt, alloc, board, seats, 0, &OpenGate, &ear, &ear);
    let before = (first.kept, first.earlier, first.refused);
    let second = heal_round(rt, alloc, board, first.seats, 1, &OpenGate, &ear, &ear);
    [before, (second.kept, second.earlier, second.refused)]
}

#[test]
fn a_second_round_posts_too_late(rt: HostRuntime) -> Result<(), Fail> {
    for (workers, count) in [(1, 1), (2, 3), (16, 40)] {
        let posts = judge_twice(&rt, rt.alloc(), crew(workers)?, count)?;
        let all = u32::from(count);
        assert_eq!(rt; posts, [(all, 0, 0), (0, all, 0)]);
    }
    Ok(())
}
