//! The cost of a round of judging, by the count of workers.
use crate::fault::Fault;
use clash_record::ResolverId;
use fixtures::{numbered_clashes, stored};
use judge_pool::{Ear, OpenGate, Workers, heal_round};
use partition_table::{ClashList, Ruling};
use std::alloc::Global;
use std::fmt;
use std::sync::Wait;
use std::thread::Threads;
use std::time::{Clock, Instant};
use verdict_board::{Pass, open};

/// The count of clashes.
const CLASHES: u16 = 4096;

/// The number of the exchange.
const NUMBER: u64 = 1;

/// The seed of its words.
const SEED: u64 = 0;

/// The count of timed rounds, each on a new board.
const ROUNDS: u32 = 20;

/// The least time in nanoseconds of a round, and how many verdicts were kept in all.
#[derive(Clone, Copy)]
pub(crate) struct RoundTime {
    judge: u128,
    kept: u32,
}

impl fmt::Display for RoundTime {
    fn fmt<W: fmt::Write>(&self, f: &mut fmt::Formatter<W>) -> fmt::Result {
        writeln!(f, "judge {} ns\nkept {}", self.judge, self.kept)
    }
}

/// Ignores each ruling.
#[derive(Drop)]
struct Deaf;

impl Ear for Deaf {
    fn told<'p, R: Wait>(&self, _rt: &R, _ruling: Ruling<'p>, _pass: &Pass<'p>) {}
}

/// Measures rounds in which `workers` workers judge 4,096 clashes by the program.
pub(crate) fn measure<R: Threads + Wait + Clock + AllocGlobal + Sync>(
    rt: &R,
    code: &str,
    workers: &str,
) -> Result<RoundTime, Fault> {
    let workers = workers_of(workers)?;
    let list = clashes_by(rt.alloc(), &hex::decode(rt.alloc(), code)?)?;
    measure_rounds(rt, &list, workers)
}

fn measure_rounds<R: Threads + Wait + Clock + AllocGlobal + Sync>(
    rt: &R,
    list: &ClashList,
    workers: Workers,
) -> Result<RoundTime, Fault> {
    let mut least = u128::MAX;
    let mut kept: u32 = 0;
    for _ in 0..ROUNDS {
        let (judge, of_round) = measure_round(rt, list, workers)?;
        least = least.min(judge);
        kept = kept.wrapping_add(of_round);
    }
    Ok(RoundTime { judge: least, kept })
}

// Returns the nanoseconds of one round on a new board, and how many verdicts were kept.
fn measure_round<R: Threads + Wait + Clock + AllocGlobal + Sync>(
    rt: &R,
    list: &ClashList,
    workers: Workers,
) -> Result<(u128, u32), Fault> {
    let (board, seats) = open(rt.alloc(), NUMBER, SEED, list, workers.count())?;
    let start = Instant::now(rt)?;
    let done = heal_round(rt, rt.alloc(), &board, seats, 0, &OpenGate, &Deaf, &Deaf);
    Ok((start.elapsed(rt)?.as_nanos(), done.kept))
}

// Reads the number of workers.
fn workers_of(word: &str) -> Result<Workers, Fault> {
    match word.parse::<u32>() {
        Ok(count) => Workers::new(count).ok_or(Fault::Workers),
        Err(_) => Err(Fault::Workers),
    }
}

// Returns the clashes of two tables that have each name on two nodes, all judged by this program.
fn clashes_by(alloc: Global, code: &[u8]) -> Result<ClashList, Fault> {
    let (store, program) = stored(alloc, code)?;
    Ok(numbered_clashes(alloc, CLASHES, ResolverId::Program(program), &store)?)
}
