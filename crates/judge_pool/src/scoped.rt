//! Workers in scoped threads, and one in the calling thread.
ghost use Rattle.std.specs.Prelude.{◌≡◌, ◌≤◌, ◌<◌, ◌+◌, All, vec_len, vec_capacity};
ghost use Rattle.judge_pool.specs.Work.{round_posts};

use crate::done::Done;
use crate::healing::RoundDone;
use std::alloc::Global;
use std::snapshot::Snapshot;
use std::sync::Wait;
use std::thread;
use std::thread::{Promise, PromisedHandle, Threads};
use verdict_board::Seat;

// What a worker does with a seat. No lifetime is named here, so that the threads' closures keep their contracts.
pub(crate) trait Worker {
    ghost use Rattle.atomic_table.specs.Seated.{TableId};

    // Which board's seats it takes.
    ghost draws: { Self → TableId };

    fn run<R: Wait>(&self, rt: &R, seat: Seat) -> Done
        requires { seat.draws ≡ Self.draws self.now }
        ensures { result.seat.draws ≡ Self.draws self.entry.now };
}

// The returned seat belongs to the same board as this one.
#[derive(Drop)]
pub(crate) struct SameBoard(Snapshot<Seat>);

impl Promise<Done> for SameBoard {
    ghost kept_by = { λ p r. r.seat.draws ≡ p.0.value.draws };
}

// Runs one worker for each seat: the last in the calling thread, each other in a new thread.
pub(crate) fn run_all<W: Worker + Sync, R: Threads + Wait + Sync>(
    rt: &R,
    alloc: Global,
    worker: &W,
    seats: Vec<Seat>,
) -> RoundDone
    requires { All (λ s. s.draws ≡ W.draws worker.now) seats.items }
    ensures board { All (λ s. s.draws ≡ W.draws worker.now) result.seats.items }
    ensures back { result.started ≤ vec_len result.seats }
    ensures some { 0 < vec_len seats → 0 < result.started }
    ensures none { result.started ≡ 0 → round_posts result ≡ 0 }
{
    let mut rest = seats;
    let Some(own) = rest.pop() else {
        return RoundDone::new(rest);
    };
    match Vec::with_capacity(alloc, rest.len()) {
        Ok(children) => run_beside(rt, worker, own, rest, children),
        Err(_) => run_here(rt, worker, own, rest),
    }
}

// Works at this seat in the calling thread, and then puts it among the rest.
fn run_here<W: Worker, R: Wait>(rt: &R, worker: &W, own: Seat, rest: Vec<Seat>) -> RoundDone
    requires own { own.draws ≡ W.draws worker.now }
    requires rest { All (λ s. s.draws ≡ W.draws worker.now) rest.items }
    requires room { vec_len rest < vec_capacity rest }
    ensures board { All (λ s. s.draws ≡ W.draws worker.entry.now) result.seats.items }
    ensures seats { vec_len result.seats ≡ vec_len rest + 1 }
    ensures room { vec_capacity rest ≤ vec_capacity result.seats }
    ensures started { result.started ≡ 1 }
{
    let mut all = RoundDone::new(rest);
    all.add(worker.run(rt, own));
    all
}

// Starts a thread for each of the rest, works at its own seat, and returns once all have ended.
fn run_beside<W: Worker + Sync, R: Threads + Wait + Sync>(
    rt: &R,
    worker: &W,
    own: Seat,
    rest: Vec<Seat>,
    children: Vec<PromisedHandle<Done, SameBoard>>,
) -> RoundDone
    requires own { own.draws ≡ W.draws worker.now }
    requires rest { All (λ s. s.draws ≡ W.draws worker.now) rest.items }
    requires children { (vec_len children ≡ 0) × (vec_len rest ≤ vec_capacity children) }
    requires room { vec_len rest < vec_capacity rest }
    ensures board { All (λ s. s.draws ≡ W.draws worker.entry.now) result.seats.items }
    ensures back { result.started ≤ vec_len result.seats }
    ensures some { 0 < result.started }
{
    thread::scope(
        thread::scope_env(),
        rt,
        |scope| -> RoundDone
            requires { (own.draws ≡ W.draws worker.now)
                × All (λ s. s.draws ≡ W.draws worker.now) rest.items × (vec_len children ≡ 0)
                × (vec_len rest ≤ vec_capacity children) × (vec_len rest < vec_capacity rest) }
            ensures board { All (λ s. s.draws ≡ W.draws worker.entry.now) result.seats.items }
            ensures back { result.started ≤ vec_len result.seats }
            ensures some { 0 < result.started }
        {
            let mut rest = rest;
            let mut children = children;
            while let Some(seat) = rest.pop() {
                let same = SameBoard(Snapshot::of(&seat));
                let started = scope.spawn_with(
                    same,
                    move || -> Done
                        requires { seat.draws ≡ W.draws worker.now }
                        ensures { result.seat.draws ≡ W.draws worker.entry.now }
                    { worker.run(rt, seat) },
                );
                if let Ok(child) = started {
                    let Ok(()) = children.push(child) else {
                        unreachable!()
                    };
                }
            }
            join_workers(rt, worker, children, run_here(rt, worker, own, rest))
        },
    )
}

// Waits for these threads, and adds their work and their seats to the first worker's.
fn join_workers<W: Worker, R: Threads>(
    rt: &R,
    worker: &W,
    children: Vec<PromisedHandle<Done, SameBoard>>,
    first: RoundDone,
) -> RoundDone
    requires promised { All (λ h. h.promise.0.value.draws ≡ W.draws worker.now) children.items }
    requires board { All (λ s. s.draws ≡ W.draws worker.now) first.seats.items }
    requires room { vec_len children + vec_len first.seats ≤ vec_capacity first.seats }
    requires back { first.started ≤ vec_len first.seats }
    requires some { 0 < first.started }
    ensures board { All (λ s. s.draws ≡ W.draws worker.now) result.seats.items }
    ensures back { result.started ≤ vec_len result.seats }
    ensures some { 0 < result.started }
{
    // The clauses name the worker's board.
    let _ = worker;
    let mut all = first;
    let mut rest = children;
    while let Some(child) = rest.pop() {
        all.add(child.join(rt));
    }
    all
}
