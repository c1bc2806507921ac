//! A round whose rulings two sides take.
ghost use Rattle.std.specs.Prelude.{◌≡◌, ◌<◌, ◌≤◌, All, Some, IsTrue, length, vec_len};
ghost use Rattle.exchange_law.specs.Sides.{heard_clashes};
ghost use Rattle.exchange_core.specs.Shown.{shown};
ghost use Rattle.verdict_board.specs.Draws.{rounds};
ghost use Rattle.judge_pool.specs.Work.{round_posts};
ghost use Rattle.registry_lock.specs.Meeting.{StillSees};
ghost use Rattle.registry_lock.specs.Telling.{IsTold, AreTold};

use crate::inbox::Inbox;
use exchange_core::Side;
use judge_pool::{Gate, RoundDone, heal_round};
use std::alloc::Global;
use std::sync::Wait;
use std::thread::Threads;
use verdict_board::{Board, Pass, Seat};

/// How a round is judged, for two sides that take its rulings.
#[derive(Debug, Drop)]
pub struct Judging<'r, 'p, R, G> {
    /// The runtime that starts the workers' threads.
    pub rt: &'r R,
    /// The allocator of the rulings until the sides take them.
    pub alloc: Global,
    /// The board.
    pub board: &'r Board<'p>,
    /// The gate that each post passes.
    pub gate: &'r G,
    /// The number of the round, from 0 to 3.
    pub round: u32,
    /// Whether the board's clashes are known to be those of the first side.
    pub is_own: bool,
}

/// Runs a round as `heal_round` does, and then lets two sides take its rulings. Drops rulings that a side refuses or
/// that can't be queued, and all of them if no pass can be allocated.
///
/// Requires seats of this board and a round from 0 to 3. Both sides take what one pass of the board reads, each side at
/// most one ruling for each clash.
pub fn tell_round<'p, G: Gate + Sync, R: Threads + Wait + Sync>(
    rt: &R,
    alloc: Global,
    board: &Board<'p>,
    seats: Vec<Seat>,
    round: u32,
    gate: &G,
    first: Side,
    second: Side,
) -> (Side, Side, RoundDone)
    requires seats { All (λ s. s.draws ≡ board.now.draws) seats.items }
    requires round { round < rounds }
    // Each side differs only by takes of rulings, which one pass of this board has seen for both.
    ensures taken { AreTold board.entry.now.place first second result.0 result.1 }
    ensures seats { All (λ s. s.draws ≡ board.entry.now.draws) result.2.seats.items }
    // At least as many seats are returned as workers were started.
    ensures back { result.2.started ≤ vec_len result.2.seats }
    // Given a seat, at least one worker was started.
    ensures some { 0 < vec_len seats → 0 < result.2.started }
    // Without workers no post is counted.
    ensures none { result.2.started ≡ 0 → round_posts result.2 ≡ 0 }
{
    let (mut first, mut second) = (first, second);
    let done = match board.pass() {
        Ok(mut pass) => {
            let judging = Judging {
                rt,
                alloc,
                board,
                gate,
                round,
                is_own: false,
            };
            tell_round_by(judging, &mut pass, seats, &mut first, &mut second)
        }
        Err(_) => {
            let closed = Inbox::closed();
            heal_round(rt, alloc, board, seats, round, gate, &closed, &closed)
        }
    };
    (first, second, done)
}

/// Like `tell_round`, for sides that are lent, which take what this pass reads. Compares the board's clashes with those of each side,
/// but not with the first side's if `judging.is_own`: requires then that they are the first side's.
///
/// Requires a pass and seats of the board, and a round from 0 to 3.
pub fn tell_round_by<'p, G: Gate + Sync, R: Threads + Wait + Sync>(
    judging: Judging<'_, 'p, R, G>,
    pass: &mut Pass<'p>,
    seats: Vec<Seat>,
    first: &mut Side,
    second: &mut Side,
) -> RoundDone
    requires pass { pass.old.place ≡ judging.board.now.place }
    requires seats { All (λ s. s.draws ≡ judging.board.now.draws) seats.items }
    requires round { judging.round < rounds }
    requires own { IsTrue judging.is_own → heard_clashes (shown first.old) ≡ Some judging.board.now.place.clashes }
    // The pass still sees what it had seen.
    ensures keeps { StillSees pass.old pass.new }
    // Each side differs only by takes of rulings that the pass has then seen, at most one for each clash.
    ensures first { IsTold pass.new (length judging.entry.board.now.place.clashes) first.old first.new }
    ensures second { IsTold pass.new (length judging.entry.board.now.place.clashes) second.old second.new }
    ensures seats { All (λ s. s.draws ≡ judging.entry.board.now.draws) result.seats.items }
    // At least as many seats are returned as workers were started.
    ensures back { result.started ≤ vec_len result.seats }
    // Given a seat, at least one worker was started.
    ensures some { 0 < vec_len seats → 0 < result.started }
    // Without workers no post is counted.
    ensures none { result.started ≡ 0 → round_posts result ≡ 0 }
{
    let Judging {
        rt,
        alloc,
        board,
        gate,
        round,
        is_own,
    } = judging;
    let left = Inbox::new(alloc);
    let right = Inbox::new(alloc);
    let done = heal_round(rt, alloc, board, seats, round, gate, &left, &right);
    left.empty_into(rt, board, pass, is_own, first);
    right.empty_into(rt, board, pass, false, second);
    done
}
