//! Draws of two seats of a board, and a worker that is lost.
ghost use Rattle.std.specs.Prelude.{◌≡◌, IfOk};

use crate::exchanging::{NUMBER, SEED};
use crate::registering::exit_clashes;
use builtin_resolvers::Verdict3;
use fixtures::{Act, Caller, Saw};
use partition_table::ClashList;
use std::alloc::Global;
use std::test::Fail;
use verdict_board::{Board, Draw, Seat, open};

// A board of seed 0 with two seats.
fn open_for_two<'p>(alloc: Global, list: &'p ClashList) -> Result<(Board<'p>, Seat, Seat), Fail>
    ensures { IfOk result (λ opened. (opened.1.draws ≡ opened.0.draws) × (opened.2.draws ≡ opened.0.draws)) }
{
    let (board, mut seats) = open(alloc, NUMBER, SEED, list, 2)?;
    match (seats.pop(), seats.pop()) {
        (Some(a), Some(b)) => Ok((board, a, b)),
        _ => Err(Fail::from("not two seats")),
    }
}

// What the first seat draws in round 0, the second in rounds 0 and 1, and the first in round 1.
fn draw_in_turn(alloc: Global, count: u16) -> Result<[Draw; 4], Fail> {
    let list = exit_clashes(alloc, count)?;
    let (board, mut a, mut b) = open_for_two(alloc, &list)?;
    Ok([
        board.draw(&mut a, 0),
        board.draw(&mut b, 0),
        board.draw(&mut b, 1),
        board.draw(&mut a, 1),
    ])
}

#[test]
fn one_of_two_seats_draws_the_clash(rt: HostRuntime) -> Result<(), Fail> {
    for (count, drawn) in [(0, Draw::Spent), (1, Draw::Clash(0))] {
        let draws = draw_in_turn(rt.alloc(), count)?;
        assert_eq!(rt; draws, [drawn, Draw::Spent, drawn, Draw::Spent]);
    }
    Ok(())
}

// What a worker draws in round 0 before it is lost, and the other one in rounds 0 and 1 after.
fn draw_and_lose<'p>(board: &Board<'p>, lost: Seat, other: Seat) -> [Draw; 3]
    requires { (lost.draws ≡ board.now.draws) × (other.draws ≡ board.now.draws) }
{
    let mut lost = lost;
    let mut other = other;
    let before = board.draw(&mut lost, 0);
    drop(lost);
    [before, board.draw(&mut other, 0), board.draw(&mut other, 1)]
}

// The same on a board of one clash, and what then is seen of it.
fn lose_a_worker(alloc: Global) -> Result<([Draw; 3], [Saw; 2]), Fail> {
    let list = exit_clashes(alloc, 1)?;
    let (board, lost, other) = open_for_two(alloc, &list)?;
    let draws = draw_and_lose(&board, lost, other);
    let (caller, posted) = Caller::new(&board)?.act(Act::Post(1));
    let (_, read) = caller.act(Act::Read(0));
    Ok((draws, [posted, read]))
}

#[test]
fn a_lost_worker_leaves_its_clash(rt: HostRuntime) -> Result<(), Fail> {
    let (draws, saw) = lose_a_worker(rt.alloc())?;
    assert_eq!(rt; draws, [Draw::Clash(0), Draw::Spent, Draw::Clash(0)]);
    assert_eq!(rt; saw, [Saw::Kept, Saw::Ruling(1, Verdict3::Second)]);
    Ok(())
}
