//! Callers of a board that post and read one after another: the first verdict stays.

use crate::exchanging::{NUMBER, SEED};
use crate::registering::exit_clashes;
use builtin_resolvers::Verdict3;
use fixtures::{Act, Caller, Saw};
use std::alloc::Global;
use std::sync::Wait;
use std::test::Fail;
use std::thread;
use std::thread::Threads;
use verdict_board::{Board, open};

/// The thread in which a caller acts.
#[derive(Clone, Copy)]
enum Place {
    Here,
    OwnThread,
}

fn act_alone<'a, 'p, R: Threads + Wait + Sync>(
    caller: Caller<'a, 'p>,
    rt: &R,
    act: Act,
) -> Result<(Caller<'a, 'p>, Saw), Fail> {
    thread::scope(thread::scope_env(), rt, |scope| {
        match scope.spawn(move || caller.act(act)) {
            Ok(child) => Ok(child.join(rt)),
            Err(_) => Err(Fail::from("no thread")),
        }
    })
}

fn act_at<'a, 'p, R: Threads + Wait + Sync>(
    caller: Caller<'a, 'p>,
    rt: &R,
    place: Place,
    act: Act,
) -> Result<(Caller<'a, 'p>, Saw), Fail> {
    match place {
        Place::Here => Ok(caller.act(act)),
        Place::OwnThread => act_alone(caller, rt, act),
    }
}

// Returns what the caller reads of clash 0 in the end.
fn last<'a, 'p, R: Threads + Wait + Sync>(
    caller: Caller<'a, 'p>,
    rt: &R,
    place: Place,
) -> Result<Saw, Fail> {
    Ok(act_at(caller, rt, place, Act::Read(0))?.1)
}

// One caller reads, the second posts in one round and the third in another. Then these three read, and a new caller
// reads the clash and past it.
fn play<'p, R: Threads + Wait + Sync>(
    rt: &R,
    board: &Board<'p>,
    place: Place,
    rounds: (u32, u32),
) -> Result<[Saw; 8], Fail> {
    let (early, before) = act_at(Caller::new(board)?, rt, place, Act::Read(0))?;
    let (kept, first) = act_at(Caller::new(board)?, rt, place, Act::Post(rounds.0))?;
    let (late, second) = act_at(Caller::new(board)?, rt, place, Act::Post(rounds.1))?;
    let early = last(early, rt, place)?;
    let kept = last(kept, rt, place)?;
    let late = last(late, rt, place)?;
    let (new, after) = act_at(Caller::new(board)?, rt, place, Act::Read(0))?;
    let (_, past) = act_at(new, rt, place, Act::Read(1))?;
    Ok([before, first, second, early, kept, late, after, past])
}

// Plays on a new board of one clash.
fn play_anew<R: Threads + Wait + Sync>(
    rt: &R,
    alloc: Global,
    place: Place,
    rounds: (u32, u32),
) -> Result<[Saw; 8], Fail> {
    let list = exit_clashes(alloc, 1)?;
    let (board, _) = open(alloc, NUMBER, SEED, &list, 2)?;
    play(rt, &board, place, rounds)
}

#[test]
fn the_first_verdict_stays_for_every_thread(rt: HostRuntime) -> Result<(), Fail> {
    for (place, rounds, ruling) in [
        (Place::Here, (0, 1), Saw::Ruling(0, Verdict3::First)),
        (Place::Here, (1, 0), Saw::Ruling(1, Verdict3::Second)),
        (Place::OwnThread, (0, 1), Saw::Ruling(0, Verdict3::First)),
        (Place::OwnThread, (1, 0), Saw::Ruling(1, Verdict3::Second)),
    ] {
        let wanted = [
            Saw::Nothing,
            Saw::Kept,
            Saw::Earlier,
            ruling,
            ruling,
            ruling,
            ruling,
            Saw::Nothing,
        ];
        assert_eq!(rt; play_anew(&rt, rt.alloc(), place, rounds)?, wanted);
    }
    Ok(())
}
