//! One half of a cluster, alone in its process: carries out the lines of standard input, and prints an answer to each.
//!
//! Start one process with the argument `a` and one with `b`. What one prints after `offer` or `list` is a message: pass it
//! to the other as `hear HEX` or `hear-list HEX`. `scripts/two_processes.py` does so.
#![tactic(auto)]

mod half;
mod line;
mod refused;

use half::{Half, Reply};
use heal::{Finished, Side, SideId, words_of};
use refused::Refused;
use std::io;
use std::io::{BufRead, BufReader};
use std::process::ExitCode;

fn main(rt: HostRuntime) -> io::Result<ExitCode> {
    let Some(id) = side_id(&rt)? else {
        eprintln!(&rt; "usage: example_half a|b")?;
        return Ok(ExitCode::FAILURE);
    };
    let mut half = Half::new(rt.alloc(), id);
    for line in BufReader::new(rt.alloc(), rt.reader())?.lines(rt.alloc()) {
        answer(&rt, &mut half, &line?)?;
    }
    Ok(ExitCode::SUCCESS)
}

// The side that the only argument names.
fn side_id(rt: &HostRuntime) -> io::Result<Option<SideId>> {
    let words: Vec<String> = std::env::args(rt)?.collect(rt.alloc())?;
    let [_, side] = words.as_slice() else {
        return Ok(None);
    };
    Ok(match side.as_str() {
        "a" => Some(SideId::A),
        "b" => Some(SideId::B),
        _ => None,
    })
}

// Carries out a line and prints its answer.
fn answer(rt: &impl Print, half: &mut Half, line: &str) -> io::Result<()> {
    match half.obey(line) {
        Ok(Reply::Done) => println!(rt; "yes"),
        Ok(Reply::Program(id)) => println!(rt; "program {id}"),
        Ok(Reply::Offer(message)) => println!(rt; "offer {message}"),
        Ok(Reply::List(message)) => println!(rt; "list {message}"),
        Ok(Reply::Finished(finished)) => print_finished(rt, &finished),
        Ok(Reply::Names) => print_names(rt, half.side()),
        Err(Refused(refusal)) => println!(rt; "{refusal}: {}", words_of(refusal.number)),
    }
}

// Prints the number of clashes and of names, and the word and verdict of each clash, in the order of names.
fn print_finished(rt: &impl Print, finished: &Finished) -> io::Result<()> {
    let clashes = finished.rulings().len();
    println!(rt;
        "finished: {clashes} clashes, {} names",
        finished.table().len()
    )?;
    for ruling in finished.rulings() {
        println!(rt; "{} at {}", ruling.answer, ruling.word)?;
    }
    println!(rt; "end")
}

// Prints each name with its owner and stamp, in the order of names.
fn print_names(rt: &impl Print, side: &Side) -> io::Result<()> {
    for (name, registration) in side.rows() {
        println!(rt; "{name} {} {}", registration.owner, registration.stamp)?;
    }
    println!(rt; "end")
}
