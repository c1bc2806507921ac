//! heal_bench: what the calls of `heal` cost on this machine.
#![tactic(auto)]

mod fault;
mod judging;
mod programs;

use std::process::ExitCode;
use std::{env, fmt, io};

const USAGE: &'static str = "usage: heal_bench program HEX RECORDHEX RUNS
       heal_bench judge HEX WORKERS

program: decodes and verifies the program 2,000 times, and prints the mean times in nanoseconds. Then runs it RUNS times on
the record in a scratch memory, where only the word changes from run to run, and RUNS times on a copy of such a record, and
prints the mean times of both, the steps of one run and the sum of all answers in the scratch memory.
judge: 1 to 16 WORKERS judge 4,096 clashes by the program in each of 20 rounds; prints the least time of a round in
nanoseconds, and how many verdicts were kept in all.
";

fn main(rt: HostRuntime) -> io::Result<ExitCode> {
    let words: Vec<String> = env::args(&rt)?.collect(rt.alloc())?;
    let words: Vec<&str> = words.iter().map(|word| word.as_str()).collect(rt.alloc())?;
    match words.as_slice() {
        [_, "judge", code, workers] => report(&rt, judging::measure(&rt, code, workers)),
        words => answer(&rt, words),
    }
}

// Measures what the words request in one thread, and prints it.
fn answer(rt: &HostRuntime, words: &[&str]) -> io::Result<ExitCode> {
    match words {
        // No words at all are a question, and words of another form are a fault.
        [] | [_] => {
            print!(rt; "{USAGE}")?;
            Ok(ExitCode::SUCCESS)
        }
        [_, "program", code, clash, runs] => report(rt, programs::measure(rt, code, clash, runs)),
        _ => {
            eprint!(rt; "{USAGE}")?;
            Ok(ExitCode::FAILURE)
        }
    }
}

// Prints what was measured, or why nothing was.
fn report<T: fmt::Display + Drop, E: fmt::Display + Drop>(
    rt: &HostRuntime,
    measured: Result<T, E>,
) -> io::Result<ExitCode> {
    match measured {
        Ok(measured) => {
            print!(rt; "{measured}")?;
            Ok(ExitCode::SUCCESS)
        }
        Err(fault) => {
            eprintln!(rt; "heal_bench: {fault}")?;
            Ok(ExitCode::FAILURE)
        }
    }
}
