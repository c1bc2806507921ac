//! Carries out a task.
ghost use Rattle.std.specs.Prelude.{◌≡◌};
ghost use Rattle.device.specs.Sending.{AppendsFront};
ghost use Rattle.heal_main.specs.Obeying.{Obeys, RunsFile, TellsUnopened};

use crate::person::Listener;
use command_line::{Names, Task};
use device::send;
use judge_pool::{Gate, OpenGate};
use partition_table::NameLimit;
use questions::{is_standard_input, print_refusals, print_version, reply_to};
use refusals::out_of_memory_line;
use scripts::{Crew, Narrator, run_narrated};
use std::fs;
use std::io::{ErrorKind, Input, Write};
use std::rt::Files;
use std::sync::Wait;
use std::thread::Threads;

/// Carries out a task, and returns the program's status: 0, or 2 if it or a line of a script was refused, or 3 if memory
/// ran out, a file couldn't be read, or the writer failed. Flushes the writer at the end.
///
/// Words for a person go to `errors`, and a failure there changes nothing.
pub(crate) fn obey<
    R: Files + Input + Threads + Wait + Sync + AllocGlobal,
    W: Write,
    E: Write,
    N: Narrator,
>(rt: &R, task: &Task<'_>, writer: &mut W, errors: &mut E, narrator: &N) -> u8
    ensures { Obeys task.now (W.contents writer.old) (W.contents writer.new) (E.contents errors.old)
        (E.contents errors.new) result }
{
    let status = carry_out(rt, task, writer, errors, narrator);
    match writer.flush() {
        Ok(()) => status,
        Err(_) => 3,
    }
}

// Carries out a task.
fn carry_out<
    R: Files + Input + Threads + Wait + Sync + AllocGlobal,
    W: Write,
    E: Write,
    N: Narrator,
>(rt: &R, task: &Task<'_>, writer: &mut W, errors: &mut E, narrator: &N) -> u8
    ensures { Obeys task.now (W.contents writer.old) (W.contents writer.new) (E.contents errors.old)
        (E.contents errors.new) result }
{
    match task {
        Task::Answer(question) => reply_to(rt, question, writer, errors),
        Task::Run {
            file,
            workers,
            names,
            explain,
        } => {
            let listener = Listener {
                narrator,
                explain: *explain,
            };
            let crew = Crew {
                rt,
                workers: *workers,
                gate: &OpenGate,
                narrator: &listener,
            };
            run(&crew, file, limit_of(*names), writer)
        }
        Task::Version => print_version(writer),
        Task::Refusals => print_refusals(rt.alloc(), writer),
    }
}

// Returns the limit of a number of names.
fn limit_of(names: Names) -> NameLimit
    ensures { result.names ≡ names.count }
{
    match NameLimit::new(names.count() as usize) {
        Some(limit) => limit,
        None => unreachable!(),
    }
}

// Carries out the script in a file or on standard input.
fn run<
    R: Files + Input + Threads + Wait + Sync + AllocGlobal,
    G: Gate + Sync,
    W: Write,
    N: Narrator,
>(crew: &Crew<'_, R, G, N>, file: &str, limit: NameLimit, writer: &mut W) -> u8
    ensures { RunsFile limit.names (W.contents writer.old) (W.contents writer.new) result }
{
    if is_standard_input(file) {
        return run_narrated(crew, &mut crew.rt.reader(), writer, limit);
    }
    match fs::open(crew.rt, file) {
        Ok(mut file) => run_narrated(crew, &mut file, writer, limit),
        Err(error) => tell_unopened(error.kind(), writer),
    }
}

// Reports that a file could not be opened, and returns the status.
fn tell_unopened<W: Write>(kind: ErrorKind, writer: &mut W) -> u8
    ensures status { result ≡ 3 }
    ensures prints { TellsUnopened (W.contents writer.old) (W.contents writer.new) }
{
    if kind == ErrorKind::OutOfMemory {
        return tell(writer, out_of_memory_line());
    }
    tell(writer, b"device fault\n")
}

// Prints the line and returns status 3, also if the device fails.
fn tell<W: Write>(writer: &mut W, line: &[u8]) -> u8
    ensures status { result ≡ 3 }
    ensures front { AppendsFront (W.contents writer.old) (W.contents writer.new) line.now }
{
    let _ = send(writer, line);
    3
}
