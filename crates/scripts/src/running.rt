//! The lines of a script, one after another.
ghost use Rattle.std.specs.Prelude.{◌≡◌, ◌<◌, ◌≤◌, [], IfOk};
ghost use Rattle.std.specs.Io.KnownBytes.{Keeps};
ghost use Rattle.verdict_board.specs.Boards.{most_seats};
ghost use Rattle.scripts.specs.Machines.{machine_of};
ghost use Rattle.scripts.specs.Runs.{IsRunFrom, IsScriptRun};

use crate::crew::Crew;
use crate::machine::Machine;
use crate::narrator::{Narrator, Silence};
use crate::serving::{ReadLine, serve};
use device::{DeviceFault, send_after};
use judge_pool::{Gate, Workers};
use partition_table::NameLimit;
use refusals::out_of_memory_line;
use script_text::{LineBuffer, ReadBuffer, Stop, next_line};
use std::alloc::{AllocError, Global};
use std::io::{Read, Write};
use std::rt::Files;
use std::sync::Wait;
use std::thread::Threads;

/// Carries out the reader's script line by line, on halves that may have as many names as `limit`, and writes the answer
/// to each line. Returns the status: 3 if a line or the whole script was refused 90 or a device failed, else 2 if a line
/// was refused, else 0.
///
/// A line `upload LABEL @FILE` is carried out like the line with the digits of the file's code, or refused with the fault of
/// the file. Any other line depends on no file.
///
/// Requires 1 to 16 workers, which judge the clashes of a `heal`; each of their posts passes the gate. Allocates the
/// buffers first, and reads nothing if that fails. If a read fails, the unfinished line isn't carried out; if a write
/// fails, a prefix of the output has been written.
///
/// Flushes the writer before each read of the reader, and at no other time.
pub fn run_script<T, R, W, G>(
    rt: &T,
    reader: &mut R,
    writer: &mut W,
    limit: NameLimit,
    workers: u32,
    gate: &G,
) -> u8
where
    T: Files + Threads + Wait + Sync + AllocGlobal,
    R: Read,
    W: Write,
    G: Gate + Sync,
    requires { (0 < workers) × (workers ≤ most_seats) }
    ensures { IsScriptRun limit.names (R.remaining reader.old) (R.remaining reader.new) (W.contents writer.old)
        (W.contents writer.new) result }
{
    let crew = Crew {
        rt,
        workers: Workers::new(workers).unwrap_or_default(),
        gate,
        narrator: &Silence,
    };
    run_narrated(&crew, reader, writer, limit)
}

/// Carries out a script like `run_script`, by a crew with a narrator.
///
/// If the narrator listens, it hears of each refused line and of each healing once their answer is written and flushed.
/// What it does changes neither the output nor the status.
pub fn run_narrated<T, R, W, G, N>(
    crew: &Crew<'_, T, G, N>,
    reader: &mut R,
    writer: &mut W,
    limit: NameLimit,
) -> u8
where
    T: Files + Threads + Wait + Sync + AllocGlobal,
    R: Read,
    W: Write,
    G: Gate + Sync,
    N: Narrator,
    ensures { IsScriptRun limit.names (R.remaining reader.old) (R.remaining reader.new) (W.contents writer.old)
        (W.contents writer.new) result }
{
    let alloc = crew.rt.alloc();
    let Ok(mut buffers) = Buffers::new(alloc) else {
        // That the device takes less doesn't change the status.
        let _ = send_after(Ok(()), writer, out_of_memory_line());
        return 3;
    };
    let mut machine = Machine::new(alloc, limit);
    run_lines(crew, &mut machine, &mut buffers, reader, writer)
}

// The buffer of unread bytes, and the buffer of a line.
#[derive(Drop)]
struct Buffers {
    unread: ReadBuffer,
    line: LineBuffer,
}

impl Buffers {
    // Returns empty buffers.
    fn new(alloc: Global) -> Result<Buffers, AllocError>
        ensures { IfOk result (λ buffers. (buffers.unread ≡ []) × (buffers.line ≡ [])) }
    {
        Ok(Buffers {
            unread: ReadBuffer::new(alloc)?,
            line: LineBuffer::new(alloc)?,
        })
    }
}

// Flushes the writer unless a whole line is buffered, so that no answer waits for the next read.
fn flush_before_read<W: Write>(buffer: &ReadBuffer, writer: &mut W) -> Result<(), DeviceFault>
    ensures { Keeps (W.contents writer.old) (W.contents writer.new) }
{
    if buffer.has_line() {
        return Ok(());
    }
    match writer.flush() {
        Ok(()) => Ok(()),
        Err(_) => Err(DeviceFault),
    }
}

// The lines, until the input or their numbers end, or a device fails.
fn run_lines<
    T: Files + Threads + Wait + Sync + AllocGlobal,
    R: Read,
    W: Write,
    G: Gate + Sync,
    N: Narrator,
>(
    crew: &Crew<'_, T, G, N>,
    machine: &mut Machine,
    buffers: &mut Buffers,
    reader: &mut R,
    writer: &mut W,
) -> u8
    requires fresh { (machine_of machine.old).latest ≡ 0 }
    requires unread { buffers.old.unread ≡ [] }
    ensures { IsRunFrom (machine_of machine.old) (R.remaining reader.old) (R.remaining reader.new) (W.contents writer.old)
        (W.contents writer.new) result }
{
    let mut status: u8 = 0;
    for before in 0..u64::MAX {
        if flush_before_read(&buffers.unread, writer).is_err() {
            return 3;
        }
        let Ok(found) = next_line(&mut buffers.unread, reader, &mut buffers.line) else {
            let _ = send_after(Ok(()), writer, b"device fault\n");
            return 3;
        };
        if found.stop == Stop::Nothing {
            return status;
        }
        let read = ReadLine {
            line: &buffers.line,
            is_long: found.is_long,
        };
        match serve(crew, machine, writer, before + 1, read) {
            Ok(of_line) => status = status.max(of_line),
            Err(_) => return 3,
        }
        if found.stop == Stop::End {
            return status;
        }
    }
    status
}
