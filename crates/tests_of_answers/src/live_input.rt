//! Lines that come one by one, each only once the lines before it are answered.
ghost use Rattle.std.specs.Prelude.{None, Some};

use judge_pool::OpenGate;
use partition_table::NameLimit;
use scripts::run_script;
use std::alloc::Global;
use std::cell::Cell;
use std::io;
use std::io::{BufWriter, Read, Write};
use std::rt::Files;
use std::sync::Wait;
use std::test::Fail;
use std::thread::Threads;

/// Lines, and the answers to them.
const LINES: &[(&'static str, &'static str)] = &[
    ("register a db 1.1 0 0 - exit\n", "yes\n"),
    ("# a comment\n", ""),
    ("whereis a db\n", "1.1\n"),
    ("show a\n", "db 1.1 0 0 exit\nend\n"),
    ("heal 7\n", "healed 1 names\n"),
    ("whereis b db\n", "1.1\n"),
];

/// The number of bytes that a device took, and of its calls.
#[derive(Drop)]
struct Taken {
    bytes: Cell<usize>,
    calls: Cell<usize>,
}

impl Taken {
    fn nothing() -> Taken {
        Taken {
            bytes: Cell::new(0),
            calls: Cell::new(0),
        }
    }
}

/// A device that counts what it takes.
#[derive(Drop)]
struct NotingWriter<'a> {
    taken: &'a Taken,
}

impl<'a> Write for NotingWriter<'a> {
    ghost contents = { λ _. None };

    fn write(&mut self, buf: &[u8]) -> io::Result<usize> {
        self.taken
            .bytes
            .set(self.taken.bytes.get().wrapping_add(buf.len()));
        self.taken.calls.set(self.taken.calls.get().wrapping_add(1));
        Ok(buf.len())
    }

    fn flush(&mut self) -> io::Result<()> {
        Ok(())
    }
}

/// Returns one line a read, and counts the reads before which an answer to an earlier line was missing.
#[derive(Drop)]
struct LineReader<'a> {
    next: usize,
    answered: usize,
    late: usize,
    taken: &'a Taken,
}

impl<'a> Read for LineReader<'a> {
    ghost remaining = { λ _. None };

    fn read(&mut self, buf: &mut [u8]) -> io::Result<usize> {
        if self.taken.bytes.get() != self.answered {
            self.late = self.late.saturating_add(1);
        }
        let Some((line, answer)) = LINES.get(self.next) else {
            return Ok(0);
        };
        self.next = self.next.saturating_add(1);
        self.answered = self.answered.saturating_add(answer.len());
        let n = line.len().min(buf.len());
        buf[..n].copy_from_slice(&line.as_bytes()[..n]);
        Ok(n)
    }
}

/// Runs the reader's script, and returns whether it ends with status 0 and the writer takes all answers.
fn is_run<T, R, W>(rt: &T, reader: &mut R, writer: &mut W) -> bool
where
    T: Files + Threads + Wait + Sync + AllocGlobal,
    R: Read,
    W: Write,
{
    run_script(rt, reader, writer, NameLimit::default(), 4, &OpenGate) == 0
        && writer.flush().is_ok()
}

/// Checks that all earlier lines were answered before each read, and the last one at the end.
fn is_each_answered<T: Files + Threads + Wait + Sync + AllocGlobal>(rt: &T) -> io::Result<bool> {
    let taken = Taken::nothing();
    let mut reader = LineReader {
        next: 0,
        answered: 0,
        late: 0,
        taken: &taken,
    };
    let mut writer = BufWriter::new(rt.alloc(), NotingWriter { taken: &taken })?;
    let is_run = is_run(rt, &mut reader, &mut writer);
    Ok(is_run && reader.late == 0 && taken.bytes.get() == reader.answered)
}

/// Returns all lines in one piece.
fn whole_script(alloc: Global) -> io::Result<Vec<u8>> {
    let mut script = Vec::new(alloc);
    for (line, _) in LINES {
        script.extend_from_slice(line.as_bytes())?;
    }
    Ok(script)
}

/// Returns the number of writes for a script that is read in one piece, if it is run.
fn writes_for<T>(rt: &T, mut script: &[u8]) -> io::Result<Option<usize>>
where
    T: Files + Threads + Wait + Sync + AllocGlobal,
{
    let taken = Taken::nothing();
    let mut writer = BufWriter::new(rt.alloc(), NotingWriter { taken: &taken })?;
    let is_run = is_run(rt, &mut script, &mut writer);
    Ok(is_run.then_some(taken.calls.get()))
}

#[test]
fn an_answer_comes_before_the_next_line(rt: HostRuntime) -> Result<(), Fail> {
    let is_each_answered = is_each_answered(&rt)?;
    assert!(&rt; is_each_answered);
    Ok(())
}

#[test]
fn a_whole_script_takes_few_writes(rt: HostRuntime) -> Result<(), Fail> {
    let script = whole_script(rt.alloc())?;
    let writes = writes_for(&rt, &script)?;
    assert_eq!(&rt; writes, Some(1));
    Ok(())
}
