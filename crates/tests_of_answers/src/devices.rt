//! Tests of devices that fail in mid-stream, and of running out of memory.
ghost use Rattle.std.specs.Prelude.{Some};

use crate::asking::{ON_DB, by_record};
use questions::{Failure, Question, asm_from, refuse_memory, reply_to, texts_of};
use std::alloc::Global;
use std::io;
use std::io::{ErrorKind, Read, Write};
use std::test::Fail;

// A device that takes a number of bytes a call, and fails from a call on.
#[derive(Drop)]
struct Device {
    held: Vec<u8>,
    step: usize,
    calls_left: usize,
    interrupts: usize,
}

impl Write for Device {
    ghost contents = { λ d. Some d.held.items };

    fn write(&mut self, buf: &[u8]) -> io::Result<usize> {
        if self.interrupts > 0 {
            self.interrupts -= 1;
            return Err(io::Error::from(ErrorKind::Interrupted));
        }
        if self.calls_left == 0 {
            return Err(io::Error::from(ErrorKind::BrokenPipe));
        }
        self.calls_left -= 1;
        let count = self.step.min(buf.len());
        self.held.extend_from_slice(&buf[..count])?;
        Ok(count)
    }

    fn flush(&mut self) -> io::Result<()> {
        Ok(())
    }
}

// Returns the status for a device that takes a byte a call and fails after `calls` of them, and whether it has a prefix
// of the line.
fn reply_to_device(rt: &HostRuntime, calls: usize, line: &[u8]) -> Result<(u8, bool), Fail> {
    let clash = ON_DB.digits(rt.alloc())?;
    let question = by_record("b7000000010000009500000000000000", clash.as_str());
    let mut device = Device {
        held: Vec::new(rt.alloc()),
        step: 1,
        calls_left: calls,
        interrupts: 2,
    };
    let mut errors = Vec::new(rt.alloc());
    let status = reply_to(rt, &question, &mut device, &mut errors);
    Ok((
        status,
        device.held.as_slice() == &line[..calls.min(line.len())],
    ))
}

#[test]
fn a_failing_device(rt: HostRuntime) -> Result<(), Fail> {
    let line = b"first in 2 steps\n";
    for calls in 0..=line.len() {
        let status = if calls == line.len() { 0 } else { 3 };
        assert_eq!(rt;
            reply_to_device(&rt, calls, line)?,
            (status, true),
            "at {calls}"
        );
    }
    Ok(())
}

/// A device that returns a number of bytes a call, and fails from a call on.
#[derive(Drop)]
pub(crate) struct Source<'a> {
    pub(crate) left: &'a [u8],
    pub(crate) step: usize,
    pub(crate) calls_left: usize,
}

impl<'a> Read for Source<'a> {
    fn read(&mut self, buf: &mut [u8]) -> io::Result<usize> {
        if self.calls_left == 0 {
            return Err(io::Error::from(ErrorKind::BrokenPipe));
        }
        self.calls_left -= 1;
        let count = self.step.min(buf.len()).min(self.left.len());
        buf[..count].copy_from_slice(&self.left[..count]);
        self.left = &self.left[count..];
        Ok(count)
    }
}

// Checks that the text `exit`, read a byte a call, is answered by this status and this text if the device fails after
// `calls` calls.
fn is_exit_assembled(alloc: Global, calls: usize, status: u8, text: &str) -> Result<bool, Fail> {
    let reader = Source {
        left: b"exit",
        step: 1,
        calls_left: calls,
    };
    let said = texts_of(alloc, &Question::Asm { file: "-" }, asm_from(alloc, reader))?;
    Ok(said.status == status && said.text.as_str() == text)
}

#[test]
fn a_failing_source(rt: HostRuntime) -> Result<(), Fail> {
    // The call past the last byte finds the end.
    for (calls, status, text) in [
        (0, 3, "device fault\n"),
        (1, 3, "device fault\n"),
        (2, 3, "device fault\n"),
        (3, 3, "device fault\n"),
        (4, 3, "device fault\n"),
        (5, 0, "9500000000000000\n"),
    ] {
        assert!(rt;
            is_exit_assembled(rt.alloc(), calls, status, text)?,
            "at {calls}"
        );
    }
    Ok(())
}

// Returns the status for running out of memory, and whether the right line and the right words are written.
fn refused_memory(alloc: Global) -> (u8, bool) {
    let mut held = Vec::new(alloc);
    let mut errors = Vec::new(alloc);
    let status = refuse_memory(&mut held, &mut errors);
    let is_line = held.as_slice() == b"refused 90\n".as_slice();
    (
        status,
        is_line && errors.as_slice() == b"heal: out of memory\n".as_slice(),
    )
}

#[test]
fn out_of_memory(rt: HostRuntime) {
    assert_eq!(rt; refused_memory(rt.alloc()), (3, true));
    assert!(rt;
        texts_of(
            rt.alloc(),
            &Question::Asm { file: "-" },
            Err(Failure::OutOfMemory)
        )
        .is_err()
    );
}
