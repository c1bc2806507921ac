//! Devices that give and take a few bytes a call, and what a script answers over them.
ghost use Rattle.std.specs.Prelude.{Some};

use judge_pool::OpenGate;
use partition_table::NameLimit;
use scripts::run_script;
use std::io;
use std::io::{ErrorKind, Read, Write};
use std::rt::Files;
use std::sync::Wait;
use std::thread::Threads;

/// How many bytes a device gives or takes a call at most, and the number of its calls before it fails.
#[derive(Clone, Copy)]
pub(crate) struct Device {
    pub piece: usize,
    pub calls: usize,
}

/// A device that takes and gives much, and never fails here.
pub(crate) const GOOD: Device = Device {
    piece: 4096,
    calls: 1_000_000,
};

/// Gives bytes as its device does.
#[derive(Drop)]
struct PieceReader<'a> {
    bytes: &'a [u8],
    device: Device,
}

impl<'a> Read for PieceReader<'a> {
    ghost remaining = { λ r. Some r.bytes.now };

    fn read(&mut self, buf: &mut [u8]) -> io::Result<usize> {
        if self.device.calls == 0 {
            return Err(io::Error::from(ErrorKind::BrokenPipe));
        }
        self.device.calls -= 1;
        let n = self
            .bytes
            .len()
            .min(self.device.piece.max(1))
            .min(buf.len());
        let (now, later) = self.bytes.split_at(n);
        buf[..n].copy_from_slice(now);
        self.bytes = later;
        Ok(n)
    }
}

/// Takes bytes as its device does.
#[derive(Drop)]
struct PieceWriter {
    written: Vec<u8>,
    device: Device,
}

impl Write for PieceWriter {
    ghost contents = { λ w. Some w.written.items };

    fn write(&mut self, buf: &[u8]) -> io::Result<usize> {
        if self.device.calls == 0 {
            return Err(io::Error::from(ErrorKind::BrokenPipe));
        }
        self.device.calls -= 1;
        let n = buf.len().min(self.device.piece);
        self.written.extend_from_slice(&buf[..n])?;
        Ok(n)
    }

    fn flush(&mut self) -> io::Result<()> {
        Ok(())
    }
}

/// Whether a script, carried out by four workers over these devices, ends with this status once just this was written.
pub(crate) fn is_answered<T: Files + Threads + Wait + Sync + AllocGlobal>(
    rt: &T,
    script: &[u8],
    devices: (Device, Device),
    due: (u8, &[u8]),
) -> bool {
    is_answered_within(rt, NameLimit::default(), script, devices, due)
}

/// Like `is_answered`, on halves that may have as many names as `limit`.
pub(crate) fn is_answered_within<T: Files + Threads + Wait + Sync + AllocGlobal>(
    rt: &T,
    limit: NameLimit,
    script: &[u8],
    (read, write): (Device, Device),
    (status, said): (u8, &[u8]),
) -> bool {
    let mut reader = PieceReader {
        bytes: script,
        device: read,
    };
    let mut writer = PieceWriter {
        written: Vec::new(rt.alloc()),
        device: write,
    };
    let ended = run_script(rt, &mut reader, &mut writer, limit, 4, &OpenGate);
    ended == status && writer.written.as_slice() == said
}

/// A script, its status, and the answers to its lines.
pub(crate) type Said = (&'static str, u8, &'static str);

/// The first of these scripts that is answered otherwise, over devices that never fail.
pub(crate) fn first_other<T: Files + Threads + Wait + Sync + AllocGlobal>(
    rt: &T,
    scripts: &[Said],
) -> Option<&'static str> {
    for (script, status, said) in scripts {
        let wanted = (*status, said.as_bytes());
        if !is_answered(rt, script.as_bytes(), (GOOD, GOOD), wanted) {
            return Some(script);
        }
    }
    None
}
