//! Writing to a device that may fail.
ghost use Rattle.std.specs.Prelude.{OnOk};
ghost use Rattle.std.specs.Io.KnownBytes.{Appends};
ghost use Rattle.device.specs.Sending.{AppendsFront, FlushesOn, SendsOn};

use std::io::{Error, ErrorKind, Write};

/// The device took no more.
#[derive(Clone, Copy, Debug, PartialEq, Eq)]
pub struct DeviceFault;

/// Writes the bytes, and calls the writer only if there are any. At a fault a beginning of them went out.
pub fn send<W: Write>(writer: &mut W, bytes: &[u8]) -> Result<(), DeviceFault>
    ensures all { OnOk result (Appends (W.contents writer.old) (W.contents writer.new) bytes.now) }
    ensures front { AppendsFront (W.contents writer.old) (W.contents writer.new) bytes.now }
{
    if bytes.is_empty() {
        return Ok(());
    }
    let mut rest = bytes;
    'writes: for _ in 0..u64::MAX {
        match writer.write(rest) {
            Ok(n) if n == rest.len() => return Ok(()),
            Ok(0) => return Err(DeviceFault),
            Ok(n) => rest = &rest[n..],
            Err(e) => {
                if !is_interruption(&e) {
                    return Err(DeviceFault);
                }
            }
        }
    }
    Err(DeviceFault)
}

// Checks whether a signal interrupted the write. Is kept out of line, so that `send` is short.
#[cold]
#[inline(never)]
fn is_interruption(e: &Error) -> bool {
    e.kind() == ErrorKind::Interrupted
}

/// Writes the bytes, and flushes the writer. At a fault a beginning of them went out.
pub fn deliver<W: Write>(writer: &mut W, bytes: &[u8]) -> Result<(), DeviceFault>
    ensures all { OnOk result (Appends (W.contents writer.old) (W.contents writer.new) bytes.now) }
    ensures front { AppendsFront (W.contents writer.old) (W.contents writer.new) bytes.now }
{
    send(writer, bytes)?;
    match writer.flush() {
        Ok(()) => Ok(()),
        Err(_) => Err(DeviceFault),
    }
}

/// Flushes the writer, unless the device failed before.
pub fn flush_after<W: Write>(
    sent: Result<(), DeviceFault>,
    writer: &mut W,
) -> Result<(), DeviceFault>
    ensures { FlushesOn sent (W.contents writer.old) (W.contents writer.new) result }
{
    match sent {
        Ok(()) => match writer.flush() {
            Ok(()) => Ok(()),
            Err(_) => Err(DeviceFault),
        },
        Err(fault) => Err(fault),
    }
}

/// Goes on with further bytes, unless the device failed before. So a text is sent piece by piece, and at a fault a
/// beginning of the whole went out.
pub fn send_after<W: Write>(
    sent: Result<(), DeviceFault>,
    writer: &mut W,
    bytes: &[u8],
) -> Result<(), DeviceFault>
    ensures { SendsOn sent (W.contents writer.old) (W.contents writer.new) bytes.now result }
{
    match sent {
        Ok(()) => send(writer, bytes),
        Err(fault) => Err(fault),
    }
}
