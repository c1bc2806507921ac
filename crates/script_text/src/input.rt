//! The lines of an input that is read in pieces of any size.
ghost use Rattle.std.specs.Prelude.{◌≡◌, ◌↔◌, ◌<◌, ◌≤◌, ◌+◌, Contains, IsTrue, false, ℕ, List, [], ◌∷◌, ◌++◌, length, OnErr, OnOk, IfOk, IfSome, IfNone};
ghost use Rattle.std.specs.Io.KnownBytes.{Keeps, Consumes, IsAtEnd, ReadConsumes};
ghost use Rattle.std.specs.Io.{ReadsAtMost};
ghost use Rattle.script_text.specs.Lines.{line_limit, script_line};
ghost use Rattle.script_text.specs.Reading.{left, HasNothingLeft, FailsInLine, FindsLine, seen_line};
ghost use Rattle.script_text.specs.model.Feeds.{before_feed, from_feed};

use memchr::memchr;
use std::alloc::{AllocError, Global};
use std::io;
use std::io::{ErrorKind, Read};
use std::marker::Model;

/// The maximum length of a line in bytes, without its end.
pub const LINE_LIMIT: usize = 20_000;

// The size of a read in bytes.
const PIECE: usize = 4096;

/// The bytes that were read and not yet used. Contracts see it as the list of these bytes.
#[derive(Debug)]
pub struct ReadBuffer {
    bytes: Vec<u8>,
    start: usize,
    end: usize,
}

// Written out, so that a drop is one call in the proofs of callers.
impl Drop for ReadBuffer {
    fn drop(self) {
        let ReadBuffer {
            bytes: _,
            start: _,
            end: _,
        } = self;
    }
}

impl Model for ReadBuffer {
    ghost use Rattle.std.specs.Prelude.{ℕ, ◌-◌, List, take, drop};
    ghost use Rattle.script_text.specs.model.Buffers.{IsWithin};

    ghost Value = { List ℕ };

    ghost view = { λ b. take (b.end - b.start) (drop b.start b.bytes.items) };

    ghost invariant = { IsWithin };
}

impl ReadBuffer {
    /// Returns an empty buffer. All its memory is allocated here.
    pub fn new(alloc: Global) -> Result<ReadBuffer, AllocError>
        ensures { IfOk result (λ buffer. buffer ≡ []) }
    {
        Ok(ReadBuffer {
            bytes: vec![in alloc; 0; PIECE]?,
            start: 0,
            end: 0,
        })
    }

    /// Checks whether a whole line is here, which `next_line` then finds without a read.
    pub fn has_line(&self) -> bool
        ensures { IsTrue result ↔ Contains self.now 10 }
    {
        memchr(b'\n', &self.bytes[self.start..self.end]).is_some()
    }

    // Reads once into an empty buffer.
    fn fill<R: Read>(&mut self, reader: &mut R) -> io::Result<()>
        requires { self.old ≡ [] }
        ensures ok { OnOk result (Consumes (R.remaining reader.old) (R.remaining reader.new) self.new) }
        ensures end { OnOk result (self.new ≡ [] → IsAtEnd (R.remaining reader.new)) }
        ensures err { OnErr result (Keeps (R.remaining reader.old) (R.remaining reader.new) × (self.new ≡ [])) }
    {
        self.start = 0;
        self.end = 0;
        self.end = read_once(reader, self.bytes.as_mut_slice())?;
        Ok(())
    }

    // Checks whether it has no bytes.
    fn is_empty(&self) -> bool
        ensures { IsTrue result ↔ (self.now ≡ []) }
    {
        self.start == self.end
    }

    // Moves the bytes before the first line feed, or all bytes if there is none, to the line so far. Returns whether the
    // line is too long.
    fn move_text(&mut self, line: &mut LineBuffer, is_long: bool) -> bool
        ensures rest { self.new ≡ from_feed self.old }
        ensures line { (text : List ℕ) → script_line text ≡ seen_line is_long line.old
            → script_line (text ++ before_feed self.old) ≡ seen_line result line.new }
    {
        let unused = &self.bytes[self.start..self.end];
        let len = text_len(unused);
        let result = take_part(line, is_long, &unused[..len]);
        self.start += len;
        result
    }

    // Takes the first byte.
    fn pop(&mut self) -> Option<u8>
        ensures some { IfSome result (λ byte. self.old ≡ byte ∷ self.new) }
        ensures none { IfNone result ((self.old ≡ []) × (self.new ≡ [])) }
    {
        if self.start >= self.end {
            return None;
        }
        let byte = self.bytes[self.start];
        self.start += 1;
        Some(byte)
    }
}

// Reads once, and again after an interruption by a signal.
fn read_once<R: Read>(reader: &mut R, into: &mut [u8]) -> io::Result<usize>
    ensures bound { ReadsAtMost result into.new }
    ensures bytes { ReadConsumes (R.remaining reader.old) (R.remaining reader.new) result into.new }
{
    for _ in 0..u64::MAX {
        match reader.read(into) {
            Err(error) if error.kind() == ErrorKind::Interrupted => {}
            read => return read,
        }
    }
    Err(io::Error::from(ErrorKind::Interrupted))
}

// Reads into the buffer if it is empty. Returns whether it has a byte: not at the end.
fn has_byte<R: Read>(buffer: &mut ReadBuffer, reader: &mut R) -> io::Result<bool>
    ensures some { IfOk result (λ found. IsTrue found
        → Consumes (left buffer.old (R.remaining reader.old)) (left buffer.new (R.remaining reader.new)) []
        × (0 < length buffer.new)) }
    ensures none { IfOk result (λ found. found ≡ false
        → HasNothingLeft (left buffer.old (R.remaining reader.old)) buffer.new (R.remaining reader.new)) }
    ensures err { OnErr result
        (Keeps (left buffer.old (R.remaining reader.old)) (R.remaining reader.new) × (buffer.new ≡ [])) }
{
    if !buffer.is_empty() {
        return Ok(true);
    }
    buffer.fill(reader)?;
    Ok(!buffer.is_empty())
}

/// A line of at most 20,000 bytes. Contracts see it as the list of its bytes.
#[derive(Debug)]
pub struct LineBuffer {
    bytes: Vec<u8>,
}

// Written out, so that a drop is one call in the proofs of callers.
impl Drop for LineBuffer {
    fn drop(self) {
        let LineBuffer { bytes: _ } = self;
    }
}

impl Model for LineBuffer {
    ghost use Rattle.std.specs.Prelude.{ℕ, List};
    ghost use Rattle.script_text.specs.model.Buffers.{HasRoom};

    ghost Value = { List ℕ };

    ghost view = { λ b. b.bytes.items };

    ghost invariant = { HasRoom };
}

impl LineBuffer {
    /// Returns an empty line. All its memory is allocated here.
    pub fn new(alloc: Global) -> Result<LineBuffer, AllocError>
        ensures { IfOk result (λ line. line ≡ []) }
    {
        Ok(LineBuffer {
            bytes: Vec::with_capacity(alloc, LINE_LIMIT)?,
        })
    }

    /// Returns the bytes of the line.
    pub fn as_slice(&self) -> &[u8]
        ensures { result.now ≡ self.now }
    {
        self.bytes.as_slice()
    }

    fn clear(&mut self)
        ensures { self.new ≡ [] }
    {
        self.bytes.clear();
    }

    // Returns how many bytes it still has room for.
    fn room(&self) -> usize
        ensures room { result + length self.now ≡ line_limit }
    {
        LINE_LIMIT - self.bytes.len()
    }

    // Adds these bytes at the end.
    fn append(&mut self, text: &[u8])
        requires { length self.old + length text.now ≤ line_limit }
        ensures { self.new ≡ self.old ++ text.now }
    {
        if self.bytes.extend_from_slice(text).is_err() {
            unreachable!()
        }
    }
}

/// The end of a line.
#[derive(Clone, Copy, Debug, PartialEq, Eq)]
pub enum Stop {
    /// A line feed.
    LineFeed,
    /// The end of the input, after some bytes.
    End,
    /// The end of the input, without a line.
    Nothing,
}

/// A line that was found.
#[derive(Clone, Copy, Debug)]
pub struct Found {
    /// The end of the line.
    pub stop: Stop,
    /// Checks whether it has more than 20,000 bytes, which were skipped.
    pub is_long: bool,
}

/// The reader failed.
#[derive(Debug, Drop)]
pub struct ReadFailed;

// Adds a part to the line so far, and returns whether the line is too long.
fn take_part(line: &mut LineBuffer, is_long: bool, part: &[u8]) -> bool
    ensures { (text : List ℕ) → script_line text ≡ seen_line is_long line.old
        → script_line (text ++ part.now) ≡ seen_line result line.new }
{
    if is_long || part.len() > line.room() {
        return true;
    }
    line.append(part);
    false
}

// Returns the number of bytes before the first line feed, or of all bytes without one.
fn text_len(bytes: &[u8]) -> usize
    ensures { result ≡ length (before_feed bytes.now) }
{
    memchr(b'\n', bytes).unwrap_or(bytes.len())
}

/// Finds the next line, and leaves its bytes in `line` unless it is too long. Allocates nothing.
///
/// If the reader fails, the part of the line that was read is lost.
pub fn next_line<R: Read>(
    buffer: &mut ReadBuffer,
    reader: &mut R,
    line: &mut LineBuffer,
) -> Result<Found, ReadFailed>
    ensures found { IfOk result (λ found.
        FindsLine (left buffer.old (R.remaining reader.old)) buffer.new (R.remaining reader.new) found line.new) }
    ensures failed { OnErr result
        (FailsInLine (left buffer.old (R.remaining reader.old)) buffer.new (R.remaining reader.new)) }
{
    line.clear();
    let mut is_long = false;
    for seen in 0..u64::MAX {
        match has_byte(buffer, reader) {
            Err(_) => return Err(ReadFailed),
            Ok(true) => is_long = buffer.move_text(line, is_long),
            Ok(false) => {
                let stop = if seen == 0 { Stop::Nothing } else { Stop::End };
                return Ok(Found { stop, is_long });
            }
        }
        if buffer.pop().is_some() {
            let stop = Stop::LineFeed;
            return Ok(Found { stop, is_long });
        }
    }
    Err(ReadFailed)
}
