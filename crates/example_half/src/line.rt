//! The words of a line.
use crate::refused::Refused;
use heal::ProgramId;
use hex::FromHexError;
use std::alloc::{AllocError, Global};

/// A word, and how many come after it: at most five. Those that the line lacks are empty.
#[derive(Clone, Copy, Debug)]
pub(crate) struct Line<'a> {
    pub word: &'a str,
    pub count: usize,
    pub rest: [&'a str; 5],
}

/// Splits a line at its spaces.
pub(crate) fn split(line: &str) -> Result<Line<'_>, Refused> {
    let mut words = line.split(' ');
    let found = Line {
        word: words.next().unwrap_or(""),
        count: line.split(' ').count().saturating_sub(1),
        rest: [
            words.next().unwrap_or(""),
            words.next().unwrap_or(""),
            words.next().unwrap_or(""),
            words.next().unwrap_or(""),
            words.next().unwrap_or(""),
        ],
    };
    match words.next() {
        Some(_) => Err(Refused::words()),
        None => Ok(found),
    }
}

/// Reads a number in decimal digits.
pub(crate) fn number(text: &str) -> Result<u64, Refused> {
    text.parse::<u64>().map_err(|_| Refused::number())
}

/// Reads a number below 2^32 in decimal digits.
pub(crate) fn small_number(text: &str) -> Result<u32, Refused> {
    text.parse::<u32>().map_err(|_| Refused::number())
}

/// Reads bytes in hex digits.
pub(crate) fn bytes(alloc: Global, text: &str) -> Result<Vec<u8>, Refused> {
    match hex::decode(alloc, text) {
        Ok(bytes) => Ok(bytes),
        Err(FromHexError::OutOfMemory) => Err(Refused::memory(AllocError)),
        Err(_) => Err(Refused::digits()),
    }
}

/// Reads the id of a program in hex digits.
pub(crate) fn program_id(text: &str) -> Result<ProgramId, Refused> {
    let mut id = [0; 32];
    match hex::decode_to_slice(text, &mut id) {
        Ok(()) => Ok(ProgramId(id)),
        Err(_) => Err(Refused::digits()),
    }
}
