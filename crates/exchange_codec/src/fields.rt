//! The fields of messages, read and written.
ghost use Rattle.std.specs.Prelude.{◌≡◌, ◌++◌, OnOk, OnErr, IfOk, length};
ghost use Rattle.std.specs.Int.{w32, w64, to_le_bytes};
ghost use Rattle.exchange_codec.specs.Reading.{Reads, number_at, bytes_at, header_at, header_fault, count_at};

use crate::fault::{Fault, FieldFault};
use std::alloc::AllocError;

// "HEALXC".
const MAGIC: u64 = 0x4358_4C41_4548;

const VERSION: u64 = 1;

/// A number of four bytes, and what follows it.
pub fn u32_at(bytes: &[u8]) -> Result<(u32, &[u8]), Fault>
    ensures { Reads (λ x. (x.0, x.1.now)) result (number_at w32 bytes.now) }
{
    if bytes.len() < 4 {
        return Err(Fault::at(FieldFault::Cut, bytes));
    }
    let (front, rest) = bytes.split_at(4);
    let number = u32::from_le_bytes([front[0], front[1], front[2], front[3]]);
    Ok((number, rest))
}

/// A number of eight bytes, and what follows it.
pub fn u64_at(bytes: &[u8]) -> Result<(u64, &[u8]), Fault>
    ensures { Reads (λ x. (x.0, x.1.now)) result (number_at w64 bytes.now) }
{
    if bytes.len() < 8 {
        return Err(Fault::at(FieldFault::Cut, bytes));
    }
    let (front, rest) = bytes.split_at(8);
    let number = u64::from_le_bytes([
        front[0], front[1], front[2], front[3], front[4], front[5], front[6], front[7],
    ]);
    Ok((number, rest))
}

/// Splits off this many bytes.
pub fn bytes_at(len: usize, bytes: &[u8]) -> Result<(&[u8], &[u8]), Fault>
    ensures read { Reads (λ x. (x.0.now, x.1.now)) result (bytes_at len bytes.now) }
    ensures length { IfOk result (λ x. length x.0.now ≡ len) }
{
    if bytes.len() < len {
        return Err(Fault::at(FieldFault::Cut, bytes));
    }
    Ok(bytes.split_at(len))
}

/// Returns the bytes after the header.
#[tactic(auto, unfolding(crate::specs::Reading::header_at))]
pub fn header_at(header: u64, bytes: &[u8]) -> Result<&[u8], Fault>
    ensures { Reads (λ x. x.now) result (header_at header bytes.now) }
{
    let (found, rest) = u64_at(bytes)?;
    if found != header {
        return Err(Fault::at(header_fault(found), bytes));
    }
    Ok(rest)
}

// The fault of eight bytes that aren't the header: another version, if they begin with "HEALXC" and the byte after it isn't
// the version.
pub fn header_fault(found: u64) -> FieldFault
    ensures { result ≡ header_fault found }
{
    if found % 0x1_0000_0000_0000 == MAGIC && (found >> 48) % 256 != VERSION {
        FieldFault::Version
    } else {
        FieldFault::Header
    }
}

/// A count up to the limit, and what follows it.
#[tactic(auto, unfolding(crate::specs::Reading::count_at))]
pub fn count_at(limit: u32, bytes: &[u8]) -> Result<(u32, &[u8]), Fault>
    ensures { Reads (λ x. (x.0, x.1.now)) result (count_at limit bytes.now) }
{
    let (count, rest) = u32_at(bytes)?;
    if limit < count {
        return Err(Fault::at(FieldFault::Count, bytes));
    }
    Ok((count, rest))
}

/// Writes a number of four bytes at the end.
pub fn push_u32(out: &mut Vec<u8>, number: u32) -> Result<(), AllocError>
    ensures written { OnOk result (out.new.items ≡ out.old.items ++ to_le_bytes w32 number) }
    ensures unchanged { OnErr result (out.new.items ≡ out.old.items) }
{
    out.extend_from_slice(&u32::to_le_bytes(number))
}

/// Writes a number of eight bytes at the end.
pub fn push_u64(out: &mut Vec<u8>, number: u64) -> Result<(), AllocError>
    ensures written { OnOk result (out.new.items ≡ out.old.items ++ to_le_bytes w64 number) }
    ensures unchanged { OnErr result (out.new.items ≡ out.old.items) }
{
    out.extend_from_slice(&u64::to_le_bytes(number))
}
