//! The frame of a message.
ghost use Rattle.std.specs.Prelude.{◌≡◌, ◌≤◌, ◌<◌, ◌^◌, ◌++◌, IfOk, length, drop};
ghost use Rattle.exchange_codec.specs.Reading.{Reads};
ghost use Rattle.replica_codec.specs.Frames.{body_of, checksum, frame_bytes, frame_head_at, frame_head_bytes, frame_head_of, no_head, tail_at, tail_of};

use crate::fault::ReplicaMessageFault;
use exchange_codec::{Fault, FieldFault, bytes_at, header_at, push_u64, u64_at};
use std::alloc::{AllocError, Global};
use std::hash::{DefaultHasher, Hasher};

// "HEALXC", version 1, kinds 3 and 4.
pub(crate) const ENTRY: u64 = 0x0301_4358_4C41_4548;

pub(crate) const SNAPSHOT: u64 = 0x0401_4358_4C41_4548;

/// The number of bytes of a checksum.
pub(crate) const SUM: usize = 8;

/// The number of bytes before the body.
const HEAD: usize = 24;

/// Starts a message: the place of its head, behind which the body is to be written. Makes room for a body of this many bytes.
pub(crate) fn started(alloc: Global, room: usize) -> Result<Vec<u8>, AllocError>
    ensures { IfOk result (λ out. out.items ≡ no_head) }
{
    let mut out = Vec::with_capacity(alloc, room.saturating_add(HEAD + SUM))?;
    out.extend_from_slice(&[0; HEAD])?;
    Ok(out)
}

/// Returns the message of the body that was written behind the place of its head.
pub(crate) fn framed(header: u64, mut out: Vec<u8>) -> Result<Vec<u8>, AllocError>
    requires { HEAD ≤ length out.items }
    ensures written { IfOk result (λ bytes. bytes.items ≡ frame_bytes header (drop HEAD out.items)) }
    ensures short { length out.items < 2 ^ 64 }
{
    let len = out.len() - HEAD;
    write_head(&mut out, header, len as u64);
    let sum = checksum(&out);
    push_u64(&mut out, sum)?;
    Ok(out)
}

// Writes the head of a message with a body of this length over the first bytes.
fn write_head(bytes: &mut [u8], header: u64, len: u64)
    requires { HEAD ≤ length bytes.old }
    ensures { bytes.new ≡ frame_head_bytes header len ++ drop HEAD bytes.old }
{
    let head = head(header, len);
    bytes[..HEAD].copy_from_slice(&head);
}

// Returns the head of a message with a body of this length.
fn head(header: u64, len: u64) -> [u8; 24]
    ensures { result ≡ frame_head_bytes header len }
{
    let (h, l) = (header.to_le_bytes(), len.to_le_bytes());
    let sum = checksum(&[
        h[0], h[1], h[2], h[3], h[4], h[5], h[6], h[7], l[0], l[1], l[2], l[3], l[4], l[5], l[6],
        l[7],
    ]);
    let s = sum.to_le_bytes();
    [
        h[0], h[1], h[2], h[3], h[4], h[5], h[6], h[7], l[0], l[1], l[2], l[3], l[4], l[5], l[6],
        l[7], s[0], s[1], s[2], s[3], s[4], s[5], s[6], s[7],
    ]
}

/// Returns the body of a message that is all of the bytes.
pub(crate) fn body_of(header: u64, bytes: &[u8]) -> Result<&[u8], ReplicaMessageFault>
    ensures { Reads (λ body. body.now) result (body_of header bytes.now) }
{
    let (len, rest) = head_of(header, bytes)?;
    match tail_of(len, rest) {
        Ok((body, sum)) => {
            let front = bytes.split_at(bytes.len().saturating_sub(SUM)).0;
            if sum == checksum(front) {
                Ok(body)
            } else {
                Err(ReplicaMessageFault::Checksum)
            }
        }
        Err(fault) => Err(ReplicaMessageFault::Message(fault.placed(bytes.len()))),
    }
}

/// Returns the length of the body of a message at the front, and what follows its head.
pub(crate) fn head_of(header: u64, bytes: &[u8]) -> Result<(u64, &[u8]), ReplicaMessageFault>
    ensures { Reads (λ x. (x.0, x.1.now)) result (frame_head_of header bytes.now) }
{
    match head_at(header, bytes) {
        Ok(((len, sum), rest)) => {
            let front = bytes.split_at(2 * SUM).0;
            if sum == checksum(front) {
                Ok((len, rest))
            } else {
                Err(ReplicaMessageFault::Checksum)
            }
        }
        Err(fault) => Err(ReplicaMessageFault::Message(fault.placed(bytes.len()))),
    }
}

// Returns the SipHash of the bytes.
#[tactic(auto, unfolding(crate::specs::Frames::checksum))]
fn checksum(bytes: &[u8]) -> u64
    ensures { result ≡ checksum bytes.now }
{
    let mut hasher = DefaultHasher::new();
    hasher.write(bytes);
    hasher.finish()
}

// The length and the checksum at the front.
#[tactic(auto, unfolding(crate::specs::Frames::frame_head_at))]
fn head_at(header: u64, bytes: &[u8]) -> Result<((u64, u64), &[u8]), Fault>
    ensures { Reads (λ x. (x.0, x.1.now)) result (frame_head_at header bytes.now) }
{
    let rest = header_at(header, bytes)?;
    let (len, rest) = u64_at(rest)?;
    let (sum, rest) = u64_at(rest)?;
    Ok(((len, sum), rest))
}

// A body of this length and a checksum, which are all of the bytes.
#[tactic(auto, unfolding(crate::specs::Frames::tail_of))]
fn tail_of(len: u64, bytes: &[u8]) -> Result<(&[u8], u64), Fault>
    ensures { Reads (λ x. (x.0.now, x.1)) result (tail_of len bytes.now) }
{
    let (tail, rest) = tail_at(len, bytes)?;
    if !rest.is_empty() {
        return Err(Fault::at(FieldFault::Trailing, rest));
    }
    Ok(tail)
}

/// A body of this length and a checksum at the front.
#[tactic(auto, unfolding(crate::specs::Frames::tail_at))]
pub(crate) fn tail_at(len: u64, bytes: &[u8]) -> Result<((&[u8], u64), &[u8]), Fault>
    ensures { Reads (λ x. ((x.0.0.now, x.0.1), x.1.now)) result (tail_at len bytes.now) }
{
    let (body, rest) = bytes_at(len as usize, bytes)?;
    let (sum, rest) = u64_at(rest)?;
    Ok(((body, sum), rest))
}
