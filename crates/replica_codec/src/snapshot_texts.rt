//! The fields of a snapshot but its table, read.
ghost use Rattle.exchange_codec.specs.Reading.{Gives, Reads, many_at};
ghost use Rattle.replica_codec.specs.Frames.{IsReadAs};
ghost use Rattle.replica_codec.specs.Snapshots.{code_at, codes_at, latest_at, snapshot_from, text_at};
ghost use Rattle.replica_codec.specs.SnapshotsText.{codes_view, text_view};

use crate::fault::ReplicaMessageFault;
use crate::frames::{SNAPSHOT, SUM, body_of};
use crate::texts::{limit_at, position_at};
use exchange_codec::{Fault, FieldFault, MAX_CODE, ReadError, bytes_at, count_at, u64_at};
use replica::Position;
use std::alloc::Global;
use upload_store::MAX_PROGRAMS;

/// The fields of a snapshot in a message, but its table.
#[derive(Drop)]
pub(crate) struct SnapshotText<'a> {
    pub(crate) at: Position,
    pub(crate) limit: u32,
    pub(crate) latest: Option<u64>,
    /// The programs of the store, by their code.
    pub(crate) codes: Vec<&'a [u8]>,
}

/// Returns the text, and the bytes of the table.
pub(crate) fn text_of(
    alloc: Global,
    bytes: &[u8],
) -> Result<(SnapshotText<'_>, &[u8]), ReplicaMessageFault>
    ensures { IsReadAs (λ x. (text_view x.0, x.1.now)) (snapshot_from bytes.entry.now) result }
{
    let body = body_of(SNAPSHOT, bytes)?;
    match text_at(alloc, body) {
        Ok(found) => Ok(found),
        Err(error) => {
            let len = bytes.len().saturating_sub(SUM);
            Err(ReplicaMessageFault::Message(error.told(len)))
        }
    }
}

// The text at the front.
#[tactic(auto, unfolding(crate::specs::Snapshots::text_at))]
fn text_at(alloc: Global, bytes: &[u8]) -> Result<(SnapshotText<'_>, &[u8]), ReadError>
    ensures { Gives (λ x. (text_view x.0, x.1.now)) result (text_at bytes.entry.now) }
{
    let (at, rest) = position_at(bytes)?;
    let (limit, rest) = limit_at(rest)?;
    let (latest, rest) = latest_at(rest)?;
    let (codes, rest) = codes_at(alloc, rest)?;
    Ok((
        SnapshotText {
            at,
            limit,
            latest,
            codes,
        },
        rest,
    ))
}

// The greatest number of an exchange at the front.
#[tactic(auto, unfolding(crate::specs::Snapshots::latest_at))]
fn latest_at(bytes: &[u8]) -> Result<(Option<u64>, &[u8]), Fault>
    ensures { Reads (λ x. (x.0, x.1.now)) result (latest_at bytes.now) }
{
    match bytes {
        [] => Err(Fault::at(FieldFault::Cut, bytes)),
        [0, rest @ ..] => Ok((None, rest)),
        [1, rest @ ..] => {
            let (number, rest) = u64_at(rest)?;
            Ok((Some(number), rest))
        }
        [_, ..] => Err(Fault::at(FieldFault::Count, bytes)),
    }
}

// The codes of a store at the front.
#[tactic(auto, unfolding(crate::specs::Snapshots::codes_at))]
fn codes_at(alloc: Global, bytes: &[u8]) -> Result<(Vec<&[u8]>, &[u8]), ReadError>
    ensures { Gives (λ x. (codes_view x.0.items, x.1.now)) result (codes_at bytes.entry.now) }
{
    let (count, rest) = count_at(MAX_PROGRAMS as u32, bytes)?;
    all_codes(alloc, count, rest)
}

// Reads this many codes.
fn all_codes(alloc: Global, count: u32, bytes: &[u8]) -> Result<(Vec<&[u8]>, &[u8]), ReadError>
    ensures { Gives (λ x. (codes_view x.0.items, x.1.now)) result (many_at code_at count bytes.entry.now) }
{
    let mut codes = Vec::new(alloc);
    let mut rest = bytes;
    for _ in 0..count {
        match code_at(rest) {
            Ok((code, after)) => {
                let Ok(()) = codes.push(code) else {
                    return Err(ReadError::Memory);
                };
                rest = after;
            }
            Err(fault) => return Err(ReadError::Fault(fault)),
        }
    }
    Ok((codes, rest))
}

// The code at the front.
#[tactic(auto, unfolding(crate::specs::Snapshots::code_at))]
fn code_at(bytes: &[u8]) -> Result<(&[u8], &[u8]), Fault>
    ensures { Reads (λ x. (x.0.now, x.1.now)) result (code_at bytes.entry.now) }
{
    let (len, rest) = count_at(MAX_CODE, bytes)?;
    bytes_at(len as usize, rest)
}
