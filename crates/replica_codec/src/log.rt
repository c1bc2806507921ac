//! Logs: snapshots and entries, one after the other.
ghost use Rattle.std.specs.Prelude.{◌≡◌, ◌<◌, ◌++◌, List, ℕ, Ok, Err, length};
ghost use Rattle.exchange_codec.specs.Reading.{Reads};
ghost use Rattle.replica.specs.declared.messages.Entry as entries;
ghost use Rattle.replica_codec.specs.declared.fault.ReplicaMessageFault.TheVariants.{Checksum};
ghost use Rattle.replica_codec.specs.declared.log.LogFront.TheVariants as front;
ghost use Rattle.replica_law.specs.Groups as law;
ghost use Rattle.replica.specs.Halves.{HalfState};
ghost use Rattle.replica_codec.specs.Entries.{SpellsEntry};
ghost use Rattle.replica_codec.specs.Snapshots.{SpellsSnapshot};
ghost use Rattle.replica_codec.specs.Logs.{IsDamaged, after_at, front_at, front_of, kind_at, or_cut, whole_message};

use crate::fault::ReplicaMessageFault;
use crate::frames::{ENTRY, SNAPSHOT, head_of, tail_at};
use exchange_codec::{Fault, FieldFault, MessageFault, header_fault, u64_at};

/// The first message of a log.
#[derive(Clone, Copy, Debug, PartialEq, Eq)]
pub enum LogFront {
    /// There are no bytes.
    End,
    /// The first part of a message: the rest is cut.
    Cut,
    /// A whole entry of this many bytes.
    Entry(usize),
    /// A whole snapshot of this many bytes.
    Snapshot(usize),
}

/// Returns the kind and the length of the first message of a log, without reading its body. Allocates nothing.
///
/// A caller that decodes each message and goes on behind it reads a log up to its last whole message. Rejects bytes that
/// begin with no entry and no snapshot: 71, or 82 for another version, at byte 0; and a header and a length that differ from
/// their checksum: 84. So a changed length doesn't make a log look cut.
pub fn read_front(bytes: &[u8]) -> Result<LogFront, ReplicaMessageFault>
    ensures exact { result ≡ front_of bytes.now }
    // The length of an entry that the bytes begin with.
    ensures entry { (message rest : List ℕ) (entry : entries.Entry) → SpellsEntry message entry
        → bytes.now ≡ message ++ rest
        → result ≡ Ok (front.Entry (length message)) }
    // The length of a snapshot that the bytes begin with.
    ensures snapshot { (message rest : List ℕ) (s : law.Snapshot HalfState) → SpellsSnapshot message s
        → bytes.now ≡ message ++ rest
        → result ≡ Ok (front.Snapshot (length message)) }
    // A part of an entry is cut.
    ensures cut { (more : List ℕ) (entry : entries.Entry) → 0 < length bytes.now → 0 < length more
        → SpellsEntry (bytes.now ++ more) entry
        → result ≡ Ok front.Cut }
    // So is a part of a snapshot.
    ensures cut_snapshot { (more : List ℕ) (s : law.Snapshot HalfState) → 0 < length bytes.now → 0 < length more
        → SpellsSnapshot (bytes.now ++ more) s
        → result ≡ Ok front.Cut }
    // A changed head isn't cut, however long its message is.
    ensures damaged { IsDamaged bytes.now → result ≡ Err Checksum }
{
    if bytes.is_empty() {
        return Ok(LogFront::End);
    }
    or_cut(front_at(bytes))
}

// Returns what was read, or that the bytes end within a message.
fn or_cut(read: Result<LogFront, ReplicaMessageFault>) -> Result<LogFront, ReplicaMessageFault>
    ensures { result ≡ or_cut read }
{
    match read {
        Err(
            ReplicaMessageFault::Message(
                MessageFault::Field {
                    fault: FieldFault::Cut,
                    ..
                },
            ),
        ) => Ok(LogFront::Cut),
        read => read,
    }
}

// A whole message at the front.
fn front_at(bytes: &[u8]) -> Result<LogFront, ReplicaMessageFault>
    ensures { result ≡ front_at bytes.now }
{
    let header = match kind_at(bytes) {
        Ok(header) => header,
        Err(fault) => return Err(ReplicaMessageFault::Message(fault.placed(bytes.len()))),
    };
    let (len, rest) = head_of(header, bytes)?;
    match after_at(len, rest) {
        Ok(after) => Ok(whole(header, bytes.len().saturating_sub(after.len()))),
        Err(fault) => Err(ReplicaMessageFault::Message(fault.placed(bytes.len()))),
    }
}

// The header of an entry or a snapshot at the front.
#[tactic(auto, unfolding(crate::specs::Logs::kind_at))]
fn kind_at(bytes: &[u8]) -> Result<u64, Fault>
    ensures { result ≡ kind_at bytes.now }
{
    let (found, _) = u64_at(bytes)?;
    if found == ENTRY || found == SNAPSHOT {
        return Ok(found);
    }
    Err(Fault::at(header_fault(found), bytes))
}

// Returns a whole message of this kind and length.
fn whole(header: u64, len: usize) -> LogFront
    ensures { result ≡ whole_message header len }
{
    if header == ENTRY {
        LogFront::Entry(len)
    } else {
        LogFront::Snapshot(len)
    }
}

// What follows a message with a body of this length, of which these bytes come after the head.
#[tactic(auto, unfolding(crate::specs::Logs::after_at))]
fn after_at(len: u64, bytes: &[u8]) -> Result<&[u8], Fault>
    ensures { Reads (λ x. x.now) result (after_at len bytes.now) }
{
    let (_, after) = tail_at(len, bytes)?;
    Ok(after)
}
