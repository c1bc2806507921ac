//! Snapshots as bytes.
ghost use Rattle.std.specs.Prelude.{◌≡◌, ◌≤◌, ◌<◌, ◌+◌, ◌^◌, ◌++◌, ◌&&◌, nat_lt, nat_le, IsTrue, Ok, Err, IfOk, IfErr, IfSome, OnOk, length};
ghost use Rattle.refusals.specs.Answers.{HasCause, ReturnsOrRunsOut};
ghost use Rattle.upload_store.specs.Programs.{max_programs};
ghost use Rattle.partition_table.specs.Tables.{most_names};
ghost use Rattle.replica_law.specs.Groups as law;
ghost use Rattle.replica.specs.Halves as halves;
ghost use Rattle.replica_codec.specs.declared.fault.ReplicaMessageFault.{ReplicaMessageFault};
ghost use Rattle.replica_codec.specs.Faults.{replica_message_fault_number};
ghost use Rattle.replica_codec.specs.Snapshots.{SpellsSnapshot, IsSnapshotFault, behind, latest_bytes};
ghost use Rattle.replica_codec.specs.SnapshotsText.{text_view};
ghost use Rattle.replica_codec.specs.Stores.{FitsBehind, IsPartsFault, IsSnapshotOf};

use crate::building::limit_of;
use crate::edits::push_position;
use crate::fault::ReplicaMessageFault;
use crate::frames::{SNAPSHOT, SUM, framed, started};
use crate::snapshot_texts::{SnapshotText, text_of};
use crate::stores::{push_codes, store_of};
use exchange_codec::{
    MessageFault, decode_table, one_program_theorem, one_table_theorem, push_table, push_u32,
    push_u64,
};
use replica::{Half, Snapshot};
use std::alloc::{AllocError, Global};

// The bytes of a row with a name of 22 bytes and a built-in resolver: the room that a row gets before it is written.
const ROW: usize = 64;

/// Encodes a snapshot. Fails only when out of memory.
pub fn encode_snapshot(alloc: Global, snapshot: &Snapshot) -> Result<Vec<u8>, AllocError>
    ensures { IfOk result (λ bytes. SpellsSnapshot bytes.items snapshot.now) }
{
    let half = snapshot.half();
    let mut out = started(alloc, half.table().len().saturating_mul(ROW))?;
    push_position(&mut out, snapshot.position())?;
    push_u32(&mut out, half.limit().names() as u32)?;
    push_latest(&mut out, half.latest())?;
    push_codes(alloc, &mut out, half.store())?;
    push_table(alloc, &mut out, half.table())?;
    framed(SNAPSHOT, out)
}

// Writes the greatest number of an exchange at the end, if there is one.
fn push_latest(out: &mut Vec<u8>, latest: Option<u64>) -> Result<(), AllocError>
    ensures written { OnOk result (out.new.items ≡ out.old.items ++ latest_bytes latest) }
    ensures fits { OnOk result (IfSome latest (λ number. number < 2 ^ 64)) }
{
    match latest {
        None => {
            out.push(0)?;
            Ok(())
        }
        Some(number) => {
            out.push(1)?;
            push_u64(out, number)
        }
    }
}

/// Decodes untrusted bytes as a snapshot.
///
/// Verifies each program again, and computes its id. The transport ensures that a replica made the snapshot.
///
/// Rejects the first of these: a fault of the frame or of a field before the table, as `decode_entry` does; the first invalid
/// program of the store, with its index: 81 if the verifier rejects it, and else 78 if its id isn't above that of the one
/// before it; and a fault of the table, as `decode_offer` does, with its byte in the message, or with the index of its row
/// after the programs. Returns 90 when out of memory.
pub fn decode_snapshot(alloc: Global, bytes: &[u8]) -> Result<Snapshot, ReplicaMessageFault>
    // The bytes spell the snapshot that is returned.
    ensures spelled { IfOk result (SpellsSnapshot bytes.now) }
    // A snapshot that the bytes spell is returned, unless memory runs out.
    ensures taken { (snapshot : law.Snapshot halves.HalfState) → SpellsSnapshot bytes.now snapshot
        → ReturnsOrRunsOut replica_message_fault_number result (Ok snapshot) }
    // A refusal has its cause.
    ensures refused { IfErr result (HasCause replica_message_fault_number (IsSnapshotFault bytes.now)) }
    // A fault of the bytes is returned, unless memory runs out.
    ensures reported { (fault : ReplicaMessageFault) → IsSnapshotFault bytes.now fault
        → ReturnsOrRunsOut replica_message_fault_number result (Err fault) }
{
    // For the proof: code has one reading and one verdict, and bytes spell one table.
    one_program_theorem();
    one_table_theorem();
    match text_of(alloc, bytes) {
        Ok((text, rest)) => {
            let place = bytes.len().saturating_sub(SUM).saturating_sub(rest.len());
            snapshot_by(alloc, &text, rest, place)
        }
        Err(fault) => Err(fault),
    }
}

// Returns the snapshot of the text and of the bytes of the table, which begin at this place.
fn snapshot_by(
    alloc: Global,
    text: &SnapshotText<'_>,
    rest: &[u8],
    place: usize,
) -> Result<Snapshot, ReplicaMessageFault>
    requires few { length text.now.codes.items ≤ max_programs }
    requires limit { IsTrue (nat_lt 0 text.now.limit && nat_le text.now.limit most_names) }
    requires place { place + length rest.now < 2 ^ 64 }
    ensures built { IfOk result (IsSnapshotOf (text_view text.now) rest.now) }
    ensures refused { IfErr result
        (HasCause replica_message_fault_number (IsPartsFault (text_view text.now) rest.now place)) }
{
    let store = match store_of(alloc, &text.codes) {
        Ok(store) => store,
        Err(fault) => return Err(fault),
    };
    let table = match decode_table(alloc, rest) {
        Ok(table) => table,
        Err(fault) => {
            let fault = behind(place, text.codes.len(), fault);
            return Err(ReplicaMessageFault::Message(fault));
        }
    };
    let half = Half::of_parts(store, table, limit_of(text.limit), text.latest);
    Ok(Snapshot::new(alloc, text.at, half)?)
}

// Returns a fault of a table whose bytes begin at this place, and whose rows come after these many programs.
fn behind(place: usize, items: usize, fault: MessageFault) -> MessageFault
    requires { FitsBehind place items fault }
    ensures { result ≡ behind place items fault }
{
    match fault {
        MessageFault::Field { fault, at } => MessageFault::Field {
            fault,
            at: place + at,
        },
        MessageFault::Item { fault, at } => MessageFault::Item {
            fault,
            at: items + at,
        },
        MessageFault::OutOfMemory => MessageFault::OutOfMemory,
    }
}
