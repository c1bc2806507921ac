//! Entries as bytes.
ghost use Rattle.std.specs.Prelude.{Ok, Err, IfOk, IfErr};
ghost use Rattle.refusals.specs.Answers.{HasCause, ReturnsOrRunsOut};
ghost use Rattle.replica.specs.declared.messages.Entry.{Entry};
ghost use Rattle.replica_codec.specs.declared.fault.ReplicaMessageFault.{ReplicaMessageFault};
ghost use Rattle.replica_codec.specs.Entries.{SpellsEntry, IsEntryFault};
ghost use Rattle.replica_codec.specs.Faults.{replica_message_fault_number};

use crate::building::entry_by;
use crate::edits::{push_edit, push_position};
use crate::fault::ReplicaMessageFault;
use crate::frames::{ENTRY, framed, started};
use crate::texts::entry_of;
use exchange_codec::one_program_theorem;
use replica::Entry;
use std::alloc::{AllocError, Global};

// The most bytes in the body of an entry without code: a position, and a registration by a program.
const ROOM: usize = 28 + 1 + 33 + 40 + 33;

/// Encodes an entry. Fails only when out of memory.
pub fn encode_entry(alloc: Global, entry: &Entry) -> Result<Vec<u8>, AllocError>
    ensures { IfOk result (λ bytes. SpellsEntry bytes.items entry.now) }
{
    let mut out = started(alloc, ROOM)?;
    push_position(&mut out, entry.at)?;
    push_edit(alloc, &mut out, &entry.edit)?;
    framed(ENTRY, out)
}

/// Decodes untrusted bytes as an entry.
///
/// Verifies an uploaded program again, and computes its id. The transport ensures that a primary made the entry.
///
/// Rejects the first of these: an invalid frame, with its byte: 71 for another message, 82 for another version, 70 for bytes
/// that end within a field and 72 for extra bytes; 84 for a checksum, of the head or the message, that isn't that of the bytes
/// before it; an invalid field of the
/// body, with its byte: 70, 71 for an unknown kind of edit, 72, 73 for a count or a limit out of its range, 75 for an invalid
/// name and 76 for an unknown resolver or a row with code; and 81 for code that the verifier rejects, with its fault.
/// Returns 90 when out of memory.
pub fn decode_entry(alloc: Global, bytes: &[u8]) -> Result<Entry, ReplicaMessageFault>
    // The bytes spell the entry that is returned.
    ensures spelled { IfOk result (SpellsEntry bytes.now) }
    // An entry that the bytes spell is returned, unless memory runs out.
    ensures taken { (entry : Entry) → SpellsEntry bytes.now entry
        → ReturnsOrRunsOut replica_message_fault_number result (Ok entry) }
    // A refusal has its cause.
    ensures refused { IfErr result (HasCause replica_message_fault_number (IsEntryFault bytes.now)) }
    // A fault of the bytes is returned, unless memory runs out.
    ensures reported { (fault : ReplicaMessageFault) → IsEntryFault bytes.now fault
        → ReturnsOrRunsOut replica_message_fault_number result (Err fault) }
{
    // For the proof: code has one reading and one verdict.
    one_program_theorem();
    match entry_of(bytes) {
        Ok(text) => entry_by(alloc, &text),
        Err(fault) => Err(fault),
    }
}
