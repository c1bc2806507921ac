//! The entry of a text.
ghost use Rattle.std.specs.Prelude.{◌≡◌, ◌&&◌, nat_lt, nat_le, IsTrue, IfOk, IfErr};
ghost use Rattle.partition_table.specs.Tables.{most_names};
ghost use Rattle.refusals.specs.Answers.{HasCause};
ghost use Rattle.replica_codec.specs.Building.{IsEntryOf, IsUploadCodeFault, IsUploadOf, program_fault_of};
ghost use Rattle.replica_codec.specs.Entries.{IsEditText, IsTextFault};
ghost use Rattle.replica_codec.specs.EntriesText.{edit_view, entry_view};
ghost use Rattle.replica_codec.specs.Faults.{replica_message_fault_number};

use crate::fault::ReplicaMessageFault;
use crate::texts::{EditText, EntryText};
use exchange_codec::{ItemFault, MessageFault};
use partition_table::NameLimit;
use refusals::{Numbered, OUT_OF_MEMORY};
use replica::{Edit, Entry};
use std::alloc::Global;
use upload_store::Upload;
use verifier::{ProgramFault, read_program};

/// Returns the entry of the text. An upload's code is verified, and its id computed.
pub(crate) fn entry_by(alloc: Global, text: &EntryText<'_>) -> Result<Entry, ReplicaMessageFault>
    requires { IsEditText (edit_view text.now.edit) }
    ensures built { IfOk result (IsEntryOf (entry_view text.now)) }
    ensures refused { IfErr result (HasCause replica_message_fault_number (IsTextFault (entry_view text.now))) }
{
    let edit = match &text.edit {
        EditText::Registers(name, registration) => Edit::Register(*name, *registration),
        EditText::Unregisters(name) => Edit::Unregister(*name),
        EditText::Uploads(code) => match upload_of(alloc, code, 0) {
            Ok(upload) => Edit::Upload(upload),
            Err(fault) => return Err(fault),
        },
        EditText::Limits(names) => Edit::Limit(limit_of(*names)),
        EditText::Begins(number) => Edit::Begin(*number),
    };
    Ok(Entry { at: text.at, edit })
}

/// Returns the limit of this many names.
pub(crate) fn limit_of(names: u32) -> NameLimit
    requires { IsTrue (nat_lt 0 names && nat_le names most_names) }
    ensures { result.names ≡ names }
{
    match NameLimit::new(names as usize) {
        Some(limit) => limit,
        None => unreachable!(),
    }
}

/// Returns the upload of this code, which is the item at this index.
pub(crate) fn upload_of(
    alloc: Global,
    code: &[u8],
    at: usize,
) -> Result<Upload, ReplicaMessageFault>
    ensures accepted { IfOk result (IsUploadOf code.now) }
    ensures refused { IfErr result (HasCause replica_message_fault_number (IsUploadCodeFault at code.now)) }
{
    match read_program(alloc, code) {
        Ok(program) => Ok(Upload::new(alloc, code, program)?),
        Err(fault) => Err(program_fault(fault, at)),
    }
}

// Returns the fault of code that isn't a program, or of memory.
fn program_fault(fault: ProgramFault, at: usize) -> ReplicaMessageFault
    ensures { result ≡ program_fault_of at fault }
{
    if fault.number() == OUT_OF_MEMORY {
        return ReplicaMessageFault::Message(MessageFault::OutOfMemory);
    }
    ReplicaMessageFault::Message(MessageFault::Item {
        fault: ItemFault::Program(fault),
        at,
    })
}
