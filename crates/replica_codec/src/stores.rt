//! The store of the codes of a snapshot.
ghost use Rattle.std.specs.Prelude.{◌≡◌, ◌≤◌, ◌<◌, ◌++◌, IfOk, IfErr, OnOk, length};
ghost use Rattle.std.specs.List.{flat_map, AllByRecursion};
ghost use Rattle.std.specs.FinMap.{entries, len};
ghost use Rattle.refusals.specs.Answers.{HasCause};
ghost use Rattle.upload_store.specs.Programs.{max_programs};
ghost use Rattle.exchange_codec.specs.Rows.{max_code};
ghost use Rattle.replica_codec.specs.Entries.{sized_code};
ghost use Rattle.replica_codec.specs.Faults.{replica_message_fault_number};
ghost use Rattle.replica_codec.specs.Snapshots.{AreStored, IsStoreOf, codes_bytes, is_id_above, store_codes};
ghost use Rattle.replica_codec.specs.SnapshotsText.{codes_view};
ghost use Rattle.replica_codec.specs.Stores.{IsStoresFault, IsCodesFault, HasCode};

use crate::building::upload_of;
use crate::fault::ReplicaMessageFault;
use clash_record::ProgramId;
use exchange_codec::{ItemFault, MessageFault, push_code, push_u32};
use std::alloc::{AllocError, Global};
use upload_store::UploadStore;

/// Returns the store of these codes, each of which is verified.
pub(crate) fn store_of(alloc: Global, codes: &[&[u8]]) -> Result<UploadStore, ReplicaMessageFault>
    requires { length codes.now ≤ max_programs }
    ensures built { IfOk result (IsStoreOf (codes_view codes.now)) }
    ensures refused { IfErr result (HasCause replica_message_fault_number (IsCodesFault (codes_view codes.now))) }
{
    let mut store = UploadStore::new(alloc);
    for at in 0..codes.len() {
        match add_code(alloc, &mut store, codes[at], at) {
            Ok(()) => {}
            Err(fault) => return Err(fault),
        }
    }
    Ok(store)
}

// Keeps the program of the code at this index.
fn add_code(
    alloc: Global,
    store: &mut UploadStore,
    code: &[u8],
    at: usize,
) -> Result<(), ReplicaMessageFault>
    requires { len store.old < max_programs }
    ensures added { OnOk result (HasCode store.old code.now store.new) }
    ensures refused { IfErr result (HasCause replica_message_fault_number (IsStoresFault store.old code.now at)) }
{
    let upload = match upload_of(alloc, code, at) {
        Ok(upload) => upload,
        Err(fault) => return Err(fault),
    };
    if !is_above(store, upload.id()) {
        return Err(ReplicaMessageFault::Message(MessageFault::Item {
            fault: ItemFault::NameOrder,
            at,
        }));
    }
    match store.keep_upload(&upload) {
        Ok(()) => Ok(()),
        Err(_) => Err(ReplicaMessageFault::Message(MessageFault::OutOfMemory)),
    }
}

// Checks whether the id is above those of the store.
fn is_above(store: &UploadStore, id: ProgramId) -> bool
    ensures { result ≡ is_id_above (entries store.now) id }
{
    let mut programs = store.programs();
    while let Some((other, _)) = programs.next() {
        if !other.cmp(&id).is_lt() {
            return false;
        }
    }
    true
}

/// Writes the codes of a store at the end, in the order of ids.
pub(crate) fn push_codes(
    alloc: Global,
    out: &mut Vec<u8>,
    store: &UploadStore,
) -> Result<(), AllocError>
    ensures written { OnOk result (out.new.items ≡ out.old.items ++ codes_bytes (store_codes store.now)) }
    ensures few { OnOk result (length (store_codes store.now) ≤ max_programs) }
    ensures fit { OnOk result (AllByRecursion (λ code. length code ≤ max_code) (store_codes store.now)) }
    ensures stored { OnOk result (AreStored store.now) }
{
    push_u32(out, store.len() as u32)?;
    push_each(alloc, out, store)
}

// Writes each code of a store at the end.
fn push_each(alloc: Global, out: &mut Vec<u8>, store: &UploadStore) -> Result<(), AllocError>
    ensures written { OnOk result (out.new.items ≡ out.old.items ++ flat_map sized_code (store_codes store.now)) }
    ensures fit { OnOk result (AllByRecursion (λ code. length code ≤ max_code) (store_codes store.now)) }
    ensures stored { OnOk result (AreStored store.now) }
{
    let mut programs = store.programs();
    while let Some((id, program)) = programs.next() {
        // For the proof: what the store guarantees of the program.
        store.get(id);
        push_code(alloc, out, program)?;
    }
    Ok(())
}
