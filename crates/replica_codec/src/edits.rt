//! The fields of an entry, written.
ghost use Rattle.std.specs.Prelude.{◌≡◌, ◌++◌, OnOk};
ghost use Rattle.std.specs.List.{flat_map};
ghost use Rattle.insn_codec.specs.Encoding.{insn_bytes};
ghost use Rattle.upload_store.specs.Programs.{IsProgram};
ghost use Rattle.exchange_codec.specs.Rows.{IsResolver, resolver_bytes};
ghost use Rattle.replica_codec.specs.Entries.{IsEditText, IsKeptEdit, IsPosition, Registers, Uploads, edit_bytes, edit_text, plain, position_bytes};

use clash_record::{Name, Registration, ResolverId};
use exchange_codec::{place_of, push_code, push_fields, push_name, push_u32, push_u64};
use replica::{Edit, Position};
use std::alloc::{AllocError, Global};
use upload_store::Upload;

/// Writes a position at the end.
pub(crate) fn push_position(out: &mut Vec<u8>, at: Position) -> Result<(), AllocError>
    ensures written { OnOk result (out.new.items ≡ out.old.items ++ position_bytes at) }
    ensures fits { OnOk result (IsPosition at) }
{
    push_u32(out, at.view.primary.node)?;
    push_u64(out, at.view.primary.incarnation)?;
    push_u64(out, at.view.number)?;
    push_u64(out, at.op)
}

/// Writes an edit at the end.
pub(crate) fn push_edit(alloc: Global, out: &mut Vec<u8>, edit: &Edit) -> Result<(), AllocError>
    ensures written { OnOk result (out.new.items ≡ out.old.items ++ edit_bytes (edit_text edit.now)) }
    ensures fits { OnOk result (IsEditText (edit_text edit.now)) }
    ensures kept { OnOk result (IsKeptEdit edit.now) }
{
    match edit {
        Edit::Register(name, registration) => push_register(out, name, *registration),
        Edit::Unregister(name) => {
            out.push(1)?;
            push_name(out, name)
        }
        Edit::Upload(upload) => push_upload(alloc, out, upload),
        Edit::Limit(limit) => {
            out.push(3)?;
            push_u32(out, limit.names() as u32)
        }
        Edit::Begin(number) => {
            out.push(4)?;
            push_u64(out, *number)
        }
    }
}

// Writes the edit that registers a name.
fn push_register(
    out: &mut Vec<u8>,
    name: &Name,
    registration: Registration,
) -> Result<(), AllocError>
    ensures written { OnOk result (out.new.items ≡ out.old.items ++ edit_bytes (Registers name.now registration)) }
    ensures fits { OnOk result (IsEditText (Registers name.now registration)) }
{
    out.push(0)?;
    push_name(out, name)?;
    push_fields(out, registration.terms())?;
    push_resolver(out, registration.resolver)
}

// Writes a resolver without code.
fn push_resolver(out: &mut Vec<u8>, resolver: ResolverId) -> Result<(), AllocError>
    ensures written { OnOk result (out.new.items ≡ out.old.items ++ resolver_bytes (plain resolver)) }
    ensures fits { OnOk result (IsResolver (plain resolver)) }
{
    match resolver {
        ResolverId::Builtin(builtin) => {
            out.push(place_of(builtin))?;
            Ok(())
        }
        ResolverId::Program(id) => {
            out.push(3)?;
            out.extend_from_slice(&id.0)
        }
    }
}

// Writes the edit that uploads a program.
fn push_upload(alloc: Global, out: &mut Vec<u8>, upload: &Upload) -> Result<(), AllocError>
    ensures written { OnOk result (out.new.items ≡ out.old.items ++ edit_bytes (Uploads (flat_map insn_bytes upload.now.code))) }
    ensures fits { OnOk result (IsEditText (Uploads (flat_map insn_bytes upload.now.code))) }
    ensures kept { OnOk result (IsProgram upload.now.id upload.now.code) }
{
    // For the proof: what the type of an upload guarantees.
    upload.id();
    out.push(2)?;
    push_code(alloc, out, upload.program())
}
