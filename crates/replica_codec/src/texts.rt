//! The fields of an entry, read.
ghost use Rattle.exchange_codec.specs.Reading.{Reads};
ghost use Rattle.replica_codec.specs.Entries.{edit_at, entry_at, entry_from, entry_in, limit_at, position_at, register_at};
ghost use Rattle.replica_codec.specs.EntriesText.{edit_view, entry_view};

use crate::fault::ReplicaMessageFault;
use crate::frames::{ENTRY, SUM, body_of};
use clash_record::{Name, Registration, ResolverId};
use exchange_codec::{
    Fault, FieldFault, MAX_CODE, ResolverText, bytes_at, count_at, name_at, row_at, u32_at, u64_at,
};
use partition_table::NameLimit;
use replica::{Life, Position, View};

/// The fields of an edit in a message.
#[derive(Clone, Copy)]
pub(crate) enum EditText<'a> {
    Registers(Name, Registration),
    Unregisters(Name),
    /// A program, by its code.
    Uploads(&'a [u8]),
    Limits(u32),
    Begins(u64),
}

/// The fields of an entry in a message.
#[derive(Clone, Copy)]
pub(crate) struct EntryText<'a> {
    pub(crate) at: Position,
    pub(crate) edit: EditText<'a>,
}

/// Returns the text that all of the bytes spell.
pub(crate) fn entry_of(bytes: &[u8]) -> Result<EntryText<'_>, ReplicaMessageFault>
    ensures { Reads entry_view result (entry_from bytes.entry.now) }
{
    let body = body_of(ENTRY, bytes)?;
    match entry_in(body) {
        Ok(text) => Ok(text),
        Err(fault) => {
            let len = bytes.len().saturating_sub(SUM);
            Err(ReplicaMessageFault::Message(fault.placed(len)))
        }
    }
}

// The text that all of a body spells.
#[tactic(auto, unfolding(crate::specs::Entries::entry_in))]
fn entry_in(body: &[u8]) -> Result<EntryText<'_>, Fault>
    ensures { Reads entry_view result (entry_in body.entry.now) }
{
    let (text, rest) = match entry_at(body) {
        Ok(found) => found,
        Err(fault) => return Err(fault),
    };
    if !rest.is_empty() {
        return Err(Fault::at(FieldFault::Trailing, rest));
    }
    Ok(text)
}

// The text at the front.
#[tactic(auto, unfolding(crate::specs::Entries::entry_at))]
fn entry_at(bytes: &[u8]) -> Result<(EntryText<'_>, &[u8]), Fault>
    ensures { Reads (λ x. (entry_view x.0, x.1.now)) result (entry_at bytes.entry.now) }
{
    let (at, rest) = position_at(bytes)?;
    let (edit, rest) = match edit_at(rest) {
        Ok(found) => found,
        Err(fault) => return Err(fault),
    };
    Ok((EntryText { at, edit }, rest))
}

/// The position at the front.
#[tactic(auto, unfolding(crate::specs::Entries::position_at))]
pub(crate) fn position_at(bytes: &[u8]) -> Result<(Position, &[u8]), Fault>
    ensures { Reads (λ x. (x.0, x.1.now)) result (position_at bytes.now) }
{
    let (node, rest) = u32_at(bytes)?;
    let (incarnation, rest) = u64_at(rest)?;
    let (number, rest) = u64_at(rest)?;
    let (op, rest) = u64_at(rest)?;
    let primary = Life { node, incarnation };
    let view = View { primary, number };
    Ok((Position { view, op }, rest))
}

// The edit at the front.
#[tactic(auto, unfolding(crate::specs::Entries::edit_at))]
fn edit_at(bytes: &[u8]) -> Result<(EditText<'_>, &[u8]), Fault>
    ensures { Reads (λ x. (edit_view x.0, x.1.now)) result (edit_at bytes.entry.now) }
{
    match bytes {
        [] => Err(Fault::at(FieldFault::Cut, bytes)),
        [0, rest @ ..] => register_at(rest),
        [1, rest @ ..] => match name_at(rest) {
            Ok((name, rest)) => Ok((EditText::Unregisters(name), rest)),
            Err(fault) => Err(fault),
        },
        [2, rest @ ..] => {
            let (len, rest) = count_at(MAX_CODE, rest)?;
            let (code, rest) = bytes_at(len as usize, rest)?;
            Ok((EditText::Uploads(code), rest))
        }
        [3, rest @ ..] => {
            let (limit, rest) = limit_at(rest)?;
            Ok((EditText::Limits(limit), rest))
        }
        [4, rest @ ..] => {
            let (number, rest) = u64_at(rest)?;
            Ok((EditText::Begins(number), rest))
        }
        [_, ..] => Err(Fault::at(FieldFault::Header, bytes)),
    }
}

// The row at the front, as an edit; a row with code is invalid.
#[tactic(auto, unfolding(crate::specs::Entries::register_at))]
fn register_at(bytes: &[u8]) -> Result<(EditText<'_>, &[u8]), Fault>
    ensures { Reads (λ x. (edit_view x.0, x.1.now)) result (register_at bytes.entry.now) }
{
    let (row, rest) = match row_at(bytes) {
        Ok(found) => found,
        Err(fault) => return Err(fault),
    };
    let registration = match row.resolver {
        ResolverText::Builtin(builtin) => row.terms.with_resolver(ResolverId::Builtin(builtin)),
        ResolverText::Named(id) => row.terms.with_resolver(ResolverId::Program(id)),
        ResolverText::Code(_) => return Err(Fault::at(FieldFault::Resolver, bytes)),
    };
    Ok((EditText::Registers(row.name, registration), rest))
}

/// The most names of a table at the front.
#[tactic(auto, unfolding(crate::specs::Entries::limit_at))]
pub(crate) fn limit_at(bytes: &[u8]) -> Result<(u32, &[u8]), Fault>
    ensures { Reads (λ x. (x.0, x.1.now)) result (limit_at bytes.now) }
{
    let (names, rest) = u32_at(bytes)?;
    if 0 < names && names as usize <= NameLimit::MAX {
        Ok((names, rest))
    } else {
        Err(Fault::at(FieldFault::Count, bytes))
    }
}
