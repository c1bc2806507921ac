//! The rows of offers as bytes.
ghost use Rattle.std.specs.Prelude.{◌≡◌, ◌≤◌, ◌++◌, List, Ok, Err, IfOk, IfErr, OnOk, OnErr, length};
ghost use Rattle.std.specs.List.{flat_map};
ghost use Rattle.std.specs.Option.{option_map};
ghost use Rattle.std.specs.Arc.{arc_value};
ghost use Rattle.std.specs.Int.{w64, to_le_bytes};
ghost use Rattle.insn_codec.specs.Encoding.{insn_bytes};
ghost use Rattle.clash_record.specs.declared.registrations.ResolverId.TheVariants.{Program};
ghost use Rattle.clash_record.specs.Orders.{builtin_place};
ghost use Rattle.clash_record.specs.declared.registrations.ProgramId.{ProgramId};
ghost use Rattle.exchange_codec.specs.Reading.{Reads, many_at, bytes_at};
ghost use Rattle.exchange_codec.specs.Rows as texts;
ghost use Rattle.exchange_codec.specs.Rows.{owner_at, terms_at, resolver_at, row_at, row_bytes, owner_bytes, row_text, ids_after, fields_bytes, resolver_bytes, resolver_text, Code, code_bytes, sized_code, max_code, IsRow, IsResolver, HasFields, AreIds};
ghost use Rattle.exchange_codec.specs.RowsText.{row_view, resolver_view};
ghost use Rattle.exchange_codec.specs.Writing.{BeginsWith};

use crate::fault::{Fault, FieldFault};
use crate::fields::{bytes_at, count_at, push_u32, u32_at, u64_at};
use crate::names::{name_at, push_name};
use clash_record::{Builtin, Name, Owner, ProgramId, Registration, ResolverId, Terms};
use insn_codec::encode;
use std::alloc::{AllocError, Global};
use std::collections::BTreeSet;
use std::sync::Arc;
use verifier::Verified;

/// The most bytes that the code of a program has.
pub const MAX_CODE: u32 = 8192;

// The bytes of a row whose name has one byte and whose resolver is built in.
const LEAST_ROW: usize = 43;

/// The field of a row that names the resolver.
#[derive(Clone, Copy, Debug)]
pub enum ResolverText<'a> {
    Builtin(Builtin),
    /// A program whose code stands before.
    Named(ProgramId),
    /// A program, by its code.
    Code(&'a [u8]),
}

/// The fields of a row in a message.
#[derive(Clone, Copy, Debug)]
pub struct RowText<'a> {
    pub name: Name,
    pub terms: Terms,
    pub resolver: ResolverText<'a>,
}

/// Reads this many rows, and returns what follows them.
pub(crate) fn skip_rows(count: u32, bytes: &[u8]) -> Result<&[u8], Fault>
    ensures read { IfOk result (λ rest. (rows : List texts.RowText)
        × (many_at row_at count bytes.entry.now ≡ Ok (rows, rest.now))) }
    ensures failed { IfErr result (λ fault. many_at row_at count bytes.entry.now ≡ Err fault) }
{
    let mut rest = bytes;
    for _ in 0..count {
        match row_at(rest) {
            Ok(found) => rest = found.1,
            Err(fault) => return Err(fault),
        }
    }
    Ok(rest)
}

/// Returns for how many of this many rows there is room in the bytes: the count isn't trusted.
pub(crate) fn rows_within(count: u32, bytes: &[u8]) -> usize {
    (count as usize).min(bytes.len() / LEAST_ROW)
}

/// The row at the front, and what follows it.
#[tactic(auto, unfolding(crate::specs::Rows::row_at))]
pub fn row_at(bytes: &[u8]) -> Result<(RowText<'_>, &[u8]), Fault>
    ensures { Reads (λ x. (row_view x.0, x.1.now)) result (row_at bytes.entry.now) }
{
    let (name, rest) = match name_at(bytes) {
        Ok(found) => found,
        Err(fault) => return Err(fault),
    };
    let (terms, rest) = terms_of(rest)?;
    let (resolver, rest) = resolver_of(rest)?;
    Ok((
        RowText {
            name,
            terms,
            resolver,
        },
        rest,
    ))
}

// All of a registration but its resolver, at the front.
#[tactic(auto, unfolding(crate::specs::Rows::terms_at))]
fn terms_of(bytes: &[u8]) -> Result<(Terms, &[u8]), Fault>
    ensures { Reads (λ x. (x.0, x.1.now)) result (terms_at bytes.now) }
{
    let (owner, rest) = owner_of(bytes)?;
    let (stamp, rest) = u64_at(rest)?;
    let (weight, rest) = u64_at(rest)?;
    let (extra, rest) = extra_of(rest)?;
    Ok((
        Terms {
            owner,
            stamp,
            weight,
            extra,
        },
        rest,
    ))
}

// The owner at the front.
#[tactic(auto, unfolding(crate::specs::Rows::owner_at))]
fn owner_of(bytes: &[u8]) -> Result<(Owner, &[u8]), Fault>
    ensures { Reads (λ x. (x.0, x.1.now)) result (owner_at bytes.now) }
{
    let (node, rest) = u32_at(bytes)?;
    let (serial, rest) = u32_at(rest)?;
    Ok((Owner { node, serial }, rest))
}

// Sixteen bytes.
fn extra_of(bytes: &[u8]) -> Result<([u8; 16], &[u8]), Fault>
    ensures { Reads (λ x. (x.0, x.1.now)) result (bytes_at 16 bytes.now) }
{
    let (front, rest) = bytes_at(16, bytes)?;
    let mut extra = [0; 16];
    extra.copy_from_slice(front);
    Ok((extra, rest))
}

// The id of a program.
fn id_at(bytes: &[u8]) -> Result<(ProgramId, &[u8]), Fault>
    ensures { Reads (λ x. (x.0.0, x.1.now)) result (bytes_at 32 bytes.now) }
{
    let (front, rest) = bytes_at(32, bytes)?;
    let mut id = [0; 32];
    id.copy_from_slice(front);
    Ok((ProgramId(id), rest))
}

// The resolver at the front.
#[tactic(auto, unfolding(crate::specs::Rows::resolver_at))]
fn resolver_of(bytes: &[u8]) -> Result<(ResolverText<'_>, &[u8]), Fault>
    ensures { Reads (λ x. (resolver_view x.0, x.1.now)) result (resolver_at bytes.entry.now) }
{
    match bytes {
        [] => Err(Fault::at(FieldFault::Cut, bytes)),
        [0, rest @ ..] => Ok((ResolverText::Builtin(Builtin::Exit), rest)),
        [1, rest @ ..] => Ok((ResolverText::Builtin(Builtin::Notify), rest)),
        [2, rest @ ..] => Ok((ResolverText::Builtin(Builtin::NotifyAll), rest)),
        [3, rest @ ..] => {
            let (id, rest) = id_at(rest)?;
            Ok((ResolverText::Named(id), rest))
        }
        [4, rest @ ..] => {
            let (len, rest) = count_at(MAX_CODE, rest)?;
            let (code, rest) = bytes_at(len as usize, rest)?;
            Ok((ResolverText::Code(code), rest))
        }
        [_, ..] => Err(Fault::at(FieldFault::Resolver, bytes)),
    }
}

/// Writes a row at the end. The programs with these ids stand before; the row's is added to them.
#[tactic(auto, using(crate::proofs::FrontLaws::same, crate::proofs::FrontLaws::further))]
pub(crate) fn push_row(
    out: &mut Vec<u8>,
    before: &mut BTreeSet<ProgramId>,
    name: &Name,
    registration: &Registration,
    program: Option<&Arc<Verified>>,
) -> Result<(), AllocError>
    ensures written { OnOk result ((ids : List ProgramId) → AreIds before.old ids
        → out.new.items ≡ out.old.items ++ row_bytes (row_text ids name.now
        (record { registration = registration.now; code = option_map (λ p. arc_value p.now) program.entry }))) }
    ensures before { OnOk result ((ids : List ProgramId) → AreIds before.old ids
        → AreIds before.new (ids_after ids registration.now.resolver)) }
    ensures fits { OnOk result ((ids : List ProgramId) → AreIds before.old ids → IsRow (row_text ids name.now
        (record { registration = registration.now; code = option_map (λ p. arc_value p.now) program.entry }))) }
    ensures front { OnErr result (BeginsWith out.new.items out.old.items) }
{
    push_name(out, name)?;
    push_fields(out, registration.terms())?;
    push_resolver(out, before, registration.resolver, program)
}

/// Writes all of a registration but its resolver at the end.
#[tactic(auto, using(crate::proofs::FrontLaws::same, crate::proofs::FrontLaws::further))]
pub fn push_fields(out: &mut Vec<u8>, terms: Terms) -> Result<(), AllocError>
    ensures written { OnOk result (out.new.items ≡ out.old.items ++ fields_bytes terms) }
    ensures fits { OnOk result (HasFields terms) }
    // After a failure, the old bytes are still at the front.
    ensures front { OnErr result (BeginsWith out.new.items out.old.items) }
{
    let Terms {
        owner,
        stamp,
        weight,
        extra,
    } = terms;
    out.extend_from_slice(&number_bytes(owner, stamp, weight))?;
    out.extend_from_slice(&extra)?;
    Ok(())
}

// Returns an owner, a stamp and a weight as bytes, which are then written at once.
fn number_bytes(owner: Owner, stamp: u64, weight: u64) -> [u8; 24]
    ensures { result ≡ owner_bytes owner ++ (to_le_bytes w64 stamp ++ to_le_bytes w64 weight) }
{
    let (n, s) = (owner.node.to_le_bytes(), owner.serial.to_le_bytes());
    let (t, w) = (stamp.to_le_bytes(), weight.to_le_bytes());
    [
        n[0], n[1], n[2], n[3], s[0], s[1], s[2], s[3], t[0], t[1], t[2], t[3], t[4], t[5], t[6],
        t[7], w[0], w[1], w[2], w[3], w[4], w[5], w[6], w[7],
    ]
}

// Writes a resolver at the end.
#[tactic(auto, using(crate::proofs::FrontLaws::same, crate::proofs::FrontLaws::further))]
fn push_resolver(
    out: &mut Vec<u8>,
    before: &mut BTreeSet<ProgramId>,
    resolver: ResolverId,
    program: Option<&Arc<Verified>>,
) -> Result<(), AllocError>
    ensures written { OnOk result ((ids : List ProgramId) → AreIds before.old ids
        → out.new.items ≡ out.old.items ++ resolver_bytes (resolver_text ids
        resolver (option_map (λ p. arc_value p.now) program.entry))) }
    ensures before { OnOk result ((ids : List ProgramId) → AreIds before.old ids
        → AreIds before.new (ids_after ids resolver)) }
    ensures fits { OnOk result ((ids : List ProgramId) → AreIds before.old ids → IsResolver (resolver_text ids
        resolver (option_map (λ p. arc_value p.now) program.entry))) }
    ensures front { OnErr result (BeginsWith out.new.items out.old.items) }
{
    match resolver {
        ResolverId::Builtin(builtin) => {
            out.push(place_of(builtin))?;
            Ok(())
        }
        ResolverId::Program(id) => push_program(out, before, id, program),
    }
}

/// The place of a built-in resolver in their order.
pub fn place_of(builtin: Builtin) -> u8
    ensures { result ≡ builtin_place builtin }
{
    match builtin {
        Builtin::Exit => 0,
        Builtin::Notify => 1,
        Builtin::NotifyAll => 2,
    }
}

// Writes a program: its id where it stands before, and else its code.
#[tactic(auto, using(crate::proofs::FrontLaws::same, crate::proofs::FrontLaws::further))]
fn push_program(
    out: &mut Vec<u8>,
    before: &mut BTreeSet<ProgramId>,
    id: ProgramId,
    program: Option<&Arc<Verified>>,
) -> Result<(), AllocError>
    ensures written { OnOk result ((ids : List ProgramId) → AreIds before.old ids
        → out.new.items ≡ out.old.items ++ resolver_bytes (resolver_text ids
        (Program id) (option_map (λ p. arc_value p.now) program.entry))) }
    ensures before { OnOk result ((ids : List ProgramId) → AreIds before.old ids
        → AreIds before.new (ids_after ids (Program id))) }
    ensures fits { OnOk result ((ids : List ProgramId) → AreIds before.old ids → IsResolver (resolver_text ids
        (Program id) (option_map (λ p. arc_value p.now) program.entry))) }
    ensures front { OnErr result (BeginsWith out.new.items out.old.items) }
{
    if before.contains(&id) {
        out.push(3)?;
        return out.extend_from_slice(&id.0);
    }
    before.insert(id)?;
    push_first(out, program)
}

// Writes a program where none with its id stands before.
#[tactic(auto, using(crate::proofs::FrontLaws::same, crate::proofs::FrontLaws::further))]
fn push_first(out: &mut Vec<u8>, program: Option<&Arc<Verified>>) -> Result<(), AllocError>
    ensures written { OnOk result (out.new.items
        ≡ out.old.items ++ resolver_bytes (Code (code_bytes (option_map (λ p. arc_value p.now) program.entry)))) }
    ensures fits { OnOk result (IsResolver (Code (code_bytes (option_map (λ p. arc_value p.now) program.entry)))) }
    ensures front { OnErr result (BeginsWith out.new.items out.old.items) }
{
    out.push(4)?;
    match program {
        Some(program) => push_code(*out.allocator(), out, program),
        None => push_u32(out, 0),
    }
}

/// Writes the code of a program at the end.
#[tactic(auto, using(crate::proofs::FrontLaws::same, crate::proofs::FrontLaws::further))]
pub fn push_code(
    alloc: Global,
    out: &mut Vec<u8>,
    program: &Arc<Verified>,
) -> Result<(), AllocError>
    ensures written { OnOk result (out.new.items ≡ out.old.items ++ sized_code (flat_map insn_bytes (arc_value program.now))) }
    ensures fits { OnOk result (length (flat_map insn_bytes (arc_value program.now)) ≤ max_code) }
    // After a failure, the old bytes are still at the front.
    ensures front { OnErr result (BeginsWith out.new.items out.old.items) }
{
    let code = encode(alloc, program.code())?;
    push_u32(out, code.len() as u32)?;
    out.extend_from_slice(&code)
}
