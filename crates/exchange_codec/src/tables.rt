//! Tables as bytes: the last part of an offer.
ghost use Rattle.std.specs.Prelude.{◌≡◌, ◌++◌, List, Ok, Err, IfOk, IfErr, OnOk, OnErr};
ghost use Rattle.std.specs.List.{flat_map, AllByRecursion};
ghost use Rattle.refusals.specs.Answers.{HasCause, ReturnsOrRunsOut};
ghost use Rattle.partition_table.specs.Tables as tables;
ghost use Rattle.exchange_codec.specs.Faults.{message_fault_number};
ghost use Rattle.exchange_codec.specs.Rows.{RowText, row_bytes, IsRow};
ghost use Rattle.exchange_codec.specs.declared.fault.MessageFault.{MessageFault};
ghost use Rattle.exchange_codec.specs.Reading.{Fails};
ghost use Rattle.exchange_codec.specs.Writing.{BeginsWith};
ghost use Rattle.exchange_codec.specs.model.Building.{IsBuiltOf};
ghost use Rattle.exchange_codec.specs.Tables.{SpellsTable, IsTableFault, IsTableText, whole_rows, table_bytes, table_text};

use crate::building::table_at;
use crate::fault::{Fault, FieldFault, MessageFault, ReadError};
use crate::fields::{count_at, push_u32};
use crate::rows::push_row;
use crate::theorem::one_program_theorem;
use partition_table::{NameLimit, Table};
use std::alloc::{AllocError, Global};
use std::collections::BTreeSet;

// Bytes for each row that are reserved before rows are written: a name of 22 bytes, and a built-in resolver.
const USUAL_ROW: usize = 64;

/// Encodes a table as the last part of an offer. Fails only when out of memory.
pub fn encode_table(alloc: Global, table: &Table) -> Result<Vec<u8>, AllocError>
    ensures { IfOk result (λ bytes. SpellsTable bytes.items table.now) }
{
    let mut out = Vec::new(alloc);
    push_table(alloc, &mut out, table)?;
    Ok(out)
}

/// Writes a table at the end: the number of its rows, and the rows in the order of names.
#[tactic(auto, using(crate::proofs::FrontLaws::same, crate::proofs::FrontLaws::further))]
pub fn push_table(alloc: Global, out: &mut Vec<u8>, table: &Table) -> Result<(), AllocError>
    ensures written { OnOk result (out.new.items ≡ out.old.items ++ table_bytes (table_text table.now)) }
    ensures fits { OnOk result (IsTableText (table_text table.now)) }
    ensures kept { OnOk result (tables.IsTable table.now) }
    // After a failure, the old bytes are still at the front.
    ensures front { OnErr result (BeginsWith out.new.items out.old.items) }
{
    let count = table.len();
    out.reserve(count.saturating_mul(USUAL_ROW))?;
    push_u32(out, count as u32)?;
    push_rows(alloc, out, table)
}

// Writes the rows of a table at the end, in the order of names.
#[tactic(auto, using(crate::proofs::FrontLaws::same, crate::proofs::FrontLaws::further))]
fn push_rows(alloc: Global, out: &mut Vec<u8>, table: &Table) -> Result<(), AllocError>
    ensures written { OnOk result (out.new.items ≡ out.old.items ++ flat_map row_bytes (table_text table.now)) }
    ensures fit { OnOk result (AllByRecursion IsRow (table_text table.now)) }
    ensures front { OnErr result (BeginsWith out.new.items out.old.items) }
{
    let mut before = BTreeSet::new(alloc);
    let mut rows = table.rows();
    while let Some((name, registration)) = rows.next() {
        let program = table.program_for(registration.resolver);
        push_row(out, &mut before, name, registration, program)?;
    }
    Ok(())
}

/// Decodes untrusted bytes as a table, which is all of them.
///
/// Verifies each program again, and computes its id. Rejects the first fault of a field and else of a row, as `decode_offer`
/// does, with places in these bytes. Returns 90 when out of memory.
pub fn decode_table(alloc: Global, bytes: &[u8]) -> Result<Table, MessageFault>
    // The bytes spell the table that is returned.
    ensures spelled { IfOk result (SpellsTable bytes.now) }
    // A table that the bytes spell is returned, unless memory runs out.
    ensures taken { (table : tables.Table) → SpellsTable bytes.now table
        → ReturnsOrRunsOut message_fault_number result (Ok table) }
    // A refusal has its cause.
    ensures refused { IfErr result (HasCause message_fault_number (IsTableFault bytes.now)) }
    // A fault of the bytes is returned, unless memory runs out.
    ensures told { (fault : MessageFault) → IsTableFault bytes.now fault
        → ReturnsOrRunsOut message_fault_number result (Err fault) }
{
    // For the proof: code has one reading and one verdict.
    one_program_theorem();
    match table_of(alloc, bytes) {
        Ok(built) => built,
        Err(error) => Err(error.told(bytes.len())),
    }
}

/// Reads the rows that all of the bytes spell. Returns their table, or the fault of the first invalid row.
#[tactic(auto, unfolding(crate::specs::Tables::whole_rows, crate::specs::Tables::rows_at))]
pub(crate) fn table_of(
    alloc: Global,
    bytes: &[u8],
) -> Result<Result<Table, MessageFault>, ReadError>
    ensures built { IfOk result (λ built. (texts : List RowText) × (whole_rows bytes.now ≡ Ok texts) × IsBuiltOf texts built) }
    ensures failed { IfErr result (λ error. Fails error (whole_rows bytes.now)) }
{
    let (count, rest) = count_at(NameLimit::MAX as u32, bytes)?;
    let (built, rest) = table_at(alloc, count, rest)?;
    if !rest.is_empty() {
        return Err(ReadError::Fault(Fault::at(FieldFault::Trailing, rest)));
    }
    Ok(built)
}
