//! The table of rows that are read, and the offer of a side with that table.
ghost use Rattle.std.specs.Prelude.{◌≡◌, ◌≤◌, ◌<◌, not, List, [], Ok, IfOk, IfErr, OnOk, IsTrue};
ghost use Rattle.std.specs.Option.{option_map};
ghost use Rattle.std.specs.Arc.{arc_value};
ghost use Rattle.std.specs.FinMap as map;
ghost use Rattle.std.specs.FinMap.{entries, insert, len};
ghost use Rattle.refusals.specs.Answers.{HasCause};
ghost use Rattle.instruction_set.specs.Machine.{IsSafe};
ghost use Rattle.verifier.specs.Programs.{IsAccepted};
ghost use Rattle.partition_table.specs.Tables.{IsNewRow, IsTable, Table, most_names};
ghost use Rattle.exchange_codec.specs.Faults.{message_fault_number};
ghost use Rattle.exchange_codec.specs.Reading.{Fails, many_at};
ghost use Rattle.exchange_codec.specs.Rows.{Code};
ghost use Rattle.exchange_codec.specs.Rows as texts;
ghost use Rattle.exchange_codec.specs.RowsText.{resolver_view, row_view};
ghost use Rattle.exchange_codec.specs.declared.fault.MessageFault.TheVariants.{OutOfMemory};
ghost use Rattle.exchange_codec.specs.model.Building.{AreProgramsOf, row_with, HasRow, IsBuiltOf, IsLast, IsLeastRowFault, IsOfferOf, IsRowsFault, IsCodeFault, program_fault_of};
ghost use Rattle.exchange_codec.specs.Tables.{is_name_above};

use crate::fault::{ItemFault, MessageFault, ReadError, ran_out};
use crate::offers::OfferHead;
use crate::rows::{ResolverText, RowText, row_at, rows_within, skip_rows};
use clash_record::{Name, ProgramId, ResolverId};
use exchange_core::{Offer, Side};
use partition_table::{NameLimit, Table, TableBuilder};
use refusals::{Numbered, OUT_OF_MEMORY};
use sha2::{Digest, Sha256};
use std::alloc::{AllocError, Global};
use std::collections::BTreeMap;
use std::sync::Arc;
use verifier::{ProgramFault, Verified, read_program};

// A program whose code an earlier row has.
#[derive(Drop)]
pub(crate) struct Known {
    program: Arc<Verified>,
}

// Builds the table of rows that are read.
#[derive(Drop)]
struct RowsBuilder {
    table: TableBuilder,
    // The programs that its rows name: a table may name more of them than a store holds.
    programs: BTreeMap<ProgramId, Known>,
}

/// Returns the offer with this head and table: a side with the table begins the number. Returns the fault if there is no table.
pub(crate) fn begun(
    alloc: Global,
    head: OfferHead,
    built: Result<Table, MessageFault>,
) -> Result<Offer, MessageFault>
    ensures begun { (rows : List texts.RowText) → IsBuiltOf rows built
        → IfOk result (IsOfferOf (record { head = head; rows = rows })) }
    ensures refused { (rows : List texts.RowText) → IsBuiltOf rows built
        → IfErr result (HasCause message_fault_number (IsRowsFault rows)) }
{
    let table = built?;
    let Ok(mut side) = Side::with_table(alloc, head.side, greatest(), table, None) else {
        unreachable!()
    };
    match side.begin(alloc, head.number, head.seed, head.uptime) {
        Ok(offer) => Ok(offer),
        Err(fault) => Err(ran_out(fault.number())),
    }
}

// Returns the greatest limit: a message may have as many names as any table.
fn greatest() -> NameLimit
    ensures { result.names ≡ most_names }
{
    match NameLimit::new(NameLimit::MAX) {
        Some(limit) => limit,
        None => unreachable!(),
    }
}

/// Builds the table of this many rows at the front. Returns it, or the fault of the first invalid row, and what follows the rows.
pub(crate) fn table_at(
    alloc: Global,
    count: u32,
    bytes: &[u8],
) -> Result<(Result<Table, MessageFault>, &[u8]), ReadError>
    requires { count ≤ most_names }
    ensures built { IfOk result (λ x. (rows : List texts.RowText)
        × (many_at texts.row_at count bytes.entry.now ≡ Ok (rows, x.1.now)) × IsBuiltOf rows x.0) }
    ensures failed { IfErr result (λ error. Fails error (many_at texts.row_at count bytes.entry.now)) }
{
    let Ok(mut builder) = RowsBuilder::with_capacity(alloc, rows_within(count, bytes)) else {
        return Err(ReadError::Memory);
    };
    let mut last = None;
    let mut rest = bytes;
    for k in 0..count {
        let (row, after) = match row_at(rest) {
            Ok(found) => found,
            Err(fault) => return Err(ReadError::Fault(fault)),
        };
        builder.table.known();
        let at = k as usize;
        if let Err(fault) = builder.add_after(alloc, &last, &row, at) {
            // A field of a later row may be invalid: its fault comes first.
            match skip_rows(count - k - 1, after) {
                Ok(rest) => return Ok((Err(fault), rest)),
                Err(fault) => return Err(ReadError::Fault(fault)),
            }
        }
        last = Some(row.name);
        rest = after;
    }
    Ok((builder.finish(alloc), rest))
}

impl RowsBuilder {
    // Returns a builder without rows that has room for this many.
    fn with_capacity(alloc: Global, rows: usize) -> Result<RowsBuilder, AllocError>
        ensures rows { IfOk result (λ builder. builder.table ≡ map.empty) }
        ensures programs { IfOk result (λ builder. builder.programs.entries ≡ []) }
    {
        Ok(RowsBuilder {
            table: TableBuilder::with_capacity(alloc, rows)?,
            programs: BTreeMap::new(alloc),
        })
    }

    // Adds the row at this index. Its name has to be above that of the last row.
    fn add_after(
        &mut self,
        alloc: Global,
        last: &Option<Name>,
        row: &RowText<'_>,
        at: usize,
    ) -> Result<(), MessageFault>
        requires programs { AreProgramsOf self.old.table self.old.programs }
        requires last { IsLast self.old.table last.now }
        requires room { len self.old.table < most_names }
        ensures added { OnOk result (HasRow self.old.table (row_view row.now) self.new.table self.new.programs) }
        ensures refused { IfErr result
            (HasCause message_fault_number (IsLeastRowFault (entries self.old.table) (row_view row.now) at)) }
    {
        if is_misplaced(last, &row.name) {
            return Err(MessageFault::Item {
                fault: ItemFault::NameOrder,
                at,
            });
        }
        self.add_row(alloc, row, at)
    }

    // Adds the row at this index.
    fn add_row(&mut self, alloc: Global, row: &RowText<'_>, at: usize) -> Result<(), MessageFault>
        requires programs { AreProgramsOf self.old.table self.old.programs }
        requires above { IsTrue (is_name_above (entries self.old.table) row.now.name) }
        requires room { len self.old.table < most_names }
        ensures added { OnOk result (HasRow self.old.table (row_view row.now) self.new.table self.new.programs) }
        ensures refused { IfErr result
            (HasCause message_fault_number (IsLeastRowFault (entries self.old.table) (row_view row.now) at)) }
    {
        match row.resolver {
            ResolverText::Builtin(builtin) => {
                add_by(&mut self.table, row, ResolverId::Builtin(builtin), None)
            }
            ResolverText::Named(id) => match self.programs.get(&id) {
                Some(known) => add_by(
                    &mut self.table,
                    row,
                    ResolverId::Program(id),
                    Some(&known.program),
                ),
                None => Err(MessageFault::Item {
                    fault: ItemFault::NoProgram,
                    at,
                }),
            },
            ResolverText::Code(bytes) => self.add_code(alloc, row, bytes, at),
        }
    }

    // Adds a row with code, and keeps the code.
    fn add_code(
        &mut self,
        alloc: Global,
        row: &RowText<'_>,
        bytes: &[u8],
        at: usize,
    ) -> Result<(), MessageFault>
        requires programs { AreProgramsOf self.old.table self.old.programs }
        requires above { IsTrue (is_name_above (entries self.old.table) row.now.name) }
        requires room { len self.old.table < most_names }
        requires code { resolver_view row.now.resolver ≡ Code bytes.now }
        ensures added { OnOk result (HasRow self.old.table (row_view row.now) self.new.table self.new.programs) }
        ensures refused { IfErr result
            (HasCause message_fault_number (IsLeastRowFault (entries self.old.table) (row_view row.now) at)) }
    {
        let id = ProgramId(Sha256::digest(bytes));
        if self.programs.contains_key(&id) {
            return Err(MessageFault::Item {
                fault: ItemFault::ProgramAgain,
                at,
            });
        }
        let program = program_at(alloc, bytes, at)?;
        let Ok(program) = Arc::new(alloc, program) else {
            return Err(MessageFault::OutOfMemory);
        };
        add_by(
            &mut self.table,
            row,
            ResolverId::Program(id),
            Some(&program),
        )?;
        match self.programs.insert(id, Known { program }) {
            Ok(_) => Ok(()),
            Err(_) => Err(MessageFault::OutOfMemory),
        }
    }

    // Returns the table of the rows.
    fn finish(self, alloc: Global) -> Result<Table, MessageFault>
        ensures built { IfOk result (λ table. (table ≡ self.table) × IsTable table) }
        ensures refused { IfErr result (λ fault. fault ≡ OutOfMemory) }
    {
        let RowsBuilder { table, programs: _ } = self;
        match table.finish(alloc) {
            Ok(table) => {
                // For the proof: what the type of the table guarantees.
                table.len();
                Ok(table)
            }
            Err(_) => Err(MessageFault::OutOfMemory),
        }
    }
}

// Checks whether the name isn't above the last one.
fn is_misplaced(last: &Option<Name>, name: &Name) -> bool
    ensures { (table : Table) → IsLast table last.now → result ≡ not (is_name_above (entries table) name.now) }
{
    match last {
        Some(last) => !last.cmp(name).is_lt(),
        None => false,
    }
}

// Reads the code of the row at this index.
fn program_at(alloc: Global, bytes: &[u8], at: usize) -> Result<Verified, MessageFault>
    ensures accepted { IfOk result (IsAccepted bytes.now) }
    ensures safe { IfOk result (λ program. IsSafe program) }
    ensures refused { IfErr result (HasCause message_fault_number (IsCodeFault bytes.now at)) }
{
    match read_program(alloc, bytes) {
        Ok(program) => Ok(program),
        Err(fault) => Err(program_fault(fault, at)),
    }
}

// Returns the fault of a row whose code isn't a program, or of memory.
fn program_fault(fault: ProgramFault, at: usize) -> MessageFault
    ensures { result ≡ program_fault_of at fault }
{
    if fault.number() == OUT_OF_MEMORY {
        return MessageFault::OutOfMemory;
    }
    MessageFault::Item {
        fault: ItemFault::Program(fault),
        at,
    }
}

// Adds the row with this resolver and its program.
fn add_by(
    builder: &mut TableBuilder,
    row: &RowText<'_>,
    resolver: ResolverId,
    program: Option<&Arc<Verified>>,
) -> Result<(), MessageFault>
    requires { IsNewRow builder.old row.now.name
        (row_with row.now resolver (option_map (λ p. arc_value p.now) program)) }
    ensures added { OnOk result (builder.new ≡ insert builder.old row.now.name
        (row_with row.now resolver (option_map (λ p. arc_value p.now) program.entry))) }
    ensures refused { IfErr result (λ fault. fault ≡ OutOfMemory) }
{
    let registration = row.terms.with_resolver(resolver);
    match builder.push(&row.name, &registration, program) {
        Ok(()) => Ok(()),
        Err(_) => Err(MessageFault::OutOfMemory),
    }
}
