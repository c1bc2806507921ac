//! Tables.
ghost use Rattle.std.specs.Prelude.{◌≡◌, ◌<◌, ◌^◌, length, if◌then◌else◌, is_some, Some, None, Ok, Err, IfOk, OnOk, OnErr, IfSome, IsTrue, ◌↔◌, reverse};
ghost use Rattle.std.specs.Option.{option_map};
ghost use Rattle.std.specs.Arc.{arc_value};
ghost use Rattle.std.specs.FinMap as map;
ghost use Rattle.clash_record.specs.Name.{Name};
ghost use Rattle.partition_table.specs.Tables.{IsTable, IsCodeOf, agrees_with, max_names, most_names, tables_agree, row_for, rows_above, rows_of, Row};
ghost use Rattle.partition_table.specs.model.Coding.{AreKeptFor, HasCodesAmong, HasRoomForRows};
ghost use Rattle.partition_table.specs.model.Keeping.{kept_code, IsKept, IsKeptFor};
ghost use Rattle.partition_table.specs.Views.{table_by};
ghost use Rattle.partition_table.specs.declared.fault.TableFault.TheVariants.{NameTaken};
ghost use Rattle.upload_store.specs.Programs.{programs_by};
ghost use Rattle.refusals.specs.Answers.{IsAnswered};
ghost use Rattle.partition_table.specs.Faults.{row_fault, table_fault_number, unregister_answer};

use crate::fault::TableFault;
use crate::limit::NameLimit;
use crate::programs::{
    Kept, copy_others, find_program, has_room, hold_program, programs_agree, release_program,
};
use crate::row_store::{RowStore, map_of};
use crate::rows::Rows;
use crate::shared_registration::SharedRegistration;
use crate::stored_rows::StoredRows;
use clash_record::{Name, ProgramId, Registration, ResolverId};
use std::alloc::{AllocError, Global};
use std::collections::BTreeMap;
use std::marker::Model;
use std::sync::Arc;
use upload_store::UploadStore;
use verifier::Verified;

/// At most 1,048,576 names with their registrations, and the programs that the registrations name.
///
/// Contracts see it as a finite map from names to rows: a registration with the code of its program.
#[derive(Debug)]
pub struct Table {
    rows: RowStore,
    programs: BTreeMap<ProgramId, Kept>,
}

// Written out, so that a drop is one call in the proofs of callers.
impl Drop for Table {
    fn drop(self) {
        let Table {
            rows: _,
            programs: _,
        } = self;
    }
}

impl Model for Table {
    ghost use Rattle.partition_table.specs.Tables.{Table};
    ghost use Rattle.partition_table.specs.model.Keeping.{kept_code, IsKept};
    ghost use Rattle.partition_table.specs.Views.{coded_table, table_by};
    ghost use Rattle.upload_store.specs.Programs.{programs_by};

    ghost Value = { Table };

    ghost coded = { coded_table };

    ghost view = { λ t. table_by (programs_by kept_code t.programs.entries) t.rows };

    ghost invariant = { λ t. IsKept t.programs.entries
        (table_by (programs_by kept_code t.programs.entries) t.rows) };
}

impl Table {
    /// Returns an empty table. Allocates nothing.
    pub fn new(alloc: Global) -> Table
        ensures { result ≡ map.empty }
    {
        Table {
            rows: RowStore::new(alloc, BTreeMap::new(alloc)),
            programs: BTreeMap::new(alloc),
        }
    }

    /// Returns the number of names. Allocates nothing.
    pub fn len(&self) -> usize
        ensures count { result ≡ map.len self.now }
        // At most 1,048,576 names; each row has the program that it names; no id has two codes.
        ensures kept { IsTable self.now }
    {
        self.rows.len()
    }

    /// Checks whether the table is empty. Allocates nothing.
    pub fn is_empty(&self) -> bool
        ensures { IsTrue result ↔ (map.len self.now ≡ 0) }
    {
        self.len() == 0
    }

    /// Returns the registration of the name, if any. Allocates nothing.
    pub fn whereis(&self, name: &Name) -> Option<&Registration>
        ensures { option_map (λ r. r.now) result ≡ option_map (λ row. row.registration) (map.get self.now name.now) }
    {
        self.rows.get(name)
    }

    /// Iterates over the names and their registrations in the order of names. Allocates nothing.
    pub fn rows(&self) -> Rows<'_>
        ensures rows { result ≡ rows_of self.now }
        ensures fits { length result < 2 ^ 63 }
        ensures kept { IsTable self.now }
    {
        Rows::new(self.stored_rows())
    }

    /// Iterates over the rows whose names are above this one, in the order of names. Allocates nothing.
    ///
    /// Finds the first of them in logarithmic time. A table that marked rows (`unregister`) looks at each row before it.
    pub fn rows_after(&self, name: &Name) -> Rows<'_>
        ensures rows { result ≡ rows_above name.now self.now }
        ensures fits { length result < 2 ^ 63 }
    {
        Rows::new(self.rows.after(name))
    }

    // Iterates over the names and their registrations, which others may share, in the order of names.
    pub(crate) fn stored_rows(&self) -> StoredRows<'_>
        ensures rows { result ≡ rows_of self.now }
        ensures fits { length result < 2 ^ 63 }
        ensures kept { IsTable self.now }
    {
        self.rows.iter()
    }

    /// Registers the name in a table of at most 4,096 names. See `register_within`.
    pub fn register(
        &mut self,
        name: Name,
        registration: Registration,
        store: &UploadStore,
    ) -> Result<(), TableFault>
        ensures answer { IsAnswered table_fault_number (row_fault max_names self.old name registration store.now) result }
        // 30, 32, 41 and 42 come also when out of memory.
        ensures refused { IfSome (row_fault max_names self.old name registration store.now) (λ fault. result ≡ Err fault) }
        ensures registered { OnOk result (self.new ≡ map.insert self.old name (row_for store.now registration)) }
        ensures unchanged { OnErr result (self.new ≡ self.old) }
    {
        self.register_within(NameLimit::default(), name, registration, store)
    }

    /// Registers the name in a table of at most `limit` names, and keeps the program that the registration names, as the
    /// store has it.
    ///
    /// Refusals, the least first: 30 if the name is registered, 32 if the table has `limit` names or more, 41 if the store
    /// lacks the program, 42 if the table keeps other code under its id. Returns 90 when out of memory: it allocates the
    /// row, the program's id and one more owner of the program, and copies the rows if other tables share them.
    pub fn register_within(
        &mut self,
        limit: NameLimit,
        name: Name,
        registration: Registration,
        store: &UploadStore,
    ) -> Result<(), TableFault>
        ensures answer { IsAnswered table_fault_number (row_fault limit.names self.old name registration store.now) result }
        ensures refused { IfSome (row_fault limit.names self.old name registration store.now) (λ fault. result ≡ Err fault) }
        ensures registered { OnOk result (self.new ≡ map.insert self.old name (row_for store.now registration)) }
        ensures unchanged { OnErr result (self.new ≡ self.old) }
    {
        self.register_known(false, limit, name, registration, store)
    }

    /// Registers the name like `register_within`, but compares no code if `is_known`: requires then that the table keeps no
    /// other code under the id of the program that the registration names.
    pub fn register_known(
        &mut self,
        is_known: bool,
        limit: NameLimit,
        name: Name,
        registration: Registration,
        store: &UploadStore,
    ) -> Result<(), TableFault>
        requires { IsTrue is_known → IsTrue (agrees_with self.old (row_for store.now registration)) }
        ensures answer { IsAnswered table_fault_number (row_fault limit.names self.old name registration store.now) result }
        ensures refused { IfSome (row_fault limit.names self.old name registration store.now) (λ fault. result ≡ Err fault) }
        ensures registered { OnOk result (self.new ≡ map.insert self.old name (row_for store.now registration)) }
        ensures unchanged { OnErr result (self.new ≡ self.old) }
    {
        // Looks the name up only where something else refuses it: `keep` finds a registered name by itself.
        if self.rows.len() >= limit.names() {
            return Err(self.refusal(&name, TableFault::Full));
        }
        let program = match find_program(store, registration.resolver) {
            Ok(program) => program,
            Err(fault) => return Err(self.refusal(&name, fault)),
        };
        if !has_room(is_known, &self.programs, registration.resolver, program) {
            return Err(self.refusal(&name, TableFault::OtherCode));
        }
        self.keep(name, registration, program)
    }

    /// Unregisters the name and returns its registration, or 31 if it isn't registered.
    ///
    /// Needs no memory: copies the rows if other tables share them, but without memory for a copy marks the row. Then the table finds a
    /// name by looking at each row, until it gets a new row or shares its rows.
    pub fn unregister(&mut self, name: &Name) -> Result<Registration, TableFault>
        ensures answer { result ≡ unregister_answer (map.get self.old name.now) }
        ensures unregistered { self.new ≡ map.remove self.old name.now }
        ensures unchanged { OnErr result (self.new ≡ self.old) }
    {
        let Some(registration) = self.rows.remove(name) else {
            return Err(TableFault::NoSuchName);
        };
        release_program(&mut self.programs, registration.resolver);
        Ok(registration)
    }

    /// Returns a table that holds the same, and shares the rows of this one until one of the two changes. Copies no row, unless some are
    /// marked (`unregister`). Allocates one more owner of each program, and a byte for each row.
    pub fn share(&mut self) -> Result<Table, AllocError>
        ensures shared { IfOk result (λ table. table ≡ self.old) }
        ensures same { self.new ≡ self.old }
    {
        let programs = self.programs.clone()?;
        let rows = self.rows.share()?;
        Ok(Table { rows, programs })
    }

    /// Copies the table, or shares its rows if other tables share them already. Allocates the rows, or a byte for each, and one more owner
    /// of each program.
    pub fn try_clone(&self) -> Result<Table, AllocError>
        ensures { IfOk result (λ table. table ≡ self.now) }
    {
        Ok(Table {
            rows: self.rows.try_clone()?,
            programs: self.programs.clone()?,
        })
    }

    // Copies the programs. Allocates one more owner of each.
    pub(crate) fn copy_programs(&self) -> Result<BTreeMap<ProgramId, Kept>, AllocError>
        ensures { IfOk result (λ programs. AreKeptFor (programs_by kept_code programs.entries) self.now) }
    {
        let programs = self.programs.clone()?;
        Ok(programs)
    }

    // Copies the programs whose ids aren't among the known ones. Requires that no row names one of these with other code.
    // Allocates one more owner of each.
    pub(crate) fn copy_others(
        &self,
        alloc: Global,
        known: &BTreeMap<ProgramId, Kept>,
    ) -> Result<BTreeMap<ProgramId, Kept>, AllocError>
        requires { HasRoomForRows (programs_by kept_code known.now.entries) self.now }
        ensures { IfOk result (λ others. HasCodesAmong (programs_by kept_code others.entries)
            (programs_by kept_code known.now.entries) self.now) }
    {
        let others = copy_others(alloc, &self.programs, known)?;
        Ok(others)
    }

    // Checks that no program has one code here and another in the other table.
    pub(crate) fn agrees_with(&self, other: &Table) -> bool
        ensures { result ≡ tables_agree self.now other.now }
    {
        programs_agree(&self.programs, &other.programs)
    }

    /// Returns the program that the resolver names, if the table keeps it. Allocates nothing.
    pub fn program_for(&self, resolver: ResolverId) -> Option<&Arc<Verified>>
        ensures each { (name : Name) (row : Row) → map.get self.now name ≡ Some row
            → row.registration.resolver ≡ resolver
            → option_map (λ p. arc_value p.now) result ≡ row.code }
        ensures named { IfSome result (λ p. IsKeptFor self.now resolver (arc_value p.now)) }
    {
        match resolver {
            ResolverId::Builtin(_) => None,
            ResolverId::Program(id) => match self.programs.get(&id) {
                Some(kept) => Some(&kept.program),
                None => None,
            },
        }
    }

    // Returns the table of these rows and the programs that they name. The last row of a name counts.
    pub(crate) fn of_rows(
        alloc: Global,
        rows: Vec<(Name, SharedRegistration)>,
        programs: BTreeMap<ProgramId, Kept>,
    ) -> Result<Table, AllocError>
        requires { IsKept programs.entries (table_by (programs_by kept_code programs.entries) (reverse rows.items)) }
        ensures { IfOk result (λ table. table
            ≡ table_by (programs_by kept_code programs.entries) (reverse rows.items)) }
    {
        let rows = RowStore::new(alloc, map_of(alloc, rows)?);
        Ok(Table { rows, programs })
    }

    // Returns 30 if the name is registered, and otherwise the fault.
    fn refusal(&self, name: &Name, fault: TableFault) -> TableFault
        ensures { result ≡ (if map.contains_key self.now name.now then NameTaken else fault) }
    {
        if self.rows.contains_key(name) {
            TableFault::NameTaken
        } else {
            fault
        }
    }

    // Adds the row, or returns 30 if the name is registered. If the program can't be kept, takes the row out again.
    fn keep(
        &mut self,
        name: Name,
        registration: Registration,
        program: Option<&Arc<Verified>>,
    ) -> Result<(), TableFault>
        requires room { map.len self.old < most_names }
        requires coded { IsCodeOf registration.resolver (option_map (λ p. arc_value p.now) program) }
        requires agrees { IsTrue (agrees_with self.old
            record { registration = registration; code = option_map (λ p. arc_value p.now) program }) }
        ensures answer { IsAnswered table_fault_number
            (if map.contains_key self.old name then Some NameTaken else None) result }
        ensures refused { IfSome (if map.contains_key self.old name then Some NameTaken else None)
            (λ fault. result ≡ Err fault) }
        ensures kept { OnOk result (self.new ≡ map.insert self.old name
            record { registration = registration; code = option_map (λ p. arc_value p.now) program.entry }) }
        ensures unchanged { OnErr result (self.new ≡ self.old) }
    {
        self.rows.insert_new(name, registration)?;
        if let Err(refused) = hold_program(&mut self.programs, registration.resolver, program) {
            self.rows.remove(&name);
            return Err(refused.into());
        }
        Ok(())
    }
}
