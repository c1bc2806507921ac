//! A table that is made row by row.
ghost use Rattle.std.specs.Prelude.{◌≡◌, IfOk, OnOk, OnErr};
ghost use Rattle.std.specs.Option.{option_map};
ghost use Rattle.std.specs.Arc.{arc_value};
ghost use Rattle.std.specs.FinMap as map;
ghost use Rattle.partition_table.specs.Tables.{IsNewRow, IsTable};

use crate::programs::{Kept, hold_program};
use crate::shared_registration::SharedRegistration;
use crate::table::Table;
use clash_record::{Name, ProgramId, Registration};
use std::alloc::{AllocError, Global};
use std::collections::BTreeMap;
use std::marker::Model;
use std::sync::Arc;
use verifier::Verified;

/// Builds a table row by row.
///
/// Contracts see it as the table that `finish` makes of it. Rows that come in the order of names need no sorting.
#[derive(Drop)]
#[derive_where(Debug)]
pub struct TableBuilder {
    #[derive_where(skip)]
    alloc: Global,
    rows: Vec<(Name, SharedRegistration)>,
    programs: BTreeMap<ProgramId, Kept>,
}

impl Model for TableBuilder {
    ghost use Rattle.std.specs.Prelude.{reverse};
    ghost use Rattle.partition_table.specs.Tables.{Table};
    ghost use Rattle.partition_table.specs.model.Keeping.{kept_code, IsKept};
    ghost use Rattle.partition_table.specs.Views.{coded_table, table_by};
    ghost use Rattle.upload_store.specs.Programs.{programs_by};

    ghost Value = { Table };

    ghost coded = { coded_table };

    ghost view = { λ t. table_by (programs_by kept_code t.programs.entries) (reverse t.rows.items) };

    ghost invariant = { λ t. IsKept t.programs.entries
        (table_by (programs_by kept_code t.programs.entries) (reverse t.rows.items)) };
}

impl TableBuilder {
    /// Returns a builder without rows. Allocates nothing.
    pub fn new(alloc: Global) -> TableBuilder
        ensures { result ≡ map.empty }
    {
        TableBuilder {
            alloc,
            rows: Vec::new(alloc),
            programs: BTreeMap::new(alloc),
        }
    }

    /// Returns a builder without rows that has room for as many rows as this.
    pub fn with_capacity(alloc: Global, rows: usize) -> Result<TableBuilder, AllocError>
        ensures { IfOk result (λ builder. builder ≡ map.empty) }
    {
        Ok(TableBuilder {
            alloc,
            rows: Vec::with_capacity(alloc, rows)?,
            programs: BTreeMap::new(alloc),
        })
    }

    /// Adds a row under a name that has none, and keeps its program. Doesn't compare code: requires that each row that names
    /// the program has this code.
    ///
    /// Fails only when out of memory, and then leaves the rows as they are.
    #[inline]
    pub fn push(
        &mut self,
        name: &Name,
        registration: &Registration,
        program: Option<&Arc<Verified>>,
    ) -> Result<(), AllocError>
        requires { IsNewRow self.old name.now
            record { registration = registration.now; code = option_map (λ p. arc_value p.now) program } }
        ensures pushed { OnOk result (self.new ≡ map.insert self.old name.now
            record { registration = registration.now; code = option_map (λ p. arc_value p.now) program.entry }) }
        ensures unchanged { OnErr result (self.new ≡ self.old) }
    {
        let registration = SharedRegistration::new(self.alloc, *registration)?;
        self.push_shared(name, registration, program)
    }

    // Adds a row like `push`, whose registration others may share.
    #[inline]
    pub(crate) fn push_shared(
        &mut self,
        name: &Name,
        registration: SharedRegistration,
        program: Option<&Arc<Verified>>,
    ) -> Result<(), AllocError>
        requires { IsNewRow self.old name.now
            record { registration = registration; code = option_map (λ p. arc_value p.now) program } }
        ensures pushed { OnOk result (self.new ≡ map.insert self.old name.now
            record { registration = registration; code = option_map (λ p. arc_value p.now) program.entry }) }
        ensures unchanged { OnErr result (self.new ≡ self.old) }
    {
        self.rows.reserve(1)?;
        hold_program(&mut self.programs, registration.resolver, program)?;
        self.rows.push_reserved((*name, registration));
        Ok(())
    }

    /// States what the type guarantees of the rows. Does nothing at run time.
    pub fn known(&self)
        // At most 1,048,576 names; each row has the program that it names; no id has two codes.
        ensures { IsTable self.now }
    {
        let _ = &self.rows;
    }

    /// Returns the table of the rows. Allocates them, and looks once at each if they came in the order of names.
    pub fn finish(self, alloc: Global) -> Result<Table, AllocError>
        ensures { IfOk result (λ table. table ≡ self) }
    {
        let TableBuilder {
            alloc: _,
            rows,
            programs,
        } = self;
        Table::of_rows(alloc, rows, programs)
    }
}
