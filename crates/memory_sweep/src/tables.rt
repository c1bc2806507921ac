//! Calls of a store and of tables.

use crate::comparing::{is_same_option, is_same_program, is_same_table};
use crate::fault::Fault;
use crate::merging::sweep_merging;
use crate::sweeping::{Call, Subject, sweep};
use clash_record::{ProgramId, Registration, ResolverId};
use fixtures::{
    BY_WORD, FIRST, exit_registration, numbered_name, numbered_table, registration, stored,
};
use partition_table::{Clash, ClashList, Table, clashes};
use std::alloc::Global;
use upload_store::UploadStore;

/// The counts of names before the call: none, and the count at which the next name splits a node of the tree.
const SIZES: [u16; 2] = [0, 15];

// Whether the two stores have as many programs, and the same ones under these ids.
fn is_same_store(one: &UploadStore, other: &UploadStore, ids: &[ProgramId]) -> bool {
    one.len() == other.len()
        && ids
            .iter()
            .all(|id| is_same_program(one.get(id), other.get(id)))
}

/// A table, a store with one program, and what a call of either gave.
#[derive(Drop)]
struct Tabled {
    table: Table,
    other: Table,
    store: UploadStore,
    program: ProgramId,
    uploaded: Option<ProgramId>,
    given: Option<Table>,
    clashes: Option<ClashList>,
}

impl Tabled {
    // Returns a table with `names` names of node 1, judged by a program, and another with the same names of node 2.
    fn new(alloc: Global, names: u16) -> Result<Tabled, Fault> {
        let (store, program) = stored(alloc, &BY_WORD)?;
        let resolver = ResolverId::Program(program);
        Ok(Tabled {
            table: numbered_table(alloc, names, 1, resolver, &store)?,
            other: numbered_table(alloc, names, 2, resolver, &store)?,
            store,
            program,
            uploaded: None,
            given: None,
            clashes: None,
        })
    }

    // Registers the name of this number.
    fn register(&mut self, number: u16, registration: Registration) -> Result<(), Fault> {
        Ok(
            self.table
                .register(numbered_name(b'n', number)?, registration, &self.store)?,
        )
    }

    // The ids that the store may have.
    fn ids(&self) -> [ProgramId; 2] {
        [self.program, self.uploaded.unwrap_or(self.program)]
    }
}

impl Subject for Tabled {
    fn is_same(&self, other: &Tabled) -> bool {
        self.table == other.table
            && self.other == other.other
            && self.table.len() == other.table.len()
            && self.uploaded == other.uploaded
            && is_same_store(&self.store, &other.store, &self.ids())
            && is_same_table(self.given.as_ref(), other.given.as_ref())
            && is_same_option(self.clashes.as_ref(), other.clashes.as_ref(), is_same_list)
    }
}

/// Checks whether both lists have the same clashes.
pub(crate) fn is_same_list(one: &ClashList, other: &ClashList) -> bool {
    one.len() == other.len()
        && one
            .iter()
            .zip(other.iter())
            .all(|(one, other)| is_same_clash(one, other))
}

fn is_same_clash(one: &Clash, other: &Clash) -> bool {
    one.record(0) == other.record(0)
        && one.first() == other.first()
        && one.second() == other.second()
        && is_same_program(one.program(), other.program())
}

/// A call of a store or of a table that has `names` names.
#[derive(Clone, Copy)]
struct TableCall {
    kind: TableCallKind,
    names: u16,
}

#[derive(Clone, Copy)]
enum TableCallKind {
    Upload,
    RegisterBuiltin,
    RegisterProgram,
    TryClone,
    Share,
    Clashes,
}

impl Call<Tabled> for TableCall {
    fn name(&self) -> &'static str {
        match self.kind {
            TableCallKind::Upload => "UploadStore::upload",
            TableCallKind::RegisterBuiltin => "Table::register of a built-in",
            TableCallKind::RegisterProgram => "Table::register of a program",
            TableCallKind::TryClone => "Table::try_clone",
            TableCallKind::Share => "Table::share",
            TableCallKind::Clashes => "clashes",
        }
    }

    fn prepare(&self, alloc: Global) -> Result<Tabled, Fault> {
        Tabled::new(alloc, self.names)
    }

    fn make(&self, alloc: Global, tabled: &mut Tabled) -> Result<(), Fault> {
        match self.kind {
            TableCallKind::Upload => tabled.uploaded = Some(tabled.store.upload(alloc, &FIRST)?),
            TableCallKind::RegisterBuiltin => tabled.register(self.names, exit_registration(1, 1))?,
            TableCallKind::RegisterProgram => {
                tabled.register(
                    self.names,
                    registration(1, 1, ResolverId::Program(tabled.program)),
                )?;
            }
            TableCallKind::TryClone => tabled.given = Some(tabled.table.try_clone()?),
            TableCallKind::Share => tabled.given = Some(tabled.table.share()?),
            TableCallKind::Clashes => {
                tabled.clashes = Some(clashes(alloc, &tabled.table, 0, &tabled.other, 0)?);
            }
        }
        Ok(())
    }
}

/// Sweeps the calls of a store and of tables.
pub(crate) fn sweep_tables(rt: &HostRuntime) -> Result<(), Fault> {
    sweep_kinds(rt, 1, &[TableCallKind::Upload])?;
    for names in SIZES {
        sweep_kinds(
            rt,
            names,
            &[
                TableCallKind::RegisterBuiltin,
                TableCallKind::RegisterProgram,
            ],
        )?;
    }
    for names in [1, 16] {
        sweep_kinds(
            rt,
            names,
            &[
                TableCallKind::TryClone,
                TableCallKind::Share,
                TableCallKind::Clashes,
            ],
        )?;
        sweep_merging(rt, names)?;
    }
    Ok(())
}

// Sweeps these calls on tables with `names` names.
fn sweep_kinds(rt: &HostRuntime, names: u16, kinds: &[TableCallKind]) -> Result<(), Fault> {
    for kind in kinds {
        sweep(rt, &TableCall { kind: *kind, names })?;
    }
    Ok(())
}
