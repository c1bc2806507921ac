//! The programs of a store with which a table agrees.
ghost use Rattle.std.specs.Prelude.{◌≡◌, IsTrue};
ghost use Rattle.std.specs.FinMap as map;
ghost use Rattle.partition_table.specs.Tables.{agrees_with, row_for};

use crate::table::Table;
use clash_record::{Name, ProgramId, Registration, ResolverId};
use std::alloc::Global;
use std::collections::BTreeSet;
use std::marker::Model;
use std::snapshot::Snapshot;
use upload_store::UploadStore;

/// The programs of a store that are known to agree with a table: the table keeps no other code under their ids.
///
/// Contracts see it as the table and the store that it is of. It holds as long as both stay, and follows the table's
/// registrations and removals; `restart` begins anew with others.
#[derive(Drop)]
#[derive_where(Debug)]
pub struct Agreement {
    known: BTreeSet<ProgramId>,
    #[derive_where(skip)]
    table: Snapshot<Table>,
    #[derive_where(skip)]
    store: Snapshot<UploadStore>,
}

impl Model for Agreement {
    ghost use Rattle.partition_table.specs.Agreements.{Agreement, coded_agreement};
    ghost use Rattle.partition_table.specs.model.Agreeing.{AreAgreed};

    ghost Value = { Agreement };

    ghost coded = { coded_agreement };

    ghost view = { λ a. record { table = a.table.value; store = a.store.value } };

    ghost invariant = { λ a. AreAgreed a.known a.table.value a.store.value };
}

impl Agreement {
    /// Returns the agreement of a table and a store in which no program is known yet. Allocates nothing.
    pub fn new(alloc: Global, table: &Table, store: &UploadStore) -> Agreement
        ensures { result ≡ record { table = table.now; store = store.now } }
    {
        Agreement {
            known: BTreeSet::new(alloc),
            table: Snapshot::of(table),
            store: Snapshot::of(store),
        }
    }

    /// Forgets the programs, and begins anew with this table and this store. Allocates nothing.
    pub fn restart(&mut self, table: &Table, store: &UploadStore)
        ensures { self.new ≡ record { table = table.now; store = store.now } }
    {
        self.known.clear();
        self.table = Snapshot::of(table);
        self.store = Snapshot::of(store);
    }

    /// Checks whether the registration names a program that is known to agree. Compares no code, and allocates nothing.
    pub fn knows(&self, registration: &Registration) -> bool
        ensures { IsTrue result → IsTrue (agrees_with self.now.table (row_for self.now.store registration.now)) }
    {
        match registration.resolver {
            ResolverId::Builtin(_) => false,
            ResolverId::Program(id) => self.known.contains(&id),
        }
    }

    /// Follows the table once it has this registration, with the store's code. The program that the registration names is
    /// then known, unless its id can't be noted for lack of memory.
    pub fn follow_registration(&mut self, name: &Name, registration: &Registration, table: &Table)
        requires { table.now ≡ map.insert self.old.table name.now (row_for self.old.store registration.now) }
        ensures { self.new ≡ record { table = table.now; store = self.old.store } }
    {
        // For the proof: no id has two codes in the table.
        table.len();
        self.table = Snapshot::of(table);
        if let ResolverId::Program(id) = registration.resolver {
            let _ = self.known.insert(id);
        }
    }

    /// Follows the table once it lacks the name. Keeps the programs, and allocates nothing.
    pub fn follow_removal(&mut self, name: &Name, table: &Table)
        requires { table.now ≡ map.remove self.old.table name.now }
        ensures { self.new ≡ record { table = table.now; store = self.old.store } }
    {
        self.table = Snapshot::of(table);
    }
}
