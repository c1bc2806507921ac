//! A half as each of its nodes holds it.
ghost use Rattle.std.specs.Prelude.{◌≡◌, ◌≤◌, ◌+◌, if◌then◌else◌, nat_le, Some, None, Err, false, IfOk, OnOk, OnErr, length};
ghost use Rattle.std.specs.Arc.{arc_value};
ghost use Rattle.std.specs.FinMap.{len};
ghost use Rattle.refusals.specs.Answers.{IsAnswered};
ghost use Rattle.exchange_law.specs.Sides.{is_above};
ghost use Rattle.exchange_core.specs.Shown.{shown, calls, limit_of};
ghost use Rattle.partition_table.specs.declared.fault.TableFault.TheVariants.{Full};
ghost use Rattle.replica.specs.declared.fault.ReplicaFault.TheVariants as of;
ghost use Rattle.replica.specs.Faults.{replica_fault_number};
ghost use Rattle.replica.specs.Halves.{edit_fault, edited, first_half};
ghost use Rattle.replica.specs.Replicas.{changed, greater};

use crate::edit::Edit;
use crate::fault::ReplicaFault;
use exchange_core::{Side, SideId};
use partition_table::{NameLimit, Table, TableFault};
use std::alloc::{AllocError, Global};
use std::marker::Model;
use std::sync::Arc;
use upload_store::UploadStore;

/// A half of a cluster: its uploaded programs, its table and the table's limit, and the greatest number of an exchange that
/// it began.
#[derive(Debug)]
pub struct Half {
    store: UploadStore,
    table: Table,
    limit: NameLimit,
    latest: Option<u64>,
}

// Written out, so that a drop is one call in the proofs of callers.
impl Drop for Half {
    fn drop(self) {
        let Half {
            store: _,
            table: _,
            limit: _,
            latest: _,
        } = self;
    }
}

impl Model for Half {
    ghost use Rattle.replica.specs.Halves.{HalfState};
    ghost use Rattle.replica.specs.Codings.{coded_half};

    ghost Value = { HalfState };

    ghost coded = { coded_half };

    ghost view = { λ h. record { store = h.store; table = h.table; limit = h.limit.names; latest = h.latest } };
}

impl Clone for Half {
    ghost is_clone = { λ half copy. copy ≡ half };

    fn clone(&self) -> Result<Half, AllocError> {
        Ok(Half {
            store: self.store.try_clone()?,
            table: self.table.try_clone()?,
            limit: self.limit,
            latest: self.latest,
        })
    }
}

impl Half {
    /// Returns a half without names and programs, before its first exchange. Allocates nothing.
    pub fn new(alloc: Global) -> Half
        ensures { result ≡ first_half }
    {
        Half {
            store: UploadStore::new(alloc),
            table: Table::new(alloc),
            limit: NameLimit::default(),
            latest: None,
        }
    }

    /// Returns the half of these parts. Allocates nothing.
    pub fn of_parts(store: UploadStore, table: Table, limit: NameLimit, latest: Option<u64>) -> Half
        ensures { result ≡ record { store = store; table = table; limit = limit.names; latest = latest } }
    {
        Half {
            store,
            table,
            limit,
            latest,
        }
    }

    /// Returns the programs that registrations may name. Allocates nothing.
    pub fn store(&self) -> &UploadStore
        ensures { result.now ≡ self.now.store }
    {
        &self.store
    }

    /// Returns the table of names. Allocates nothing.
    pub fn table(&self) -> &Table
        ensures { result.now ≡ self.now.table }
    {
        &self.table
    }

    /// Returns the most names that the table may have. Allocates nothing.
    pub fn limit(&self) -> NameLimit
        ensures { result.names ≡ self.now.limit }
    {
        self.limit
    }

    /// Returns the greatest number of an exchange that the half began, if it began one. Allocates nothing.
    pub fn latest(&self) -> Option<u64>
        ensures { result ≡ self.now.latest }
    {
        self.latest
    }

    // Returns the half after an exchange, with the greater of the two numbers. Copies the store and, unless its rows are
    // shared already, the table.
    pub(crate) fn changed(&self, table: &Table, latest: Option<u64>) -> Result<Half, AllocError>
        ensures { IfOk result (λ half. half ≡ changed self.now table.now latest) }
    {
        Ok(Half {
            store: self.store.try_clone()?,
            table: table.try_clone()?,
            limit: self.limit,
            latest: greater(self.latest, latest),
        })
    }

    // Returns an idle side with the table, its limit and the greatest number.
    pub(crate) fn side(&self, alloc: Global, id: SideId) -> Result<Side, ReplicaFault>
        ensures answer { IsAnswered replica_fault_number
            (if nat_le (len self.now.table) self.now.limit then None else Some (of.Table Full)) result }
        ensures full { nat_le (len self.now.table) self.now.limit ≡ false → result ≡ Err (of.Table Full) }
        ensures state { IfOk result (λ side. shown side ≡ record {
          id = id;
          table = self.now.table;
          exchange = None;
          latest = self.now.latest;
        }) }
        ensures limit { IfOk result (λ side. limit_of side ≡ self.now.limit) }
        ensures short { IfOk result (λ side. length (calls side) ≤ len self.now.table + 2) }
    {
        if self.table.len() > self.limit.names() {
            return Err(ReplicaFault::Table(TableFault::Full));
        }
        let table = self.table.try_clone()?;
        match Side::with_table(alloc, id, self.limit, table, self.latest) {
            Ok(side) => Ok(side),
            Err(_) => unreachable!(),
        }
    }

    // Carries the edit out.
    fn edit(&mut self, edit: &Edit) -> Result<(), ReplicaFault>
        ensures answer { IsAnswered replica_fault_number (edit_fault self.old edit.now) result }
        ensures done { OnOk result (self.new ≡ edited self.old edit.now) }
        ensures unchanged { OnErr result (self.new ≡ self.old) }
    {
        match edit {
            Edit::Register(name, registration) => {
                self.table
                    .register_within(self.limit, *name, *registration, &self.store)?;
            }
            Edit::Unregister(name) => {
                self.table.unregister(name)?;
            }
            Edit::Upload(upload) => {
                self.store.keep_upload(upload)?;
            }
            Edit::Limit(limit) => {
                if self.table.len() > limit.names() {
                    return Err(ReplicaFault::Table(TableFault::Full));
                }
                self.limit = *limit;
            }
            Edit::Begin(number) => {
                if !is_above(*number, self.latest) {
                    return Err(ReplicaFault::StaleNumber);
                }
                self.latest = Some(*number);
            }
        }
        Ok(())
    }
}

// Checks whether the number is above the latest, if there is one.
fn is_above(number: u64, latest: Option<u64>) -> bool
    ensures { result ≡ is_above number latest }
{
    match latest {
        Some(latest) => number > latest,
        None => true,
    }
}

// Returns the greater of the two, if there is one.
fn greater(number: Option<u64>, other: Option<u64>) -> Option<u64>
    ensures { result ≡ greater number other }
{
    match number {
        Some(own) if is_above(own, other) => number,
        _ => other,
    }
}

// Carries an edit out on a half that others may share: then it copies the half first.
pub(crate) fn edit_shared(half: &mut Arc<Half>, edit: &Edit) -> Result<(), ReplicaFault>
    ensures answer { IsAnswered replica_fault_number (edit_fault (arc_value half.old) edit.now) result }
    ensures done { OnOk result (arc_value half.new ≡ edited (arc_value half.old) edit.now) }
    ensures unchanged { OnErr result (arc_value half.new ≡ arc_value half.old) }
{
    let own = Arc::make_mut(half)?;
    own.edit(edit)
}
