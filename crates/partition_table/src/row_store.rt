//! The rows that a table keeps, in a map of its own or in one that other tables read too.
ghost use Rattle.std.specs.Prelude.{◌≡◌, ◌<◌, ◌^◌, IfOk, IfNone, OnOk, OnErr, Some, None, Err, IfSome, if◌then◌else◌, is_some, length};
ghost use Rattle.std.specs.Option.{option_copied};
ghost use Rattle.std.specs.Prelude as prelude;
ghost use Rattle.std.specs.Ordering.{is_lt};
ghost use Rattle.std.specs.List.Sorted.{IsStrictlySortedBy};
ghost use Rattle.std.specs.Map.{keys_of, lookup};
ghost use Rattle.std.specs.BTreeMap.{IsFromIterResult, Updates, get, is_at};
ghost use Rattle.clash_record.specs.Orders.{name_cmp};
ghost use Rattle.clash_record.specs.Name.{Name};
ghost use Rattle.partition_table.specs.Faults.{table_fault_number};
ghost use Rattle.partition_table.specs.declared.fault.TableFault.TheVariants.{NameTaken, OutOfMemory};
ghost use Rattle.partition_table.specs.model.Dropping.{undropped};
ghost use Rattle.refusals.specs.Answers.{IsAnswered};
ghost use Rattle.upload_store.specs.laws.Mapped.{ChangesAt};

use crate::fault::TableFault;
use crate::shared_registration::{SharedRegistration, lent};
use crate::shared_rows::SharedRows;
use crate::stored_rows::StoredRows;
use clash_record::{Name, Registration};
use std::alloc::{AllocError, Global};
use std::collections::BTreeMap;
use std::marker::Model;
use std::mem;

#[derive(Debug, Drop)]
pub(crate) enum Stored {
    Own(BTreeMap<Name, SharedRegistration>),
    Shared(SharedRows),
}

// The rows of a table. Contracts see them as a list in the order of names.
//
// Tables share a map until one of them gets a row or loses one, and then that one copies the map. A loss needs no memory: without
// enough for a copy, the table marks the row.
#[derive(Drop)]
#[derive_where(Debug)]
pub(crate) struct RowStore {
    #[derive_where(skip)]
    alloc: Global,
    stored: Stored,
}

impl Model for RowStore {
    ghost use Rattle.std.specs.Prelude.{List};
    ghost use Rattle.std.specs.Coded.{coded×, coded_list};
    ghost use Rattle.clash_record.specs.declared.registrations.Registration.{Registration};
    ghost use Rattle.clash_record.specs.laws.Codings.{coded_name, coded_registration};
    ghost use Rattle.clash_record.specs.Name.{Name};
    ghost use Rattle.partition_table.specs.model.Storing.{rows_stored, IsStored};

    ghost Value = { List (Name × Registration) };

    ghost coded = { coded_list (coded× coded_name coded_registration) };

    ghost view = { λ s. rows_stored s.stored };

    ghost invariant = { λ s. IsStored s.stored };
}

impl RowStore {
    // Stores the rows of a map.
    pub(crate) fn new(alloc: Global, map: BTreeMap<Name, SharedRegistration>) -> RowStore
        ensures { result ≡ map.entries }
    {
        RowStore {
            alloc,
            stored: Stored::Own(map),
        }
    }

    // Returns the number of rows.
    pub(crate) fn len(&self) -> usize
        ensures len { result ≡ length self.now }
        ensures ordered { IsStrictlySortedBy name_cmp (keys_of self.now) }
    {
        match &self.stored {
            Stored::Own(map) => map.len(),
            Stored::Shared(shared) => shared.len(),
        }
    }

    // Returns the registration of the name, if any.
    pub(crate) fn get(&self, name: &Name) -> Option<&Registration>
        ensures value { option_copied result ≡ lookup (is_at (name_cmp name.now)) self.now }
    {
        let (map, marks) = self.parts();
        if marks.is_empty() {
            return lent(map.get(name));
        }
        StoredRows::new(map, marks).find(name)
    }

    // Returns the map with the rows, and whether this table has dropped each of the first of them.
    #[inline]
    fn parts(&self) -> (&BTreeMap<Name, SharedRegistration>, &[bool])
        ensures { undropped result.1.now result.0.now.entries ≡ self.now }
    {
        match &self.stored {
            Stored::Own(map) => (map, &[]),
            Stored::Shared(shared) => shared.parts(),
        }
    }

    // Checks whether the name has a row.
    pub(crate) fn contains_key(&self, name: &Name) -> bool
        ensures { result ≡ is_some (lookup (is_at (name_cmp name.now)) self.now) }
    {
        self.get(name).is_some()
    }

    // Iterates over the rows in the order of names.
    pub(crate) fn iter(&self) -> StoredRows<'_>
        ensures rest { result ≡ self.now }
        ensures ordered { IsStrictlySortedBy name_cmp (keys_of self.now) }
        ensures fits { length result < 2 ^ 63 }
    {
        let (map, marks) = self.parts();
        StoredRows::new(map, marks)
    }

    // Iterates over the rows whose names are above this one, in the order of names.
    pub(crate) fn after(&self, name: &Name) -> StoredRows<'_>
        ensures rest { result ≡ prelude.filter (λ row. is_lt (name_cmp name.now row.0)) self.now }
        ensures ordered { IsStrictlySortedBy name_cmp (keys_of self.now) }
        ensures fits { length result < 2 ^ 63 }
    {
        let (map, marks) = self.parts();
        StoredRows::after(map, marks, name)
    }

    // Inserts the row, or returns 30 if the name is registered. Copies the map if other tables read it and the name is new.
    pub(crate) fn insert_new(
        &mut self,
        name: Name,
        registration: Registration,
    ) -> Result<(), TableFault>
        ensures answer { IsAnswered table_fault_number
            (if is_some (lookup (is_at (name_cmp name)) self.old) then Some NameTaken else None) result }
        ensures refused { IfSome (if is_some (lookup (is_at (name_cmp name)) self.old) then Some NameTaken else None)
            (λ fault. result ≡ Err fault) }
        ensures inserted { OnOk result (ChangesAt name_cmp self.old self.new name (Some registration)) }
        ensures unchanged { OnErr result ((q : Name) → lookup (is_at (name_cmp q)) self.new ≡ lookup (is_at (name_cmp q)) self.old) }
    {
        let Ok(registration) = SharedRegistration::new(self.alloc, registration) else {
            return Err(self.refusal(&name));
        };
        if let Stored::Own(map) = &mut self.stored {
            return insert_new(map, name, registration);
        }
        if self.contains_key(&name) {
            return Err(TableFault::NameTaken);
        }
        let mut map = self.take()?;
        let result = insert_new(&mut map, name, registration);
        self.stored = Stored::Own(map);
        result
    }

    // Returns 30 if the name is registered, and otherwise that memory ran out.
    fn refusal(&self, name: &Name) -> TableFault
        ensures { result ≡ (if is_some (lookup (is_at (name_cmp name.now)) self.now) then NameTaken else OutOfMemory) }
    {
        if self.contains_key(name) {
            TableFault::NameTaken
        } else {
            TableFault::OutOfMemory
        }
    }

    // Removes the row of the name, and returns its registration. Copies the map if other tables read it and there is memory for a copy.
    pub(crate) fn remove(&mut self, name: &Name) -> Option<Registration>
        ensures value { result ≡ lookup (is_at (name_cmp name.now)) self.old }
        ensures changes { ChangesAt name_cmp self.old self.new name.now None }
        ensures unchanged { IfNone result (self.new ≡ self.old) }
    {
        if matches!(self.stored, Stored::Shared(_)) && self.contains_key(name) {
            self.unshare();
        }
        match &mut self.stored {
            Stored::Own(map) => remove_row(map, name),
            Stored::Shared(shared) => shared.remove(name),
        }
    }

    // Moves the rows into a map that no other table reads, if there is memory for it.
    fn unshare(&mut self)
        ensures { self.new ≡ self.old }
    {
        if let Ok(map) = self.take() {
            self.stored = Stored::Own(map);
        }
    }

    // Shares the map with one more table. Copies the rows if some are marked.
    pub(crate) fn share(&mut self) -> Result<RowStore, AllocError>
        ensures shared { IfOk result (λ rows. rows ≡ self.old) }
        ensures same { self.new ≡ self.old }
    {
        let is_shared = matches!(self.stored, Stored::Shared(_));
        if !is_shared || !self.parts().1.is_empty() {
            self.make_shared()?;
        }
        self.try_clone()
    }

    // Moves the rows into a map that several tables can read.
    fn make_shared(&mut self) -> Result<(), AllocError>
        ensures { self.new ≡ self.old }
    {
        let map = self.take()?;
        match SharedRows::of_map(self.alloc, map) {
            Ok(shared) => {
                self.stored = Stored::Shared(shared);
                Ok(())
            }
            Err(map) => {
                self.stored = Stored::Own(map);
                Err(AllocError)
            }
        }
    }

    // Copies the rows, or shares the map if it is shared already.
    pub(crate) fn try_clone(&self) -> Result<RowStore, AllocError>
        ensures { IfOk result (λ rows. rows ≡ self.now) }
    {
        let stored = match &self.stored {
            Stored::Own(map) => Stored::Own(map.clone()?),
            Stored::Shared(shared) => shared.try_clone(self.alloc)?,
        };
        Ok(RowStore {
            alloc: self.alloc,
            stored,
        })
    }

    // Takes the rows out, in a map that no other table reads. Copies them if other tables read them.
    fn take(&mut self) -> Result<BTreeMap<Name, SharedRegistration>, AllocError>
        ensures taken { IfOk result (λ map. map.entries ≡ self.old) }
        ensures unchanged { OnErr result (self.new ≡ self.old) }
    {
        match mem::replace(&mut self.stored, Stored::Own(BTreeMap::new(self.alloc))) {
            Stored::Own(map) => Ok(map),
            Stored::Shared(shared) => match shared.into_map(self.alloc) {
                Ok(map) => Ok(map),
                Err(shared) => {
                    self.stored = Stored::Shared(shared);
                    Err(AllocError)
                }
            },
        }
    }
}

// Removes the row of the name, and returns its registration.
fn remove_row(rows: &mut BTreeMap<Name, SharedRegistration>, name: &Name) -> Option<Registration>
    ensures value { result ≡ get name_cmp rows.old name.now }
    ensures removed { Updates name_cmp rows.old rows.new name.now None }
    ensures unchanged { IfNone result (rows.new.entries ≡ rows.old.entries) }
{
    let registration = rows.remove(name)?;
    Some(*registration)
}

// Inserts the row, or returns 30 if the name is registered. Walks the tree once for a new name.
fn insert_new(
    rows: &mut BTreeMap<Name, SharedRegistration>,
    name: Name,
    registration: SharedRegistration,
) -> Result<(), TableFault>
    ensures answer { IsAnswered table_fault_number
        (if is_some (get name_cmp rows.old name) then Some NameTaken else None) result }
    ensures refused { IfSome (if is_some (get name_cmp rows.old name) then Some NameTaken else None)
        (λ fault. result ≡ Err fault) }
    ensures inserted { OnOk result (Updates name_cmp rows.old rows.new name (Some registration)) }
    ensures unchanged { OnErr result ((q : Name) → get name_cmp rows.new q ≡ get name_cmp rows.old q) }
{
    match rows.insert(name, registration) {
        Ok(None) => Ok(()),
        Ok(Some(before)) => {
            // Restores the old row. Needs no memory: the name is in the tree.
            let _ = rows.insert(name, before);
            Err(TableFault::NameTaken)
        }
        Err(_) => Err(TableFault::OutOfMemory),
    }
}

// Collects the rows into a map. The last row of a name counts.
pub(crate) fn map_of(
    alloc: Global,
    rows: Vec<(Name, SharedRegistration)>,
) -> Result<BTreeMap<Name, SharedRegistration>, AllocError>
    ensures { IfOk result (IsFromIterResult name_cmp rows.items) }
{
    rows.into_iter().collect(alloc)
}
