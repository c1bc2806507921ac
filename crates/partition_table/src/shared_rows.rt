//! Rows that several tables read, of which each may drop some.
ghost use Rattle.std.specs.Prelude.{◌≡◌, ◌<◌, ◌≤◌, ◌+◌, [], None, IfOk, IfErr, IfNone, length, vec_len, vec_capacity};
ghost use Rattle.std.specs.List.Sorted.{IsStrictlySortedBy};
ghost use Rattle.std.specs.Arc.{arc_value};
ghost use Rattle.std.specs.Map.{keys_of, lookup};
ghost use Rattle.std.specs.BTreeMap.{is_at};
ghost use Rattle.clash_record.specs.Orders.{name_cmp};
ghost use Rattle.upload_store.specs.laws.Mapped.{ChangesAt};
ghost use Rattle.partition_table.specs.model.Dropping.{undropped};
ghost use Rattle.partition_table.specs.model.Storing.{IsShared, IsStored, rows_shared, rows_stored, place_from, marked};

use crate::row_store::{Stored, map_of};
use crate::shared_registration::SharedRegistration;
use crate::stored_rows::StoredRows;
use clash_record::{Name, Registration};
use std::alloc::{AllocError, Global};
use std::collections::BTreeMap;
use std::sync::Arc;

// A map that several tables read, without the rows that this table has dropped.
#[derive(Debug, Drop)]
pub(crate) struct SharedRows {
    map: Arc<BTreeMap<Name, SharedRegistration>>,
    // Whether this table has dropped each of the first rows of the map. Has room for all, so that dropping one needs no memory.
    marks: Vec<bool>,
    // How many it has dropped.
    dropped: usize,
}

impl SharedRows {
    // Lets several tables read the map. Returns it when out of memory.
    pub(crate) fn of_map(
        alloc: Global,
        map: BTreeMap<Name, SharedRegistration>,
    ) -> Result<SharedRows, BTreeMap<Name, SharedRegistration>>
        ensures rows { IfOk result (λ shared. rows_shared shared ≡ map.entries) }
        ensures valid { IfOk result IsShared }
        ensures back { IfErr result (λ back. back ≡ map) }
    {
        let Ok(marks) = Vec::with_capacity(alloc, map.len()) else {
            return Err(map);
        };
        match Arc::new(alloc, map) {
            Ok(map) => Ok(SharedRows {
                map,
                marks,
                dropped: 0,
            }),
            Err(failed) => Err(failed.value),
        }
    }

    // Lets one more table read the map. Requires that no row is marked.
    fn another(&self, alloc: Global) -> Result<SharedRows, AllocError>
        requires { self.now.marks.items ≡ [] }
        ensures rows { IfOk result (λ shared. rows_shared shared ≡ rows_shared self.now) }
        ensures valid { IfOk result IsShared }
    {
        let marks = Vec::with_capacity(alloc, self.map.len())?;
        Ok(SharedRows {
            map: self.map.clone()?,
            marks,
            dropped: 0,
        })
    }

    // Returns the map with the rows, and whether this table has dropped each of the first of them.
    #[inline]
    pub(crate) fn parts(&self) -> (&BTreeMap<Name, SharedRegistration>, &[bool])
        ensures { undropped result.1.now result.0.now.entries ≡ rows_shared self.now }
    {
        (&self.map, &self.marks)
    }

    // Returns the number of rows that are left.
    pub(crate) fn len(&self) -> usize
        requires { IsShared self.now }
        ensures len { result ≡ length (rows_shared self.now) }
        ensures ordered { IsStrictlySortedBy name_cmp (keys_of (rows_shared self.now)) }
    {
        self.map.len() - self.dropped
    }

    // Iterates over the rows that are left.
    pub(crate) fn iter(&self) -> StoredRows<'_>
        ensures rest { result ≡ rows_shared self.now }
        ensures ordered { IsStrictlySortedBy name_cmp (keys_of (rows_shared self.now)) }
    {
        StoredRows::new(&self.map, &self.marks)
    }

    // Shares the map once more, or copies the rows that are left.
    pub(crate) fn try_clone(&self, alloc: Global) -> Result<Stored, AllocError>
        requires { IsShared self.now }
        ensures rows { IfOk result (λ stored. rows_stored stored ≡ rows_shared self.now) }
        ensures valid { IfOk result IsStored }
    {
        if self.marks.is_empty() {
            return Ok(Stored::Shared(self.another(alloc)?));
        }
        Ok(Stored::Own(copied_in_order(alloc, self.iter(), self.len())?))
    }

    // Makes a map of the rows that are left: the map itself if no other table reads it.
    pub(crate) fn into_map(
        self,
        alloc: Global,
    ) -> Result<BTreeMap<Name, SharedRegistration>, SharedRows>
        requires { IsShared self }
        ensures map { IfOk result (λ map. map.entries ≡ rows_shared self) }
        ensures back { IfErr result (λ shared. shared ≡ self) }
    {
        if self.marks.is_empty() {
            return self.into_whole_map(alloc);
        }
        match copied_in_order(alloc, self.iter(), self.len()) {
            Ok(map) => Ok(map),
            Err(_) => Err(self),
        }
    }

    // Makes a map of the rows, of which none is marked.
    fn into_whole_map(self, alloc: Global) -> Result<BTreeMap<Name, SharedRegistration>, SharedRows>
        requires { self.marks.items ≡ [] }
        ensures map { IfOk result (λ map. map.entries ≡ rows_shared self) }
        ensures back { IfErr result (λ shared. shared ≡ self) }
    {
        let SharedRows {
            map,
            marks,
            dropped,
        } = self;
        match Arc::try_unwrap(map) {
            Ok(map) => Ok(map),
            Err(map) => match copied_in_order(alloc, StoredRows::new(&map, &[]), map.len()) {
                Ok(copy) => Ok(copy),
                Err(_) => Err(SharedRows {
                    map,
                    marks,
                    dropped,
                }),
            },
        }
    }

    // Drops the row of the name, and returns its registration. Allocates nothing. Looks at each row before it.
    pub(crate) fn remove(&mut self, name: &Name) -> Option<Registration>
        requires { IsShared self.old }
        ensures value { result ≡ lookup (is_at (name_cmp name.now)) (rows_shared self.old) }
        ensures changes { ChangesAt name_cmp (rows_shared self.old) (rows_shared self.new) name.now None }
        ensures unchanged { IfNone result (rows_shared self.new ≡ rows_shared self.old) }
        ensures valid { IsShared self.new }
    {
        let Some((place, registration)) = self.find(name) else {
            return None;
        };
        self.mark(place);
        Some(registration)
    }

    // Returns where the row of the name lies in the map, and its registration, unless it is dropped.
    fn find(&self, name: &Name) -> Option<(usize, Registration)>
        ensures found { result
            ≡ place_from 0 (is_at (name_cmp name.now)) self.now.marks.items (arc_value self.now.map).entries }
        ensures ordered { IsStrictlySortedBy name_cmp (keys_of (rows_shared self.now)) }
    {
        let mut place = 0;
        let mut marks = self.marks.iter();
        for (ahead, registration) in self.map.iter() {
            let is_dropped = matches!(marks.next(), Some(true));
            if !is_dropped && name.cmp(ahead).is_eq() {
                return Some((place, **registration));
            }
            place += 1;
        }
        None
    }

    // Marks the row at this place as dropped.
    fn mark(&mut self, place: usize)
        requires valid { IsShared self.old }
        requires there { place < length (arc_value self.old.map).entries }
        ensures marks { self.new.marks.items ≡ marked place self.old.marks.items }
        ensures map { self.new.map ≡ self.old.map }
        ensures dropped { self.new.dropped ≡ self.old.dropped + 1 }
        ensures few { vec_len self.new.marks ≤ length (arc_value self.old.map).entries }
        ensures room { vec_capacity self.new.marks ≡ vec_capacity self.old.marks }
    {
        while self.marks.len() <= place {
            self.marks.push_reserved(false);
        }
        self.marks[place] = true;
        self.dropped += 1;
    }
}

// Copies rows in the order of names, about as many as this, into a map.
fn copied_in_order(
    alloc: Global,
    rows: StoredRows<'_>,
    count: usize,
) -> Result<BTreeMap<Name, SharedRegistration>, AllocError>
    requires { IsStrictlySortedBy name_cmp (keys_of rows) }
    ensures { IfOk result (λ map. map.entries ≡ rows.entry) }
{
    let mut list = Vec::with_capacity(alloc, count)?;
    for (name, registration) in rows {
        list.push((*name, registration.clone()?))?;
    }
    map_of(alloc, list)
}
