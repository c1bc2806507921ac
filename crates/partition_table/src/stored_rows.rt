//! An iterator over rows as a table stores them.
ghost use Rattle.std.specs.Prelude.{◌≡◌, ◌<◌, ◌^◌, length, filter};
ghost use Rattle.std.specs.List.Sorted.{IsStrictlySortedBy};
ghost use Rattle.std.specs.Ordering.{is_lt};
ghost use Rattle.std.specs.Map.Iter.{TakesFirst, deref_pair};
ghost use Rattle.std.specs.Option.{option_copied};
ghost use Rattle.std.specs.Map.{keys_of, lookup};
ghost use Rattle.std.specs.BTreeMap.{is_at};
ghost use Rattle.clash_record.specs.Orders.{name_cmp};
ghost use Rattle.partition_table.specs.model.Dropping.{marks_above, undropped};

use crate::shared_registration::SharedRegistration;
use clash_record::{Name, Registration};
use std::collections::{BTreeMap, btree_map};
use std::marker::Model;
use std::ops::Bound;

// Iterates over rows as a table stores them, in the order of names. Contracts see it as the rows that are left.
#[derive(Debug, Drop)]
pub(crate) struct StoredRows<'a> {
    rows: btree_map::Range<'a, Name, SharedRegistration>,
    // Whether the table has dropped each of the first of these rows.
    marks: &'a [bool],
}

impl<'a> Model for StoredRows<'a> {
    ghost use Rattle.std.specs.Prelude.{List};
    ghost use Rattle.clash_record.specs.declared.registrations.Registration.{Registration};
    ghost use Rattle.clash_record.specs.Name.{Name};
    ghost use Rattle.partition_table.specs.model.Dropping.{undropped};

    ghost Value = { List (Name × Registration) };

    ghost view = { λ r. undropped r.marks.now r.rows };
}

impl<'a> StoredRows<'a> {
    // Iterates over those rows of a map that aren't marked.
    pub(crate) fn new(
        map: &'a BTreeMap<Name, SharedRegistration>,
        marks: &'a [bool],
    ) -> StoredRows<'a>
        ensures rest { result ≡ undropped marks.entry.now map.entry.now.entries }
        ensures ordered { IsStrictlySortedBy name_cmp (keys_of (undropped marks.entry.now map.entry.now.entries)) }
        ensures fits { length result < 2 ^ 63 }
    {
        StoredRows {
            rows: map.range(..),
            marks,
        }
    }

    // Iterates over those rows of a map after the name that aren't marked.
    pub(crate) fn after(
        map: &'a BTreeMap<Name, SharedRegistration>,
        marks: &'a [bool],
        name: &Name,
    ) -> StoredRows<'a>
        ensures rest { result ≡ filter (λ row. is_lt (name_cmp name.now row.0)) (undropped marks.entry.now map.entry.now.entries) }
        ensures ordered { IsStrictlySortedBy name_cmp (keys_of (undropped marks.entry.now map.entry.now.entries)) }
        ensures fits { length result < 2 ^ 63 }
    {
        StoredRows {
            rows: map.range((Bound::Excluded(*name), Bound::Unbounded)),
            marks: marks_after(map, marks, name),
        }
    }

    // Returns the next row, and passes over those that are marked.
    fn next_unmarked(&mut self) -> Option<(&'a Name, &'a SharedRegistration)>
        ensures { TakesFirst deref_pair self.old result self.new }
    {
        while let Some(row) = self.rows.next() {
            let Some((is_dropped, rest)) = self.marks.split_first() else {
                return Some(row);
            };
            self.marks = rest;
            if !*is_dropped {
                return Some(row);
            }
        }
        None
    }

    // Returns the registration of the name, if it comes. Looks at each row.
    pub(crate) fn find(self, name: &Name) -> Option<&'a Registration>
        ensures { option_copied result ≡ lookup (is_at (name_cmp name.now)) self.entry }
    {
        let mut rest = self;
        while let Some((ahead, registration)) = rest.next() {
            if name.cmp(ahead).is_eq() {
                return Some(registration);
            }
        }
        None
    }
}

impl<'a> Iterator for StoredRows<'a> {
    type Item = (&'a Name, &'a SharedRegistration);

    ghost use Rattle.std.specs.Prelude.{length};
    ghost use Rattle.std.specs.Iterator.{at_most};
    ghost use Rattle.std.specs.Map.Iter.{TakesFirst, deref_pair};

    ghost next_gives = { TakesFirst deref_pair };

    ghost remaining = { λ left. at_most (length left) };

    #[inline]
    fn next(&mut self) -> Option<(&'a Name, &'a SharedRegistration)> {
        if self.marks.is_empty() {
            return self.rows.next();
        }
        self.next_unmarked()
    }
}

// Returns the marks of the rows after the name. Looks at each row before it that has one.
fn marks_after<'a>(
    map: &BTreeMap<Name, SharedRegistration>,
    marks: &'a [bool],
    name: &Name,
) -> &'a [bool]
    ensures { result.now ≡ marks_above name.now marks.entry.now map.now.entries }
{
    let mut left = marks;
    if left.is_empty() {
        return left;
    }
    for (ahead, _) in map.iter() {
        if name.cmp(ahead).is_lt() {
            return left;
        }
        let Some((_, rest)) = left.split_first() else {
            return left;
        };
        left = rest;
    }
    left
}
