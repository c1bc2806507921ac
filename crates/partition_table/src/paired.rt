//! The rows of a table, each with what another table has under its name.
ghost use Rattle.std.specs.Prelude.{◌≡◌, map};
ghost use Rattle.std.specs.List.{AllByRecursion};
ghost use Rattle.std.specs.FinMap.{keys};
ghost use Rattle.std.specs.Option.{option_map};
ghost use Rattle.partition_table.specs.Tables.{IsTable, rows_of};
ghost use Rattle.partition_table.specs.model.Walking.{drop_before, drop_through, first_at, rows_ahead, pairs_left, IsPaired};

use crate::shared_registration::SharedRegistration;
use crate::stored_rows::StoredRows;
use crate::table::Table;
use clash_record::Name;
use std::cmp::Ordering;

// The rows of a table from some name on.
#[derive(Drop)]
pub(crate) struct Ahead<'a> {
    next: Option<(&'a Name, &'a SharedRegistration)>,
    rest: StoredRows<'a>,
}

impl<'a> Ahead<'a> {
    pub(crate) fn new(table: &'a Table) -> Ahead<'a>
        ensures kept { IsTable table.entry.now }
        ensures rows { rows_ahead result ≡ rows_of table.entry.now }
    {
        let mut rest = table.stored_rows();
        Ahead {
            next: rest.next(),
            rest,
        }
    }

    // What the name is registered with. Leaves what is before the name, and the name itself.
    pub(crate) fn find(&mut self, name: &Name) -> Option<&'a SharedRegistration>
        ensures left { rows_ahead self.new ≡ drop_through name.now (rows_ahead self.old) }
        ensures found { option_map (λ r. r.now) result ≡ first_at name.now (drop_before name.now (rows_ahead self.old)) }
    {
        while let Some((ahead, registration)) = self.next {
            match ahead.cmp(name) {
                Ordering::Less => self.next = self.rest.next(),
                Ordering::Equal => {
                    self.next = self.rest.next();
                    return Some(registration);
                }
                Ordering::Greater => return None,
            }
        }
        None
    }
}

// Gives the rows of one table in the order of names, each with what another table has under its name.
//
// It walks both tables once.
#[derive(Drop)]
pub(crate) struct Paired<'a> {
    rows: StoredRows<'a>,
    other: Ahead<'a>,
}

impl<'a> Paired<'a> {
    // The rows of a table, each with what the other table has under its name.
    pub(crate) fn new(table: &'a Table, other: &'a Table) -> Paired<'a>
        // It gives each name of the table, in order, with what both have there.
        ensures names { map (λ item. item.0) (pairs_left result) ≡ keys table.entry.now }
        ensures tables { IsTable table.entry.now × IsTable other.entry.now }
        ensures met { AllByRecursion (IsPaired table.entry.now other.entry.now) (pairs_left result) }
    {
        Paired {
            rows: table.stored_rows(),
            other: Ahead::new(other),
        }
    }
}

impl<'a> Iterator for Paired<'a> {
    type Item = (
        &'a Name,
        &'a SharedRegistration,
        Option<&'a SharedRegistration>,
    );

    ghost use Rattle.std.specs.Iterator.{YieldsFirstBy, item_count};
    ghost use Rattle.partition_table.specs.model.Walking.{pairs_left, pair_shown};

    ghost next_gives = { YieldsFirstBy pair_shown pairs_left };

    ghost remaining = { item_count pairs_left };

    fn next(
        &mut self,
    ) -> Option<
        (
            &'a Name,
            &'a SharedRegistration,
            Option<&'a SharedRegistration>,
        ),
    > {
        let (name, registration) = self.rows.next()?;
        Some((name, registration, self.other.find(name)))
    }
}
