//! Finds names in a table one after another.
ghost use Rattle.std.specs.Prelude.{◌≡◌, ◌↔◌, IsTrue};
ghost use Rattle.std.specs.Option.{option_map};
ghost use Rattle.std.specs.FinMap as map;
ghost use Rattle.partition_table.specs.model.Walking.{IsPast};

use crate::paired::Ahead;
use crate::shared_registration::lent;
use crate::table::Table;
use clash_record::{Name, Registration};
use std::marker::Model;

/// Finds names in a table one after another. Contracts see it as the table.
///
/// Names that come in ascending order are found by one walk over the table, without a search.
#[derive(Drop)]
pub struct Finder<'a> {
    table: &'a Table,
    // The rows that the walk hasn't passed, and the last name for which it searched.
    ahead: Ahead<'a>,
    last: Option<Name>,
}

impl<'a> Model for Finder<'a> {
    ghost use Rattle.partition_table.specs.Tables.{Table};
    ghost use Rattle.partition_table.specs.Views.{coded_table};
    ghost use Rattle.partition_table.specs.model.Walking.{IsAhead, rows_ahead};

    ghost Value = { Table };

    ghost coded = { coded_table };

    ghost view = { λ f. f.table.now };

    ghost invariant = { λ f. IsAhead f.table.now f.last (rows_ahead f.ahead) };
}

impl<'a> Finder<'a> {
    /// Returns a finder of the table's names. Allocates nothing.
    pub fn new(table: &'a Table) -> Finder<'a>
        ensures { result ≡ table.entry.now }
    {
        Finder {
            table,
            ahead: Ahead::new(table),
            last: None,
        }
    }

    /// Returns the registration of the name, if any. Allocates nothing.
    ///
    /// Goes on from the last name if this one is above it, and otherwise searches.
    pub fn find(&mut self, name: &Name) -> Option<&'a Registration>
        ensures found { option_map (λ r. r.now) result ≡ option_map (λ row. row.registration) (map.get self.old name.now) }
        ensures same { self.new ≡ self.old }
    {
        if !is_past(&self.last, name) {
            return self.table.whereis(name);
        }
        let found = self.ahead.find(name);
        self.last = Some(*name);
        lent(found)
    }
}

// Checks whether the name is above the last one, if there is one.
fn is_past(last: &Option<Name>, name: &Name) -> bool
    ensures { IsTrue result ↔ IsPast last.now name.now }
{
    match last {
        Some(last) => last.cmp(name).is_lt(),
        None => true,
    }
}
