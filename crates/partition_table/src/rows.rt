//! An iterator over rows of a table.
ghost use Rattle.std.specs.Prelude.{◌≡◌};

use crate::stored_rows::StoredRows;
use clash_record::{Name, Registration};
use std::marker::Model;

/// Iterates over rows of a table in the order of names. Contracts see it as the rows that are left.
#[derive(Debug, Drop)]
pub struct Rows<'a> {
    stored: StoredRows<'a>,
}

impl<'a> Model for Rows<'a> {
    ghost use Rattle.std.specs.Prelude.{List};
    ghost use Rattle.clash_record.specs.declared.registrations.Registration.{Registration};
    ghost use Rattle.clash_record.specs.Name.{Name};

    ghost Value = { List (Name × Registration) };

    ghost view = { λ r. r.stored };
}

impl<'a> Rows<'a> {
    // Iterates over these rows.
    pub(crate) fn new(stored: StoredRows<'a>) -> Rows<'a>
        ensures { result ≡ stored.entry }
    {
        Rows { stored }
    }
}

impl<'a> Iterator for Rows<'a> {
    type Item = (&'a Name, &'a Registration);

    ghost use Rattle.std.specs.Prelude.{length};
    ghost use Rattle.std.specs.Iterator.{at_most};
    ghost use Rattle.std.specs.Map.Iter.{TakesFirst, deref_pair};

    ghost next_gives = { TakesFirst deref_pair };

    ghost remaining = { λ left. at_most (length left) };

    #[inline]
    fn next(&mut self) -> Option<(&'a Name, &'a Registration)> {
        let (name, registration) = self.stored.next()?;
        Some((name, registration))
    }
}
