//! The rows that a side shows.
ghost use Rattle.std.specs.Prelude.{◌≡◌};
ghost use Rattle.partition_table.specs.Tables.{is_in};
ghost use Rattle.exchange_core.specs.Rows.{hidden_names};

use crate::name_list::NameList;
use clash_record::{Name, Registration};
use partition_table::Rows;

/// Gives the rows of a side's table in the order of names, without the names that the side withdrew in the open
/// exchange.
#[derive(Debug, Drop)]
pub struct ShownRows<'a> {
    pub(crate) rows: Rows<'a>,
    pub(crate) withdrawn: Option<&'a NameList>,
}

impl<'a> Iterator for ShownRows<'a> {
    type Item = (&'a Name, &'a Registration);

    ghost use Rattle.std.specs.Iterator.{YieldsFirstBy, item_count};
    ghost use Rattle.std.specs.Map.Iter.{deref_pair};
    ghost use Rattle.exchange_core.specs.Rows.{rows_left};

    ghost next_gives = { YieldsFirstBy deref_pair rows_left };

    ghost remaining = { item_count rows_left };

    fn next(&mut self) -> Option<(&'a Name, &'a Registration)> {
        while let Some((name, registration)) = self.rows.next() {
            if !is_hidden(self.withdrawn, name) {
                return Some((name, registration));
            }
        }
        None
    }
}

// Checks whether the name is withdrawn.
fn is_hidden(withdrawn: Option<&NameList>, name: &Name) -> bool
    ensures { result ≡ is_in name.now (hidden_names withdrawn.entry) }
{
    match withdrawn {
        Some(names) => names.contains(name),
        None => false,
    }
}
