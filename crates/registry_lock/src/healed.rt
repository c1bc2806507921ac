//! The one table of two sides that met.
ghost use Rattle.std.specs.Prelude.{◌≡◌};
ghost use Rattle.std.specs.Arc.{arc_value};

use partition_table::Table;
use std::marker::Model;
use std::sync::Arc;

/// The one table of two sides that met. Contracts see it as that table. Only `meet` makes one.
#[derive(Debug, Drop)]
pub struct Healed {
    pub(crate) table: Arc<Table>,
}

impl Model for Healed {
    ghost use Rattle.partition_table.specs.Tables.{Table};
    ghost use Rattle.partition_table.specs.Views.{coded_table};
    ghost use Rattle.std.specs.Arc.{arc_value};

    ghost Value = { Table };

    ghost coded = { coded_table };

    ghost view = { λ h. arc_value h.table };
}

impl Healed {
    /// Returns the table that both sides have.
    pub fn table(&self) -> &Table
        ensures { result.now ≡ self.now }
    {
        &self.table
    }

    /// Returns the table itself, which the sides may share.
    pub fn into_table(self) -> Arc<Table>
        ensures { arc_value result ≡ self }
    {
        self.table
    }
}
