//! The result of a finish.
ghost use Rattle.std.specs.Prelude.{◌≡◌, map};
ghost use Rattle.std.specs.Arc.{arc_value};
ghost use Rattle.partition_table.specs.Tables.{has_first};
ghost use Rattle.exchange_core.specs.Finished.{IsFinished, clashes_merged, finished_by};
ghost use Rattle.exchange_core.specs.Codings.{names_of};

use clash_record::{Name, SideId};
use partition_table::{Judged, Table};
use std::marker::Model;
use std::sync::Arc;

/// An exchange that a side finished: the two tables that it merged, A's and B's, with the uptimes of their halves and
/// the names that each side withdrew, the ruling of each clash, and the merged table.
///
/// Its type guarantees that the table is the merge of the two under these rulings and lists, that each word is one of its
/// clash's four, and each answer its resolver's at that word. Only a side's `finish` makes one.
#[derive(Debug, Drop)]
pub struct Finished {
    pub(crate) id: SideId,
    pub(crate) number: u64,
    pub(crate) seed: u64,
    pub(crate) own: Table,
    pub(crate) own_uptime: u64,
    pub(crate) own_gone: Vec<Name>,
    pub(crate) other: Arc<Table>,
    pub(crate) other_uptime: u64,
    pub(crate) other_gone: Arc<Vec<Name>>,
    pub(crate) first_of_a: Vec<bool>,
    pub(crate) rulings: Vec<Judged>,
    pub(crate) table: Arc<Table>,
}

impl Model for Finished {
    ghost use Rattle.exchange_core.specs.Finished.{Finished};
    ghost use Rattle.exchange_core.specs.Codings.{coded_finished};

    ghost Value = { Finished };

    ghost coded = { coded_finished };

    ghost use Rattle.exchange_core.specs.model.Marked.{IsMarked};
    ghost use Rattle.exchange_core.specs.Views.{finished_inside};

    ghost view = { finished_inside };

    ghost invariant = { IsMarked };
}

impl Finished {
    /// Returns the number of the exchange.
    pub fn number(&self) -> u64
        ensures { result ≡ self.now.number }
    {
        self.number
    }

    /// Returns the seed of the words.
    pub fn seed(&self) -> u64
        ensures { result ≡ self.now.seed }
    {
        self.seed
    }

    /// Returns the table of side A that was merged.
    pub fn a(&self) -> &Table
        ensures { result.now ≡ self.now.a }
    {
        match self.id {
            SideId::A => &self.own,
            SideId::B => &self.other,
        }
    }

    /// Returns the table of side B that was merged.
    pub fn b(&self) -> &Table
        ensures { result.now ≡ self.now.b }
    {
        match self.id {
            SideId::A => &self.other,
            SideId::B => &self.own,
        }
    }

    /// Returns the uptime of side A.
    pub fn uptime_a(&self) -> u64
        ensures { result ≡ self.now.uptime_a }
    {
        match self.id {
            SideId::A => self.own_uptime,
            SideId::B => self.other_uptime,
        }
    }

    /// Returns the uptime of side B.
    pub fn uptime_b(&self) -> u64
        ensures { result ≡ self.now.uptime_b }
    {
        match self.id {
            SideId::A => self.other_uptime,
            SideId::B => self.own_uptime,
        }
    }

    /// Returns the names that side A withdrew, the earliest first.
    pub fn gone_a(&self) -> &[Name]
        ensures { result.now ≡ self.now.gone.of_a }
    {
        match self.id {
            SideId::A => &self.own_gone,
            SideId::B => &self.other_gone,
        }
    }

    /// Returns the names that side B withdrew, the earliest first.
    pub fn gone_b(&self) -> &[Name]
        ensures { result.now ≡ self.now.gone.of_b }
    {
        match self.id {
            SideId::A => &self.other_gone,
            SideId::B => &self.own_gone,
        }
    }

    /// Returns for each clash whether side A has its first registration, in the order of clashes.
    pub fn first_of_a(&self) -> &[bool]
        ensures { result.now ≡ map (has_first self.now.a) (clashes_merged self.now) }
    {
        &self.first_of_a
    }

    /// Returns the ruling of each clash, in the order of clashes.
    pub fn rulings(&self) -> &[Judged]
        ensures rulings { result.now ≡ self.now.rulings }
        // The table is the merge under these rulings, and each is lawful.
        ensures kept { IsFinished self.now }
    {
        &self.rulings
    }

    /// Returns the merged table.
    pub fn table(&self) -> &Table
        ensures { result.now ≡ self.now.table }
    {
        &self.table
    }

    /// Returns the ruling of each clash, and whether side A has its first registration, in the order of clashes. Copies nothing.
    pub fn into_rulings(self) -> (Vec<Judged>, Vec<bool>)
        ensures rulings { result.0.items ≡ self.rulings }
        ensures first_of_a { result.1.items ≡ map (has_first self.a) (clashes_merged self) }
    {
        (self.rulings, self.first_of_a)
    }

    /// Returns the merged table with its owner, which the side may share.
    pub fn into_table(self) -> Arc<Table>
        ensures { arc_value result ≡ self.table }
    {
        self.table
    }
}
