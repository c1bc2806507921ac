//! The messages that the two sides of an exchange send each other.
ghost use Rattle.std.specs.Prelude.{◌≡◌, IfOk};
ghost use Rattle.std.specs.Arc.{arc_value};
ghost use Rattle.exchange_law.specs.Lists.{IsNameList};
ghost use Rattle.exchange_core.specs.Codings.{names_of};

use clash_record::{Name, SideId};
use partition_table::Table;
use std::alloc::AllocError;
use std::marker::Model;
use std::sync::Arc;

/// The message that opens an exchange: the side's table as `begin` found it. Only `Side::begin` makes one.
#[derive(Debug)]
pub struct Offer {
    side: SideId,
    number: u64,
    seed: u64,
    uptime: u64,
    table: Arc<Table>,
}

// Written out, so that a drop is one call in the proofs of callers.
impl Drop for Offer {
    fn drop(self) {
        let Offer {
            side: _,
            number: _,
            seed: _,
            uptime: _,
            table: _,
        } = self;
    }
}

impl Model for Offer {
    ghost use Rattle.std.specs.Arc.{arc_value};
    ghost use Rattle.exchange_law.specs.Sides.{Offer};
    ghost use Rattle.exchange_core.specs.Codings.{coded_offer};

    ghost Value = { Offer };

    ghost coded = { coded_offer };

    ghost view = { λ o. record {
      side = o.side;
      number = o.number;
      seed = o.seed;
      uptime = o.uptime;
      table = arc_value o.table;
    } };
}

impl Offer {
    // Returns the offer of a side with this table.
    pub(crate) fn new(side: SideId, number: u64, seed: u64, uptime: u64, table: Arc<Table>) -> Offer
        ensures { result ≡ record {
          side = side;
          number = number;
          seed = seed;
          uptime = uptime;
          table =
              arc_value table;
        } }
    {
        Offer {
            side,
            number,
            seed,
            uptime,
            table,
        }
    }

    /// Returns the side that began the exchange.
    pub fn side(&self) -> SideId
        ensures { result ≡ self.now.side }
    {
        self.side
    }

    /// Returns the number that the side began.
    pub fn number(&self) -> u64
        ensures { result ≡ self.now.number }
    {
        self.number
    }

    /// Returns the seed of the words at which clashes are judged.
    pub fn seed(&self) -> u64
        ensures { result ≡ self.now.seed }
    {
        self.seed
    }

    /// Returns the uptime of the side.
    pub fn uptime(&self) -> u64
        ensures { result ≡ self.now.uptime }
    {
        self.uptime
    }

    /// Returns the side's table at `begin`.
    pub fn table(&self) -> &Table
        ensures { result.now ≡ self.now.table }
    {
        &self.table
    }

    // Adds an owner of the table.
    pub(crate) fn share_table(&self) -> Result<Arc<Table>, AllocError>
        ensures { IfOk result (λ table. arc_value table ≡ self.now.table) }
    {
        self.table.clone()
    }
}

/// The distinct names that a side withdrew in an exchange, the earliest first; at most 1,048,576. `Side::close_list` makes the
/// list of a side, `of_names` that of names that came as bytes.
#[derive(Debug)]
pub struct Withdrawals {
    side: SideId,
    number: u64,
    names: Arc<Vec<Name>>,
}

// Written out, so that a drop is one call in the proofs of callers.
impl Drop for Withdrawals {
    fn drop(self) {
        let Withdrawals {
            side: _,
            number: _,
            names: _,
        } = self;
    }
}

impl Model for Withdrawals {
    ghost use Rattle.exchange_law.specs.Sides.{Withdrawals};
    ghost use Rattle.exchange_core.specs.Codings.{coded_withdrawals, names_of};

    ghost Value = { Withdrawals };

    ghost coded = { coded_withdrawals };

    ghost view = { λ l. record { side = l.side; number = l.number; names = names_of l.names } };

    ghost use Rattle.exchange_law.specs.Lists.{IsNameList};

    ghost invariant = { λ l. IsNameList (names_of l.names) };
}

impl Withdrawals {
    // Returns the list of a side with these names.
    pub(crate) fn new(side: SideId, number: u64, names: Arc<Vec<Name>>) -> Withdrawals
        requires { IsNameList (names_of names) }
        ensures { result ≡ record { side = side; number = number; names = names_of names } }
    {
        Withdrawals {
            side,
            number,
            names,
        }
    }

    /// Returns the side that withdrew the names.
    pub fn side(&self) -> SideId
        ensures { result ≡ self.now.side }
    {
        self.side
    }

    /// Returns the number of the exchange in which it closed the list.
    pub fn number(&self) -> u64
        ensures { result ≡ self.now.number }
    {
        self.number
    }

    /// Returns the names in the order of their withdrawal.
    pub fn names(&self) -> &[Name]
        ensures names { result.now ≡ self.now.names }
        ensures listed { IsNameList self.now.names }
    {
        &self.names
    }

    // Adds an owner of the names.
    pub(crate) fn share_names(&self) -> Result<Arc<Vec<Name>>, AllocError>
        ensures { IfOk result (λ names. names_of names ≡ self.now.names) }
    {
        self.names.clone()
    }
}
