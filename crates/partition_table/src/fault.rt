//! The refusals of tables.
ghost use Rattle.std.specs.Prelude.{◌≡◌, None};
ghost use Rattle.partition_table.specs.declared.fault.TableFault.TheVariants.{OutOfMemory};
ghost use Rattle.partition_table.specs.Faults.{table_fault_number};

use refusals::{Numbered, Place, words_of};
use std::alloc::AllocError;
use thiserror::Error;

/// Why a table, or a pair of tables, refuses a call.
#[derive(Clone, Copy, Debug, PartialEq, Eq, Error)]
#[error("{}", words_of(self.number()))]
pub enum TableFault {
    /// 30: the name is already registered.
    NameTaken,
    /// 31: the name isn't registered.
    NoSuchName,
    /// 32: the table has as many names as it may have: 4,096, or the limit that its owner chose.
    Full,
    /// 37: two tables have more names together than one may have.
    TooManyNames,
    /// 41: the store has no program with this id.
    UnknownProgram,
    /// 42: other code has the same id.
    OtherCode,
    /// 90: out of memory.
    OutOfMemory,
}

impl Numbered for TableFault {
    ghost number_of = { table_fault_number };

    ghost place_of = { λ _. None };

    fn number(&self) -> u32 {
        match self {
            TableFault::NameTaken => 30,
            TableFault::NoSuchName => 31,
            TableFault::Full => 32,
            TableFault::TooManyNames => 37,
            TableFault::UnknownProgram => 41,
            TableFault::OtherCode => 42,
            TableFault::OutOfMemory => 90,
        }
    }

    fn place(&self) -> Option<Place> {
        None
    }
}

impl From<AllocError> for TableFault {
    ghost from_gives = { λ _ converted. converted ≡ OutOfMemory };

    fn from(_: AllocError) -> TableFault {
        TableFault::OutOfMemory
    }
}
