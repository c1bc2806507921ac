//! Lists of withdrawn names, made from any names.
ghost use Rattle.std.specs.Prelude.{◌≡◌, [], None, IfOk, IsTrue};
ghost use Rattle.refusals.specs.Answers.{ReturnsOrRunsOut};
ghost use Rattle.exchange_core.specs.Repeats.{list_fault_number, list_fault_place, first_again, names_due};
ghost use Rattle.exchange_core.specs.declared.withdrawn_names.ListFault.TheVariants.{OutOfMemory};

use crate::messages::Withdrawals;
use clash_record::{Name, SideId};
use partition_table::NameLimit;
use refusals::{Numbered, OUT_OF_MEMORY, Place, words_of};
use std::alloc::{AllocError, Global};
use std::collections::BTreeSet;
use std::sync::Arc;
use thiserror::Error;

/// The reason why names don't make a list.
#[derive(Clone, Copy, Debug, PartialEq, Eq, Error)]
pub enum ListFault {
    /// 73: more than 1,048,576 names.
    #[error("{}", words_of(self.number()))]
    TooMany,
    /// 77: an earlier name equals the name at this index, counted from 0. No name before it repeats one.
    #[error("{}: {}", Place::Item(*at), words_of(self.number()))]
    NameAgain { at: usize },
    /// 90: out of memory.
    #[error("{}", words_of(self.number()))]
    OutOfMemory,
}

impl Numbered for ListFault {
    ghost number_of = { list_fault_number };

    ghost place_of = { list_fault_place };

    fn number(&self) -> u32 {
        match self {
            ListFault::TooMany => 73,
            ListFault::NameAgain { .. } => 77,
            ListFault::OutOfMemory => OUT_OF_MEMORY,
        }
    }

    fn place(&self) -> Option<Place> {
        match *self {
            ListFault::NameAgain { at } => Some(Place::Item(at)),
            ListFault::TooMany | ListFault::OutOfMemory => None,
        }
    }
}

impl From<AllocError> for ListFault {
    ghost from_gives = { λ _ converted. converted ≡ OutOfMemory };

    fn from(_: AllocError) -> ListFault {
        ListFault::OutOfMemory
    }
}

impl Withdrawals {
    /// Returns the list of a side that withdrew these names in this exchange, the earliest first.
    ///
    /// Returns 73 for more than 1,048,576 names, and otherwise 77 for the first name that repeats an earlier one, with its index.
    /// Returns 90 when out of memory: it allocates a set of the names, unless they ascend, while it looks for repeated ones.
    pub fn of_names(
        alloc: Global,
        side: SideId,
        number: u64,
        names: Vec<Name>,
    ) -> Result<Withdrawals, ListFault>
        ensures { ReturnsOrRunsOut list_fault_number result
            (names_due record { side = side; number = number; names = names.items }) }
    {
        if names.len() > NameLimit::MAX {
            return Err(ListFault::TooMany);
        }
        if let Some(at) = first_again(alloc, &names)? {
            return Err(ListFault::NameAgain { at });
        }
        match Arc::new(alloc, names) {
            Ok(names) => Ok(Withdrawals::new(side, number, names)),
            Err(_) => Err(ListFault::OutOfMemory),
        }
    }
}

// Finds the first name that repeats an earlier one.
fn first_again(alloc: Global, names: &[Name]) -> Result<Option<usize>, AllocError>
    ensures { IfOk result (λ at. at ≡ first_again [] 0 names.now) }
{
    if ascend(names) {
        return Ok(None);
    }
    let mut before = BTreeSet::new(alloc);
    for k in 0..names.len() {
        if !before.insert(names[k])? {
            return Ok(Some(k));
        }
    }
    Ok(None)
}

// Checks whether each name is above the one before it. Then none repeats another, and no set of them is needed.
fn ascend(names: &[Name]) -> bool
    ensures { IsTrue result → first_again [] 0 names.now ≡ None }
{
    for k in 1..names.len() {
        if !names[k - 1].cmp(&names[k]).is_lt() {
            return false;
        }
    }
    true
}
