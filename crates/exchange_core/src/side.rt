//! One side of an exchange.
ghost use Rattle.std.specs.Prelude.{◌≤◌, length};
ghost use Rattle.exchange_core.specs.Journal.{calls_of, max_events};
ghost use Rattle.exchange_law.specs.Calls.{IsJournal};
ghost use Rattle.exchange_core.specs.Limits.{IsWithin};

use crate::journal::Journal;
use crate::state::State;
use partition_table::NameLimit;

/// One side of an exchange: its table, the open exchange if any, and a journal.
///
/// Its limit is the most names that it may have: 4,096 unless its owner chooses another. Its journal has at most 16 events for
/// each name of the limit. Its type guarantees both, and that it is where its journal leads.
#[derive(Debug)]
pub struct Side {
    pub(crate) limit: NameLimit,
    pub(crate) state: State,
    pub(crate) journal: Journal,
    pub ghost replayed: { IsJournal (calls_of journal.past.value) state },
    pub ghost within: { IsWithin limit.names state },
    pub ghost few: { length (calls_of journal.past.value) ≤ max_events limit.names },
}

// Written out, so that a drop is one call in the proofs of callers.
impl Drop for Side {
    fn drop(self) {
        let Side {
            limit: _,
            state: _,
            journal: _,
        } = self;
    }
}
