//! The limit of a side, and how many events its journal holds.
ghost use Rattle.std.specs.Prelude.{◌≡◌, ◌≤◌, [], length};
ghost use Rattle.std.specs.FinMap.{len};
ghost use Rattle.exchange_core.specs.Journal.{max_events};
ghost use Rattle.exchange_core.specs.Shown.{shown, calls, limit_of, is_full};
ghost use Rattle.exchange_law.specs.Sides.{new_side};

use crate::journal::Journal;
use crate::side::Side;
use crate::state::State;
use clash_record::SideId;
use partition_table::NameLimit;
use std::alloc::Global;

/// The most events that the journal of a side holds if its owner chooses no limit.
pub const MAX_EVENTS: usize = 65_536;

// A journal holds this many events for each name of the side's limit.
const EVENTS_OF_A_NAME: usize = 16;

impl Side {
    /// Returns an idle side without names, which may have as many as `limit`. Allocates nothing.
    pub fn with_limit(alloc: Global, id: SideId, limit: NameLimit) -> Side
        ensures state { shown result ≡ new_side id }
        ensures journal { calls result ≡ [] }
        ensures limit { limit_of result ≡ limit.names }
    {
        Side {
            limit,
            state: State::new(alloc, id),
            journal: Journal::new(),
        }
    }

    /// Returns the limit: the most names that the side may have.
    pub fn limit(&self) -> NameLimit
        ensures limit { result.names ≡ limit_of self.now }
        ensures within { len (shown self.now).table ≤ limit_of self.now }
    {
        self.limit
    }

    /// Returns the most events that the journal holds: 16 for each name of the limit.
    pub fn max_events(&self) -> usize
        ensures { result ≡ max_events (limit_of self.now) }
    {
        max_events(self.limit)
    }

    // Checks whether the journal has as many events as it holds.
    pub(crate) fn is_full(&self) -> bool
        ensures { result ≡ is_full self.now }
    {
        self.events() >= self.max_events()
    }
}

// Returns the most events of the journal of a side with this limit.
pub(crate) fn max_events(limit: NameLimit) -> usize
    ensures { result ≡ max_events limit.names }
{
    EVENTS_OF_A_NAME * limit.names()
}
