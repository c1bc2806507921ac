//! The shortest journal that leads to an idle side.
ghost use Rattle.std.specs.Prelude.{◌≡◌, ◌≤◌, ◌+◌, None, length};
ghost use Rattle.std.specs.FinMap.{len};
ghost use Rattle.exchange_core.specs.Journal.{calls_of};
ghost use Rattle.exchange_law.specs.Calls.{IsJournal};
ghost use Rattle.exchange_core.specs.model.Renewing.{number_calls};

use crate::journal::{Event, Journal};
use crate::state::State;
use std::snapshot::Snapshot;

impl State {
    // Returns a journal that leads to this idle state: its latest number, and a registration for each row.
    pub(crate) fn fresh_journal(&self) -> Journal
        requires { self.now.exchange ≡ None }
        ensures leads { IsJournal (calls_of result.past.value) self.now }
        ensures short { length (calls_of result.past.value) ≤ len self.now.table + 2 }
    {
        let mut journal = number_journal(self.latest);
        let mut rows = self.table.rows();
        while let Some((name, registration)) = rows.next() {
            let table = Snapshot::of(&self.table);
            journal.push(Event::Register(*name, *registration, table));
        }
        journal
    }
}

// Returns a journal that leaves this number as the latest.
fn number_journal(latest: Option<u64>) -> Journal
    ensures { calls_of result.past.value ≡ number_calls latest }
{
    let mut journal = Journal::new();
    if let Some(number) = latest {
        journal.push(Event::Begin(number, 0, 0));
        journal.push(Event::Abandon);
    }
    journal
}
