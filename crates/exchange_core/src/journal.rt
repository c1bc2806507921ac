//! The events of a side. At run time they are a count; what they were given is known to proofs alone.
ghost use Rattle.std.specs.Prelude.{◌≡◌, ◌≤◌, ◌<◌, [], ◌∷◌, length};
ghost use Rattle.exchange_core.specs.Journal.{call_of, calls_of, most_events};

use crate::messages::{Offer, Withdrawals};
use clash_record::{Name, Registration};
use partition_table::{Judged, Table};
use std::mem;
use std::snapshot::Snapshot;

// An event: a call that was carried out, with what it was given.
#[derive(Drop)]
pub(crate) enum Event {
    /// With a table that has the row.
    Register(Name, Registration, Snapshot<Table>),
    Unregister(Name),
    /// With the number, the seed and the uptime.
    Begin(u64, u64, u64),
    Hear(Snapshot<Offer>),
    /// With the number of the exchange and of the clash.
    Take(u64, u32, Judged),
    Withdraw(Name),
    CloseList,
    HearList(Snapshot<Withdrawals>),
    Finish,
    Abandon,
}

// The events so far, the latest first.
#[derive(Drop)]
pub(crate) enum Past {
    Empty,
    Then(Event, Snapshot<Past>),
}

// The events of a side: their count, and for proofs the events themselves.
#[derive(Drop)]
#[derive_where(Debug)]
pub(crate) struct Journal {
    count: usize,
    #[derive_where(skip)]
    pub(crate) past: Snapshot<Past>,
    pub ghost counted: { count ≡ length (calls_of past.value) },
    pub ghost few: { length (calls_of past.value) ≤ most_events },
}

impl Journal {
    // A journal without events.
    pub(crate) fn new() -> Journal
        ensures { calls_of result.past.value ≡ [] }
    {
        Journal {
            count: 0,
            past: Snapshot::of(&Past::Empty),
        }
    }

    // Returns the number of events.
    pub(crate) fn len(&self) -> usize
        ensures count { result ≡ length (calls_of self.now.past.value) }
        ensures few { result ≤ most_events }
    {
        self.count
    }

    // Adds an event.
    pub(crate) fn push(&mut self, event: Event)
        requires { length (calls_of self.old.past.value) < most_events }
        ensures { calls_of self.new.past.value ≡ call_of event ∷ calls_of self.old.past.value }
    {
        let earlier = mem::replace(&mut self.past, Snapshot::of(&Past::Empty));
        self.past = Snapshot::of(&Past::Then(event, earlier));
        self.count += 1;
    }
}
