//! The open exchange of a side.
ghost use Rattle.std.specs.Prelude.{◌≡◌, ◌==◌, ◌&&◌, ◌≤◌, ◌+◌, ◌∷◌, ◌++◌, [], Some, None, IfOk, OnOk, OnErr, replicate, is_some, true, length, reverse};
ghost use Rattle.std.specs.Option.{option_map};
ghost use Rattle.std.specs.Arc.{arc_value};
ghost use Rattle.partition_table.specs.Tables.{is_in, same_table};
ghost use Rattle.exchange_law.specs.Sides.{put_ruling, new_exchange};
ghost use Rattle.exchange_core.specs.Refusals.{first_without, missing_of};
ghost use Rattle.exchange_core.specs.model.Changing.{with_ruling};
ghost use Rattle.exchange_core.specs.Settling.{filled, lacking};
ghost use Rattle.exchange_core.specs.model.Settling.{judge_by, take_calls};
ghost use Rattle.exchange_core.specs.Journal.{calls_of, most_events};
ghost use Rattle.exchange_core.specs.Codings.{names_of};

use crate::fault::MissingPart;
use crate::journal::Journal;
use crate::messages::Offer;
use crate::name_list::NameList;
use crate::settling::{Course, fill};
use clash_record::Name;
use partition_table::{ClashList, Judged, Table};
use std::alloc::{AllocError, Global};
use std::marker::Model;
use std::sync::Arc;

// The other side's offer, and a place for the ruling of each clash.
#[derive(Debug, Drop)]
pub(crate) struct Heard {
    table: Arc<Table>,
    uptime: u64,
    rulings: Vec<Option<Judged>>,
}

impl Model for Heard {
    ghost use Rattle.std.specs.Arc.{arc_value};
    ghost use Rattle.exchange_law.specs.Sides.{Heard};
    ghost use Rattle.exchange_core.specs.Codings.{coded_heard};

    ghost Value = { Heard };

    ghost coded = { coded_heard };

    ghost view = { λ h. record { table = arc_value h.table; uptime = h.uptime; rulings = h.rulings.items } };
}

impl Heard {
    // Returns a heard table and uptime, with `places` empty places.
    pub(crate) fn new(
        alloc: Global,
        table: Arc<Table>,
        uptime: u64,
        places: usize,
    ) -> Result<Heard, AllocError>
        ensures { IfOk result (λ heard. heard ≡ record {
          table = arc_value table;
          uptime = uptime;
          rulings = replicate places None;
        }) }
    {
        Ok(Heard {
            table,
            uptime,
            rulings: vec![in alloc; None; places]?,
        })
    }

    // The other side's table.
    pub(crate) fn table(&self) -> &Table
        ensures { result.now ≡ self.now.table }
    {
        &self.table
    }

    // The rulings, in the order of clashes.
    pub(crate) fn rulings(&self) -> &[Option<Judged>]
        ensures { result.now ≡ self.now.rulings }
    {
        &self.rulings
    }

    // Checks whether the offer has this uptime and table.
    pub(crate) fn is_of(&self, offer: &Offer) -> bool
        ensures { result ≡ (self.now.uptime == offer.now.uptime && same_table self.now.table offer.now.table) }
    {
        self.uptime == offer.uptime() && *self.table() == *offer.table()
    }

    // Keeps the ruling of clash `k`, unless it has one.
    pub(crate) fn put(&mut self, k: u32, judged: Judged)
        ensures { self.new ≡ record self.old { rulings = put_ruling self.old.rulings k judged } }
    {
        if let Some(None) = self.rulings.get(k as usize) {
            self.rulings[k as usize] = Some(judged);
        }
    }

    // Gives each place without a ruling that of its clash, and writes an event for each.
    pub(crate) fn fill(&mut self, course: Course, clashes: &ClashList, journal: &mut Journal)
        requires places { length self.old.rulings ≡ length clashes.now }
        requires room { length (calls_of journal.old.past.value)
            + length (lacking (judge_by course (length clashes.now)) 0 clashes.now self.old.rulings) ≤ most_events }
        ensures filled { self.new ≡ record self.old {
          rulings = filled (judge_by course (length clashes.now)) 0 clashes.now self.old.rulings;
        } }
        ensures written { calls_of journal.new.past.value
            ≡ reverse (take_calls course.number (lacking (judge_by course (length clashes.now)) 0 clashes.now self.old.rulings))
            ++ calls_of journal.old.past.value }
    {
        fill(course, clashes, &mut self.rulings, journal);
    }

    // The table with its owner, and the uptime.
    pub(crate) fn into_table(self) -> (Arc<Table>, u64)
        ensures table { arc_value result.0 ≡ self.table }
        ensures uptime { result.1 ≡ self.uptime }
    {
        (self.table, self.uptime)
    }
}

// An exchange that was begun and is neither finished nor abandoned.
#[derive(Debug, Drop)]
pub(crate) struct Exchange {
    pub(crate) number: u64,
    pub(crate) seed: u64,
    pub(crate) uptime: u64,
    pub(crate) heard: Option<Heard>,
    pub(crate) withdrawn: NameList,
    pub(crate) closed: bool,
    pub(crate) their_list: Option<Arc<Vec<Name>>>,
}

impl Model for Exchange {
    ghost use Rattle.std.specs.Option.{option_map};
    ghost use Rattle.exchange_law.specs.Sides.{Exchange};
    ghost use Rattle.exchange_core.specs.Codings.{coded_exchange, names_of};

    ghost Value = { Exchange };

    ghost coded = { coded_exchange };

    ghost view = { λ x. record {
      number = x.number;
      seed = x.seed;
      uptime = x.uptime;
      heard = x.heard;
      withdrawn = x.withdrawn;
      closed = x.closed;
      their_list = option_map names_of x.their_list;
    } };
}

impl Exchange {
    // An exchange in which nothing was heard yet. Allocates nothing.
    pub(crate) fn new(alloc: Global, number: u64, seed: u64, uptime: u64) -> Exchange
        ensures { result ≡ new_exchange number seed uptime }
    {
        Exchange {
            number,
            seed,
            uptime,
            heard: None,
            withdrawn: NameList::new(alloc),
            closed: false,
            their_list: None,
        }
    }

    // The number.
    pub(crate) fn number(&self) -> u64
        ensures { result ≡ self.now.number }
    {
        self.number
    }

    // The seed.
    pub(crate) fn seed(&self) -> u64
        ensures { result ≡ self.now.seed }
    {
        self.seed
    }

    // Checks whether the list of withdrawn names is closed.
    pub(crate) fn is_closed(&self) -> bool
        ensures { result ≡ self.now.closed }
    {
        self.closed
    }

    // Returns the uptime of this side.
    pub(crate) fn uptime(&self) -> u64
        ensures { result ≡ self.now.uptime }
    {
        self.uptime
    }

    // Checks whether the other side's offer was heard.
    pub(crate) fn has_heard(&self) -> bool
        ensures { result ≡ is_some self.now.heard }
    {
        self.heard.is_some()
    }

    // Checks whether the other side's list was heard.
    pub(crate) fn has_list(&self) -> bool
        ensures { result ≡ is_some self.now.their_list }
    {
        self.their_list.is_some()
    }

    // Keeps what was heard.
    pub(crate) fn keep_heard(&mut self, heard: Heard)
        ensures { self.new ≡ record self.old { heard = Some heard } }
    {
        self.heard = Some(heard);
    }

    // Keeps the ruling of clash `k`, unless it has one.
    pub(crate) fn put(&mut self, k: u32, judged: Judged)
        ensures { self.new ≡ with_ruling k judged self.old }
    {
        if let Some(heard) = &mut self.heard {
            heard.put(k, judged);
        }
    }

    // Checks whether the name was withdrawn.
    pub(crate) fn has_withdrawn(&self, name: &Name) -> bool
        ensures { result ≡ is_in name.now self.now.withdrawn }
    {
        self.withdrawn.contains(name)
    }

    // The names that were withdrawn.
    pub(crate) fn withdrawn(&self) -> &NameList
        ensures { result.now ≡ self.now.withdrawn }
    {
        &self.withdrawn
    }

    // Withdraws one more name.
    pub(crate) fn withdraw(&mut self, name: Name) -> Result<(), AllocError>
        ensures done { OnOk result (self.new ≡ record self.old { withdrawn = self.old.withdrawn ++ name ∷ [] }) }
        ensures unchanged { OnErr result (self.new ≡ self.old) }
    {
        self.withdrawn.push(name)
    }

    // Closes the list of withdrawn names.
    pub(crate) fn close(&mut self)
        ensures { self.new ≡ record self.old { closed = true } }
    {
        self.closed = true;
    }

    // Keeps the other side's list.
    pub(crate) fn keep_list(&mut self, names: Arc<Vec<Name>>)
        ensures { self.new ≡ record self.old { their_list = Some (names_of names) } }
    {
        self.their_list = Some(names);
    }

    // The withdrawn names again, to be sent.
    pub(crate) fn copy_names(&self, alloc: Global) -> Result<Arc<Vec<Name>>, AllocError>
        ensures { IfOk result (λ names. names_of names ≡ self.now.withdrawn) }
    {
        match Arc::new(alloc, self.withdrawn.copy()?) {
            Ok(names) => Ok(names),
            Err(_) => Err(AllocError),
        }
    }

    // The first thing that is lacking before the exchange can be finished.
    pub(crate) fn missing(&self) -> Option<MissingPart>
        ensures { result ≡ missing_of self.now }
    {
        let Some(heard) = &self.heard else {
            return Some(MissingPart::TheirOffer);
        };
        if let Some(k) = first_without(heard.rulings()) {
            return Some(MissingPart::Ruling(k));
        }
        if !self.closed {
            return Some(MissingPart::OwnList);
        }
        if self.their_list.is_none() {
            return Some(MissingPart::OtherList);
        }
        None
    }
}

// The first place without a ruling.
fn first_without(rulings: &[Option<Judged>]) -> Option<usize>
    ensures { result ≡ first_without 0 rulings.now }
{
    for k in 0..rulings.len() {
        if rulings[k].is_none() {
            return Some(k);
        }
    }
    None
}
