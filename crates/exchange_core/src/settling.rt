//! Settles an exchange: judges each clash without a ruling, all at the words of one round.
ghost use Rattle.std.specs.Prelude.{◌≡◌, ◌≤◌, ◌<◌, ◌+◌, ◌++◌, length, reverse, Some, IfSome, slice_get};
ghost use Rattle.exchange_law.specs.Sides as sides;
ghost use Rattle.exchange_core.specs.Refusals as due;
ghost use Rattle.exchange_core.specs.Settling.{filled, lacking, lacking_in, lacking_of, settle_calls, settled, settled_exchange};
ghost use Rattle.exchange_core.specs.model.Settling.{HasPlaces, SideHasPlaces, judge_by, take_calls};
ghost use Rattle.exchange_core.specs.Journal.{calls_of, most_events};

use crate::exchange::Exchange;
use crate::fault::{MissingPart, SideFault};
use crate::journal::{Event, Journal};
use crate::limits::max_events;
use crate::state::State;
use interpreter::Scratch;
use partition_table::{Clash, ClashList, Judged, NameLimit, Verdict, word};

// The numbers of an exchange that rulings are made of.
#[derive(Clone, Copy)]
pub(crate) struct Course {
    number: u64,
    seed: u64,
    round: u32,
}

impl State {
    // Returns the refusal to settle on a side of this limit whose journal has this many events.
    pub(crate) fn settle_fault(&self, limit: NameLimit, events: usize) -> Option<SideFault>
        ensures { result ≡ due.settle_fault limit.names events self.now }
    {
        let Some(exchange) = &self.exchange else {
            return Some(SideFault::NotHealing);
        };
        let Some(heard) = &exchange.heard else {
            return Some(SideFault::Missing(MissingPart::TheirOffer));
        };
        if max_events(limit).saturating_sub(events) < count_lacking(heard.rulings()) {
            return Some(SideFault::JournalFull);
        }
        None
    }

    // Gives each clash without a ruling that of the round, and writes an event for each.
    pub(crate) fn settle(&mut self, round: u32, journal: &mut Journal)
        requires places { SideHasPlaces self.old }
        requires room { length (calls_of journal.old.past.value) + length (lacking_of round self.old) ≤ most_events }
        ensures state { self.new ≡ settled round self.old }
        ensures written { calls_of journal.new.past.value
            ≡ reverse (settle_calls round self.old) ++ calls_of journal.old.past.value }
    {
        let Some(compared) = &self.compared else {
            return;
        };
        let Some(exchange) = &mut self.exchange else {
            return;
        };
        exchange.settle(round, &compared.clashes, journal);
    }
}

impl Exchange {
    // Gives each of these clashes without a ruling that of the round, and writes an event for each.
    fn settle(&mut self, round: u32, clashes: &ClashList, journal: &mut Journal)
        requires places { HasPlaces clashes.now self.old }
        requires room { length (calls_of journal.old.past.value) + length (lacking_in round clashes.now self.old) ≤ most_events }
        ensures state { self.new ≡ settled_exchange round clashes.now self.old }
        ensures written { calls_of journal.new.past.value
            ≡ reverse (take_calls self.old.number (lacking_in round clashes.now self.old)) ++ calls_of journal.old.past.value }
    {
        let course = Course {
            number: self.number,
            seed: self.seed,
            round,
        };
        let Some(heard) = &mut self.heard else {
            return;
        };
        heard.fill(course, clashes, journal);
    }
}

// Counts the places without a ruling.
fn count_lacking(rulings: &[Option<Judged>]) -> usize
    ensures { result ≡ due.count_lacking rulings.now }
{
    rulings.iter().filter(|ruling| ruling.is_none()).count()
}

// Fills each place without a ruling, and writes an event for each.
pub(crate) fn fill(
    course: Course,
    clashes: &ClashList,
    rulings: &mut [Option<Judged>],
    journal: &mut Journal,
)
    requires places { length rulings.old ≡ length clashes.now }
    requires room { length (calls_of journal.old.past.value)
        + length (lacking (judge_by course (length clashes.now)) 0 clashes.now rulings.old) ≤ most_events }
    ensures filled { rulings.new ≡ filled (judge_by course (length clashes.now)) 0 clashes.now rulings.old }
    ensures written { calls_of journal.new.past.value
        ≡ reverse (take_calls course.number (lacking (judge_by course (length clashes.now)) 0 clashes.now rulings.old))
        ++ calls_of journal.old.past.value }
{
    let count = clashes.len() as u32;
    let mut scratch = Scratch::new();
    for k in 0..count {
        let Some(clash) = clashes.get(k) else {
            unreachable!()
        };
        if rulings[k as usize].is_none() {
            let judged = judge(&mut scratch, course, count, k, clash);
            rulings[k as usize] = Some(judged);
            journal.push(Event::Take(course.number, k, judged));
        }
    }
}

// Judges clash `k` of `count`. A program runs in the scratch memory.
fn judge(scratch: &mut Scratch, course: Course, count: u32, k: u32, clash: &Clash) -> Judged
    ensures { result ≡ judge_by course count k clash.now }
{
    let verdict = Verdict::judged_in(scratch, clash, word(course.seed, course.round, count, k));
    Judged {
        word: verdict.word(),
        answer: verdict.answer(),
    }
}
