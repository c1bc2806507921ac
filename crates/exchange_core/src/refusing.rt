//! The refusals that apply, other than out of memory.
ghost use Rattle.std.specs.Prelude.{◌≡◌, ◌&&◌, ◌==◌, ◌<◌, ◌≤◌, ◌^◌, Some, None, MatchOption, not, nat_le, nat_lt, true, false, is_some, length, if◌then◌else◌};
ghost use Rattle.std.specs.FinMap.{len, contains_key};
ghost use Rattle.clash_record.specs.declared.registrations.Registration.{Registration};
ghost use Rattle.upload_store.specs.Programs.{Programs};
ghost use Rattle.partition_table.specs.Judged.{clash_of_verdict, word_of_verdict};
ghost use Rattle.partition_table.specs.Tables.{same_clash};
ghost use Rattle.exchange_law.specs.Sides.{is_above, is_side, is_one_of_four, clashes_of, has_clash};
ghost use Rattle.exchange_law.specs.Sides as sides;
ghost use Rattle.exchange_core.specs.Refusals as due;
ghost use Rattle.exchange_core.specs.model.Early.{closed_register_fault, early_offer_fault, early_hear_fault};

use crate::exchange::Exchange;
use crate::fault::SideFault;
use crate::messages::{Offer, Withdrawals};
use crate::pairing::has_too_many;
use crate::state::State;
use clash_record::{Name, SideId};
use partition_table::{Clash, NameLimit, Ruling, Table, TableFault, round_of};

impl State {
    // Returns the refusal to register the name on a side with an open exchange or a full journal.
    pub(crate) fn closed_register_fault(&self, limit: NameLimit, name: &Name) -> SideFault
        ensures { result ≡ closed_register_fault limit.names self.now name.now }
    {
        if self.table.whereis(name).is_some() {
            return SideFault::Table(TableFault::NameTaken);
        }
        if self.table.len() >= limit.names() {
            return SideFault::Table(TableFault::Full);
        }
        if self.exchange.is_some() {
            return SideFault::Healing;
        }
        SideFault::JournalFull
    }

    // Returns the refusal to unregister the name.
    pub(crate) fn unregister_fault(&self, full: bool, name: &Name) -> Option<SideFault>
        ensures { result ≡ due.unregister_fault full self.now name.now }
    {
        if self.table.whereis(name).is_none() {
            return Some(SideFault::Table(TableFault::NoSuchName));
        }
        if self.exchange.is_some() {
            return Some(SideFault::Healing);
        }
        if full {
            return Some(SideFault::JournalFull);
        }
        None
    }

    // Returns the refusal to open an exchange of this number.
    pub(crate) fn begin_fault(&self, full: bool, number: u64) -> Option<SideFault>
        ensures { result ≡ due.begin_fault full self.now number }
    {
        if self.exchange.is_some() {
            return Some(SideFault::Healing);
        }
        if !is_above(number, self.latest) {
            return Some(SideFault::StaleNumber);
        }
        if full {
            return Some(SideFault::JournalFull);
        }
        None
    }

    // Returns the refusal to hear the offer, as far as this side's table and the other's needn't be compared.
    pub(crate) fn early_hear_fault(
        &self,
        limit: NameLimit,
        full: bool,
        offer: &Offer,
    ) -> Option<SideFault>
        ensures { result ≡ early_hear_fault limit.names full self.now offer.now }
    {
        let Some(exchange) = &self.exchange else {
            return Some(SideFault::NotHealing);
        };
        let theirs = is_theirs(self.id, exchange, offer.side(), offer.number());
        if !exchange.has_heard() && theirs {
            return self.early_offer_fault(limit, full, exchange, offer);
        }
        sent_fault(full, self.id, exchange, offer.side(), offer.number())
    }

    // Checks whether this side's table and the other's have more names together than the limit.
    fn has_too_many(&self, limit: NameLimit, other: &Table) -> bool
        ensures { result ≡ not (nat_le (due.union_for self.now.id self.now.table other.now) limit.names) }
    {
        has_too_many(limit, &self.table, other)
    }

    // Returns the refusal of the other side's first offer of the open number, before the tables are compared. Counts the names
    // of both only if the journal is full.
    fn early_offer_fault(
        &self,
        limit: NameLimit,
        full: bool,
        exchange: &Exchange,
        offer: &Offer,
    ) -> Option<SideFault>
        ensures { result ≡ early_offer_fault limit.names full self.now exchange.now offer.now }
    {
        if exchange.seed() != offer.seed() {
            return Some(SideFault::SeedDiffers);
        }
        if !full {
            return None;
        }
        if self.has_too_many(limit, offer.table()) {
            return Some(SideFault::Table(TableFault::TooManyNames));
        }
        Some(SideFault::JournalFull)
    }

    // Returns the refusal to take the ruling. `is_own` is whether its clash is clash `k` of the open exchange.
    pub(crate) fn take_fault(
        &self,
        full: bool,
        is_own: bool,
        ruling: Ruling<'_>,
    ) -> Option<SideFault>
        requires { is_own ≡ has_clash self.now ruling.k (clash_of_verdict ruling.verdict) }
        ensures { result ≡ due.take_fault full self.now ruling.entry.number ruling.entry.k
            (clash_of_verdict ruling.entry.verdict) (word_of_verdict ruling.entry.verdict) }
    {
        let Some(exchange) = &self.exchange else {
            return Some(SideFault::NotHealing);
        };
        let is_open = exchange.number() == ruling.number;
        let word = ruling.verdict.word();
        if is_open && !(is_own && self.is_word_of(exchange, ruling.k, word)) {
            return Some(SideFault::StrangeRuling);
        }
        if full {
            return Some(SideFault::JournalFull);
        }
        if !is_open {
            return Some(SideFault::OtherNumber);
        }
        None
    }

    // Checks whether the clash is clash `k` of the open exchange.
    pub(crate) fn has_clash(&self, k: u32, clash: &Clash) -> bool
        ensures { result ≡ has_clash self.now k clash.now }
    {
        let Some(compared) = &self.compared else {
            return false;
        };
        match compared.clashes.get(k) {
            Some(own) => is_same_clash(clash, own),
            None => false,
        }
    }

    // Checks whether the word is one of the four of clash `k` of the open exchange.
    fn is_word_of(&self, exchange: &Exchange, k: u32, at: u64) -> bool
        ensures { result ≡ is_one_of_four at exchange.now.seed (length (clashes_of self.now)) k }
    {
        let count = match &self.compared {
            Some(compared) => compared.clashes.len() as u32,
            None => 0,
        };
        round_of(at, exchange.seed(), count, k).is_some()
    }

    // Returns the refusal to withdraw the name.
    pub(crate) fn withdraw_fault(&self, full: bool, name: &Name) -> Option<SideFault>
        ensures { result ≡ due.withdraw_fault full self.now name.now }
    {
        if self.table.whereis(name).is_none() {
            return Some(SideFault::Table(TableFault::NoSuchName));
        }
        let Some(exchange) = &self.exchange else {
            return Some(SideFault::NotHealing);
        };
        if full {
            return Some(SideFault::JournalFull);
        }
        if exchange.has_withdrawn(name) {
            return Some(SideFault::Withdrawn);
        }
        if exchange.is_closed() {
            return Some(SideFault::ListClosed);
        }
        None
    }

    // Returns the refusal to close the list of withdrawn names.
    pub(crate) fn close_list_fault(&self, full: bool) -> Option<SideFault>
        ensures { result ≡ due.close_list_fault full self.now }
    {
        let Some(exchange) = &self.exchange else {
            return Some(SideFault::NotHealing);
        };
        if full {
            return Some(SideFault::JournalFull);
        }
        if exchange.is_closed() {
            return Some(SideFault::ListClosed);
        }
        None
    }

    // Returns the refusal to hear the list.
    pub(crate) fn hear_list_fault(&self, full: bool, sent: &Withdrawals) -> Option<SideFault>
        ensures { result ≡ due.hear_list_fault full self.now sent.now }
    {
        let Some(exchange) = &self.exchange else {
            return Some(SideFault::NotHealing);
        };
        sent_fault(full, self.id, exchange, sent.side(), sent.number())
    }

    // Returns the refusal to finish.
    pub(crate) fn finish_fault(&self, full: bool) -> Option<SideFault>
        ensures { result ≡ due.finish_fault full self.now }
    {
        let Some(exchange) = &self.exchange else {
            return Some(SideFault::NotHealing);
        };
        if let Some(part) = exchange.missing() {
            return Some(SideFault::Missing(part));
        }
        if full {
            return Some(SideFault::JournalFull);
        }
        None
    }

    // Returns the refusal to abandon.
    pub(crate) fn abandon_fault(&self, full: bool) -> Option<SideFault>
        ensures { result ≡ due.abandon_fault full self.now }
    {
        if self.exchange.is_none() {
            return Some(SideFault::NotHealing);
        }
        if full {
            return Some(SideFault::JournalFull);
        }
        None
    }
}

// Checks whether a message of this sender and number is the other side's, of the open number.
pub(crate) fn is_theirs(id: SideId, exchange: &Exchange, sender: SideId, number: u64) -> bool
    ensures { result ≡ sides.is_theirs id exchange.now sender number }
{
    exchange.number() == number && !is_side(id, sender)
}

// Returns the refusal of something that a side sent, of this number.
pub(crate) fn sent_fault(
    full: bool,
    id: SideId,
    exchange: &Exchange,
    sender: SideId,
    number: u64,
) -> Option<SideFault>
    ensures { result ≡ due.sent_fault full id exchange.now sender number }
{
    if full {
        return Some(SideFault::JournalFull);
    }
    if exchange.number() != number {
        return Some(SideFault::OtherNumber);
    }
    if is_side(id, sender) {
        return Some(SideFault::OwnOffer);
    }
    None
}

// Checks whether the number is above every number so far.
fn is_above(number: u64, latest: Option<u64>) -> bool
    ensures { result ≡ is_above number latest }
{
    match latest {
        None => true,
        Some(latest) => latest < number,
    }
}

// Checks whether the two are one side.
fn is_side(id: SideId, sender: SideId) -> bool
    ensures { result ≡ is_side id sender }
{
    match (id, sender) {
        (SideId::A, SideId::A) | (SideId::B, SideId::B) => true,
        _ => false,
    }
}

// Checks whether the two clashes are alike in all that judging reads.
fn is_same_clash(a: &Clash, b: &Clash) -> bool
    ensures { result ≡ same_clash a.now b.now }
{
    a == b
}
