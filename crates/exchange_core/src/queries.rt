//! What a side knows of its open exchange, and of a message before it is heard.
ghost use Rattle.std.specs.Prelude.{◌≡◌, false, Some, IfSome};
ghost use Rattle.std.specs.Option.{option_and_then, option_map, option_map_or};
ghost use Rattle.std.specs.Cmp.Lexicographic.{pointwise};
ghost use Rattle.partition_table.specs.Tables.{is_same_name};
ghost use Rattle.exchange_core.specs.Refusals as due;
ghost use Rattle.exchange_core.specs.Shown.{shown, limit_of, is_full};
ghost use Rattle.exchange_law.specs.Sides as sides;

use crate::exchange::Exchange;
use crate::fault::{MissingPart, SideFault};
use crate::messages::{Offer, Withdrawals};
use crate::refusing::{is_theirs, sent_fault};
use crate::side::Side;
use crate::state::State;
use clash_record::{Name, SideId};

impl Side {
    /// Returns the greatest number that the side began, if any.
    pub fn latest(&self) -> Option<u64>
        ensures { result ≡ (shown self.now).latest }
    {
        self.state.latest()
    }

    /// Returns the first part that the open exchange lacks before it can be finished: the one that 39 is about. Returns `None`
    /// if nothing is missing or no exchange is open.
    pub fn missing_part(&self) -> Option<MissingPart>
        ensures { result ≡ option_and_then due.missing_of (shown self.now).exchange }
    {
        self.state.missing_part()
    }

    /// Checks whether this side closed its list in the open exchange.
    pub fn has_closed_list(&self) -> bool
        ensures { result ≡ option_map_or (λ x. x.closed) (shown self.now).exchange false }
    {
        self.state.has_closed_list()
    }

    /// Returns the names of the other side's list, if it was heard in the open exchange.
    pub fn their_list(&self) -> Option<&[Name]>
        ensures { option_map (λ names. names.now) result
            ≡ option_and_then (λ x. x.their_list) (shown self.now).exchange }
    {
        self.state.their_list()
    }

    /// Returns the refusal that an offer or a list of this sender and number is due, also if others apply: 34, 40, 45 or 46.
    ///
    /// So a message that isn't of the open exchange can be refused by its first bytes.
    pub fn message_refusal(&self, sender: SideId, number: u64) -> Option<SideFault>
        ensures refusal { result ≡ due.message_fault (is_full self.now) (shown self.now) sender number }
        ensures offer { IfSome result (λ fault. (offer : sides.Offer) → offer.side ≡ sender → offer.number ≡ number
            → due.hear_fault (limit_of self.now) (is_full self.now) (shown self.now) offer ≡ Some fault) }
        ensures list { IfSome result (λ fault. (sent : sides.Withdrawals) → sent.side ≡ sender → sent.number ≡ number
            → due.hear_list_fault (is_full self.now) (shown self.now) sent ≡ Some fault) }
    {
        self.state.message_fault(self.is_full(), sender, number)
    }

    /// Checks whether the open exchange heard an offer of the other side that differs from this one, which is of the same
    /// number.
    pub fn heard_other_offer(&self, offer: &Offer) -> bool
        ensures { result ≡ sides.heard_other_offer (shown self.now) offer.now }
    {
        self.state.heard_other_offer(offer)
    }

    /// Checks whether the open exchange heard a list of the other side that differs from this one, which is of the same
    /// number.
    pub fn heard_other_list(&self, sent: &Withdrawals) -> bool
        ensures { result ≡ sides.heard_other_list (shown self.now) sent.now }
    {
        self.state.heard_other_list(sent)
    }
}

impl State {
    // Returns the greatest number that the side began, if any.
    fn latest(&self) -> Option<u64>
        ensures { result ≡ self.now.latest }
    {
        self.latest
    }

    // Returns the first part that the open exchange lacks.
    fn missing_part(&self) -> Option<MissingPart>
        ensures { result ≡ option_and_then due.missing_of self.now.exchange }
    {
        match &self.exchange {
            Some(exchange) => exchange.missing(),
            None => None,
        }
    }

    // Checks whether this side closed its list.
    fn has_closed_list(&self) -> bool
        ensures { result ≡ option_map_or (λ x. x.closed) self.now.exchange false }
    {
        match &self.exchange {
            Some(exchange) => exchange.is_closed(),
            None => false,
        }
    }

    // Returns the names of the other side's list, if it was heard.
    fn their_list(&self) -> Option<&[Name]>
        ensures { option_map (λ names. names.now) result ≡ option_and_then (λ x. x.their_list) self.now.exchange }
    {
        match &self.exchange {
            Some(exchange) => exchange.their_list(),
            None => None,
        }
    }

    // Returns the refusal that a message of this sender and number is due.
    fn message_fault(&self, full: bool, sender: SideId, number: u64) -> Option<SideFault>
        ensures { result ≡ due.message_fault full self.now sender number }
    {
        let Some(exchange) = &self.exchange else {
            return Some(SideFault::NotHealing);
        };
        if is_theirs(self.id, exchange, sender, number) {
            return None;
        }
        sent_fault(full, self.id, exchange, sender, number)
    }

    // Checks whether another offer of the open number was heard.
    fn heard_other_offer(&self, offer: &Offer) -> bool
        ensures { result ≡ sides.heard_other_offer self.now offer.now }
    {
        match &self.exchange {
            Some(exchange) => {
                is_theirs(self.id, exchange, offer.side(), offer.number())
                    && exchange.heard_other(offer)
            }
            None => false,
        }
    }

    // Checks whether another list of the open number was heard.
    fn heard_other_list(&self, sent: &Withdrawals) -> bool
        ensures { result ≡ sides.heard_other_list self.now sent.now }
    {
        match &self.exchange {
            Some(exchange) => {
                is_theirs(self.id, exchange, sent.side(), sent.number())
                    && exchange.has_other_list(sent.names())
            }
            None => false,
        }
    }
}

impl Exchange {
    // Returns the names of the other side's list, if it was heard.
    fn their_list(&self) -> Option<&[Name]>
        ensures { option_map (λ names. names.now) result ≡ self.now.their_list }
    {
        match &self.their_list {
            Some(names) => Some(names),
            None => None,
        }
    }

    // Checks whether an offer with another seed, uptime or table was heard.
    fn heard_other(&self, offer: &Offer) -> bool
        ensures { result ≡ sides.other_heard self.now offer.now }
    {
        match &self.heard {
            Some(heard) => !(self.seed == offer.seed() && heard.is_of(offer)),
            None => false,
        }
    }

    // Checks whether a list of other names was heard.
    fn has_other_list(&self, names: &[Name]) -> bool
        ensures { result ≡ sides.other_list self.now names.now }
    {
        match &self.their_list {
            Some(theirs) => !is_same_names(theirs, names),
            None => false,
        }
    }
}

// Checks whether the two lists have the same names in the same order.
fn is_same_names(a: &[Name], b: &[Name]) -> bool
    ensures { result ≡ pointwise is_same_name a.now b.now }
{
    a == b
}
