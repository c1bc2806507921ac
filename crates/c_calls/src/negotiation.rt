//! The calls of a half in an exchange.
ghost use Rattle.std.specs.Prelude.{◌≡◌, ◌⊎◌, ℕ, List, Option, Some, Ok, IfOk, IsOkAnd};
ghost use Rattle.refusals.specs.Answers.{out_of_memory};
ghost use Rattle.std.specs.Option.{option_map_or};
ghost use Rattle.exchange_core.specs.Shown.{shown};
ghost use Rattle.exchange_law.specs.Sides.{clashes_of};
ghost use Rattle.c_calls.specs.declared.outcome.Outcome.{Outcome};
ghost use Rattle.c_calls.specs.Answers.{held_after, returned_number};
ghost use Rattle.c_calls.specs.Exchanges.{BeginsExchange, Hears, HearsFirst, HearsFirstNames, HearsNames, HearsOffer, HearsWhole, HearsWholeList, Settles, Withdraws, Closes, HearsList, Finishes, FinishesSide, Abandons, head_refusal, refusal_of};
ghost use Rattle.c_calls.specs.Outcomes.{IsRoomFor, gone_from_both, theirs_of};

use crate::answer::{OTHER_MESSAGE, number_of};
use crate::codes::name_of;
use crate::half::{Half, forget};
use crate::message::{Message, boxed};
use crate::outcome::Outcome;
use clash_record::{Name, SideId};
use exchange_codec::{
    MessageHead, OfferHead, decode_offer, decode_withdrawals, peek, spell_offer, spell_withdrawals,
};
use exchange_core::{Offer, Side, Withdrawals};
use refusals::{Numbered, OUT_OF_MEMORY};
use std::alloc::{AllocError, Global};

impl Half {
    /// Opens an exchange, and returns the offer to be sent.
    #[tactic(auto, using(crate::proofs::Hearing::offer_spelled))]
    pub fn begin(
        &mut self,
        alloc: Global,
        number: u64,
        seed: u64,
        uptime: u64,
    ) -> Result<Box<Message>, u32>
        ensures { (before : Option (List ℕ)) → BeginsExchange number seed uptime self.old self.new before
            (held_after (λ made. made.value) before result) (returned_number (λ n. n) result) }
    {
        forget(&mut self.agreement);
        let side = &self.side;
        if let Some(fault) = side.begin_refusal(number) {
            return Err(fault.number());
        }
        let head = OfferHead {
            side: side.id(),
            number,
            seed,
            uptime,
        };
        let spelled = spell_offer(alloc, head, side.table());
        let Ok(message) = boxed(alloc, spelled) else {
            return Err(OUT_OF_MEMORY);
        };
        match self.side.begin(alloc, number, seed, uptime) {
            Ok(_) => Ok(message),
            Err(fault) => Err(fault.number()),
        }
    }

    /// Hears the other side's offer. Reads no more than its head if that is refused.
    #[tactic(auto, using(crate::proofs::Heads::refused, crate::proofs::Heads::passed))]
    pub fn hear(&mut self, alloc: Global, bytes: &[u8]) -> u32
        ensures { Hears bytes.now self.old self.new result }
    {
        match self.head_refusal(bytes) {
            Some(number) => number,
            None => self.hear_whole(alloc, bytes),
        }
    }

    // Returns the refusal that the head of a message is due.
    #[tactic(auto, using(crate::proofs::Heads::read, crate::proofs::Heads::unread))]
    fn head_refusal(&self, bytes: &[u8]) -> Option<u32>
        ensures { result ≡ head_refusal self.now bytes.now }
    {
        match peek(bytes) {
            Ok(head) => self.refusal_of(&head),
            Err(fault) => Some(fault.number()),
        }
    }

    // Returns the refusal of every message with this head.
    fn refusal_of(&self, head: &MessageHead) -> Option<u32>
        ensures { result ≡ refusal_of self.now (Ok head.now) }
    {
        match self.side.message_refusal(head.side, head.number) {
            Some(fault) => Some(fault.number()),
            None => None,
        }
    }

    // Hears an offer whose head isn't refused.
    #[tactic(auto, using(crate::specs::laws::Reading::rejected, crate::proofs::Hearing::unheard))]
    fn hear_whole(&mut self, alloc: Global, bytes: &[u8]) -> u32
        ensures { HearsWhole bytes.now self.old self.new result }
    {
        match decode_offer(alloc, bytes) {
            Ok(offer) => self.hear_offer(alloc, &offer),
            Err(fault) => fault.number(),
        }
    }

    // Hears a decoded offer, unless another one of its number was heard.
    #[tactic(auto, using(crate::proofs::Repeating::other, crate::proofs::Repeating::same))]
    fn hear_offer(&mut self, alloc: Global, offer: &Offer) -> u32
        ensures { HearsOffer offer.now self.old self.new result }
    {
        if self.side.heard_other_offer(offer) {
            return OTHER_MESSAGE;
        }
        self.hear_first(alloc, offer)
    }

    // Hears the first offer of a number, or that offer again.
    fn hear_first(&mut self, alloc: Global, offer: &Offer) -> u32
        ensures { HearsFirst offer.now self.old self.new result }
    {
        forget(&mut self.agreement);
        number_of(&self.side.hear(alloc, offer))
    }

    /// Judges each clash that has no ruling.
    pub fn settle(&mut self) -> u32
        ensures { Settles self.old self.new result }
    {
        forget(&mut self.agreement);
        number_of(&self.side.settle())
    }

    /// Withdraws a name in the open exchange.
    pub fn withdraw(&mut self, bytes: &[u8]) -> u32
        ensures { Withdraws bytes.now self.old self.new result }
    {
        forget(&mut self.agreement);
        match name_of(bytes) {
            Ok(name) => number_of(&self.side.withdraw(&name)),
            Err(number) => number,
        }
    }

    /// Closes the list of withdrawn names, and returns the list to be sent.
    #[tactic(auto, using(crate::proofs::Hearing::list_spelled))]
    pub fn close_list(&mut self, alloc: Global) -> Result<Box<Message>, u32>
        ensures { (before : Option (List ℕ)) → Closes self.old self.new before
            (held_after (λ made. made.value) before result) (returned_number (λ n. n) result) }
    {
        forget(&mut self.agreement);
        let side = &self.side;
        if let Some(fault) = side.close_list_refusal() {
            return Err(fault.number());
        }
        let number = side.open_number().unwrap_or(0);
        let spelled = spell_withdrawals(alloc, side.id(), number, side.withdrawn());
        let Ok(message) = boxed(alloc, spelled) else {
            return Err(OUT_OF_MEMORY);
        };
        match self.side.close_list(alloc) {
            Ok(closed) => {
                // For the proof: the names are distinct, and at most 1,048,576.
                closed.names();
                Ok(message)
            }
            Err(fault) => Err(fault.number()),
        }
    }

    /// Hears the other side's list. Reads no more than its head if that is refused.
    #[tactic(auto, using(crate::proofs::Heads::refused, crate::proofs::Heads::passed))]
    pub fn hear_list(&mut self, alloc: Global, bytes: &[u8]) -> u32
        ensures { HearsList bytes.now self.old self.new result }
    {
        match self.head_refusal(bytes) {
            Some(number) => number,
            None => self.hear_whole_list(alloc, bytes),
        }
    }

    // Hears a list whose head isn't refused.
    #[tactic(auto, using(crate::proofs::Hearing::list_refused))]
    fn hear_whole_list(&mut self, alloc: Global, bytes: &[u8]) -> u32
        ensures { HearsWholeList bytes.now self.old self.new result }
    {
        match decode_withdrawals(alloc, bytes) {
            Ok(list) => self.hear_names(&list),
            Err(fault) => fault.number(),
        }
    }

    // Hears a decoded list, unless another one of its number was heard.
    #[tactic(auto, using(crate::proofs::Repeating::other, crate::proofs::Repeating::same))]
    fn hear_names(&mut self, sent: &Withdrawals) -> u32
        ensures { HearsNames sent.now self.old self.new result }
    {
        if self.side.heard_other_list(sent) {
            return OTHER_MESSAGE;
        }
        self.hear_first_names(sent)
    }

    // Hears the first list of a number, or that list again.
    fn hear_first_names(&mut self, sent: &Withdrawals) -> u32
        ensures { HearsFirstNames sent.now self.old self.new result }
    {
        forget(&mut self.agreement);
        number_of(&self.side.hear_list(sent))
    }

    /// Replaces the table by the merge, and returns the outcome.
    #[tactic(auto, using(crate::proofs::Finishing::by_its_side))]
    pub fn finish(&mut self, alloc: Global) -> Result<Box<Outcome>, u32>
        ensures { (before : Option Outcome) → Finishes self.old self.new before
            (held_after (λ made. made.value) before result) (returned_number (λ n. n) result) }
    {
        forget(&mut self.agreement);
        finish(&mut self.side, alloc)
    }

    /// Closes the exchange, and keeps the table without the withdrawn names.
    pub fn abandon(&mut self) -> u32
        ensures { Abandons self.old self.new result }
    {
        forget(&mut self.agreement);
        number_of(&self.side.abandon())
    }
}

// Replaces the side's table by the merge, and returns the outcome.
#[tactic(auto, using(crate::proofs::Finishing::room_fits, crate::proofs::Finishing::finishes))]
fn finish(side: &mut Side, alloc: Global) -> Result<Box<Outcome>, u32>
    ensures { (before : Option Outcome) → FinishesSide side.old side.new before
        (held_after (λ made. made.value) before result) (returned_number (λ n. n) result) }
{
    if let Some(fault) = side.finish_refusal() {
        return Err(fault.number());
    }
    let Ok(mut room) = room_for(alloc, side) else {
        return Err(OUT_OF_MEMORY);
    };
    match side.finish(alloc) {
        Ok(finished) => {
            room.fill(finished);
            Ok(room)
        }
        Err(fault) => Err(fault.number()),
    }
}

// Allocates an outcome with the clashes and the withdrawn names of the open exchange, and a place for each clash. Adds an
// owner to the list of clashes, which is there once the other's offer was heard.
#[tactic(auto, using(crate::proofs::Finishing::shared))]
fn room_for(alloc: Global, side: &Side) -> Result<Box<Outcome>, AllocError>
    ensures { IfOk result (λ room. IsRoomFor (clashes_of (shown side.now)) (gone_from_both (shown side.now)) room.value) }
{
    let Ok(clashes) = side.share_clashes() else {
        return Err(AllocError);
    };
    let own = copied(alloc, side.withdrawn())?;
    let theirs = copied(alloc, theirs_of(side))?;
    let (gone_a, gone_b) = match side.id() {
        SideId::A => (own, theirs),
        SideId::B => (theirs, own),
    };
    let room = Outcome::new(alloc, clashes, gone_a, gone_b)?;
    match Box::new(alloc, room) {
        Ok(room) => Ok(room),
        Err(_) => Err(AllocError),
    }
}

// Returns the names of the other's list, if it was heard.
fn theirs_of(side: &Side) -> &[Name]
    ensures { result.now ≡ theirs_of (shown side.now) }
{
    match side.their_list() {
        Some(names) => names,
        None => &[],
    }
}

// Copies names.
fn copied(alloc: Global, names: &[Name]) -> Result<Vec<Name>, AllocError>
    ensures { IfOk result (λ copy. copy.items ≡ names.now) }
{
    let mut copy = Vec::new(alloc);
    copy.extend_from_slice(names)?;
    Ok(copy)
}
