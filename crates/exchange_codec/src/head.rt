//! The first fields of a message, read without the rest.
ghost use Rattle.std.specs.Prelude.{◌≡◌, Some, None, Ok, length};
ghost use Rattle.exchange_law.specs.Sides as sides;
ghost use Rattle.exchange_codec.specs.Offers.{SpellsOffer};
ghost use Rattle.exchange_codec.specs.Withdrawals.{SpellsWithdrawals};
ghost use Rattle.exchange_codec.specs.Reading.{due};
ghost use Rattle.exchange_codec.specs.Peeking.{peeked, peeked_offer, peeked_list, head_of_offer, head_of_list};

use crate::fault::{Fault, MessageFault};
use crate::fields::{header_fault, u64_at};
use crate::names::side_at;
use crate::{offers, withdrawals};
use clash_record::SideId;

/// The kind of a message.
#[derive(Clone, Copy, Debug, PartialEq, Eq)]
pub enum MessageKind {
    Offer,
    Withdrawals,
}

/// The first fields of a message.
#[derive(Clone, Copy, Debug, PartialEq, Eq)]
pub struct MessageHead {
    pub kind: MessageKind,
    /// The side that sent it.
    pub side: SideId,
    /// The number of its exchange.
    pub number: u64,
    /// The seed of an offer.
    pub seed: Option<u64>,
}

/// Reads the first fields of untrusted bytes: 25 bytes of an offer, 17 of a list. Ignores what follows. Allocates nothing.
///
/// Rejects the first invalid field, with its byte: 70 if the bytes end within it, 71 for no message, 74 for neither side
/// and 82 for another version.
pub fn peek(bytes: &[u8]) -> Result<MessageHead, MessageFault>
    ensures exact { result ≡ due (length bytes.now) (peeked bytes.now) }
    // The head of a message that the bytes spell.
    ensures offer { (offer : sides.Offer) → SpellsOffer bytes.now offer
        → result ≡ Ok (head_of_offer offer) }
    ensures list { (list : sides.Withdrawals) → SpellsWithdrawals bytes.now list
        → result ≡ Ok (head_of_list list) }
{
    match peek_at(bytes) {
        Ok(head) => Ok(head),
        Err(fault) => Err(fault.placed(bytes.len())),
    }
}

// The head at the front.
#[tactic(auto, unfolding(crate::specs::Peeking::peeked))]
fn peek_at(bytes: &[u8]) -> Result<MessageHead, Fault>
    ensures { result ≡ peeked bytes.now }
{
    let (found, rest) = u64_at(bytes)?;
    if found == offers::HEADER {
        return peek_offer(rest);
    }
    if found == withdrawals::HEADER {
        return peek_list(rest);
    }
    Err(Fault::at(header_fault(found), bytes))
}

// The head of an offer, after its header.
#[tactic(auto, unfolding(crate::specs::Peeking::peeked_offer))]
fn peek_offer(bytes: &[u8]) -> Result<MessageHead, Fault>
    ensures { result ≡ peeked_offer bytes.now }
{
    let (side, rest) = side_at(bytes)?;
    let (number, rest) = u64_at(rest)?;
    let (seed, _) = u64_at(rest)?;
    Ok(MessageHead {
        kind: MessageKind::Offer,
        side,
        number,
        seed: Some(seed),
    })
}

// The head of a list, after its header.
#[tactic(auto, unfolding(crate::specs::Peeking::peeked_list))]
fn peek_list(bytes: &[u8]) -> Result<MessageHead, Fault>
    ensures { result ≡ peeked_list bytes.now }
{
    let (side, rest) = side_at(bytes)?;
    let (number, _) = u64_at(rest)?;
    Ok(MessageHead {
        kind: MessageKind::Withdrawals,
        side,
        number,
        seed: None,
    })
}
