//! Offers as bytes.
ghost use Rattle.std.specs.Prelude.{◌≡◌, ◌++◌, List, Ok, Err, IfOk, IfErr, OnOk};
ghost use Rattle.refusals.specs.Answers.{HasCause, ReturnsOrRunsOut};
ghost use Rattle.exchange_law.specs.Sides as sides;
ghost use Rattle.exchange_codec.specs.Faults.{message_fault_number};
ghost use Rattle.exchange_codec.specs.declared.fault.MessageFault.{MessageFault};
ghost use Rattle.exchange_codec.specs.Reading.{Fails, Reads};
ghost use Rattle.exchange_codec.specs.Rows.{RowText};
ghost use Rattle.exchange_codec.specs.model.Building.{IsBuiltOf};
ghost use Rattle.exchange_codec.specs.Offers.{SpellsOffer, IsOfferFault, IsHead, head_at, whole_offer, head_bytes};

use crate::building::begun;
use crate::fault::{Fault, MessageFault, ReadError};
use crate::fields::{header_at, push_u64, u64_at};
use crate::names::{push_side, side_at};
use crate::tables::{push_table, table_of};
use crate::theorem::one_program_theorem;
use clash_record::SideId;
use exchange_core::Offer;
use partition_table::Table;
use std::alloc::{AllocError, Global};

// "HEALXC", version 1, kind 1.
pub(crate) const HEADER: u64 = 0x0101_4358_4C41_4548;

/// All of an offer but its table.
#[derive(Clone, Copy, Debug, PartialEq, Eq)]
pub struct OfferHead {
    /// The side that made it.
    pub side: SideId,
    /// The number of its exchange.
    pub number: u64,
    /// The seed of its exchange.
    pub seed: u64,
    /// How long the side's half has been up.
    pub uptime: u64,
}

/// Encodes an offer. Fails only when out of memory.
pub fn encode_offer(alloc: Global, offer: &Offer) -> Result<Vec<u8>, AllocError>
    ensures { IfOk result (λ bytes. SpellsOffer bytes.items offer.now) }
{
    let head = OfferHead {
        side: offer.side(),
        number: offer.number(),
        seed: offer.seed(),
        uptime: offer.uptime(),
    };
    spell_offer(alloc, head, offer.table())
}

/// Encodes the offer that a side with this table makes when it begins an exchange. Fails only when out of memory.
pub fn spell_offer(alloc: Global, head: OfferHead, table: &Table) -> Result<Vec<u8>, AllocError>
    ensures { IfOk result (λ bytes. SpellsOffer bytes.items record {
      side = head.side;
      number = head.number;
      seed = head.seed;
      uptime = head.uptime;
      table = table.now;
    }) }
{
    let mut out = Vec::new(alloc);
    push_u64(&mut out, HEADER)?;
    push_head(&mut out, head)?;
    push_table(alloc, &mut out, table)?;
    Ok(out)
}

// Writes all of an offer but its table at the end.
fn push_head(out: &mut Vec<u8>, head: OfferHead) -> Result<(), AllocError>
    ensures written { OnOk result (out.new.items ≡ out.old.items ++ head_bytes head) }
    ensures fits { OnOk result (IsHead head) }
{
    push_side(out, head.side)?;
    push_u64(out, head.number)?;
    push_u64(out, head.seed)?;
    push_u64(out, head.uptime)?;
    Ok(())
}

/// Decodes untrusted bytes as an offer.
///
/// Verifies each program again, and computes its id. The transport ensures that the bytes are those that the other half sent in
/// this exchange.
///
/// Rejects the first invalid field, with its byte: 70 if the bytes end within it, 71 for another message, 72 for extra
/// bytes, 73 for a count above its limit, 74 for neither side, 75 for an invalid name, 76 for an unknown kind of resolver
/// and 82 for another version. If every field is valid, rejects the first invalid row, with its index: 78 for a name that
/// isn't above the one before it, 79 for a program whose code no earlier row has, 80 for code that an earlier row has, and
/// 81 for code that the verifier rejects, with its fault; the least that applies. Returns 90 when out of memory.
pub fn decode_offer(alloc: Global, bytes: &[u8]) -> Result<Offer, MessageFault>
    // The bytes spell the offer that is returned.
    ensures spelled { IfOk result (SpellsOffer bytes.now) }
    // An offer that the bytes spell is returned, unless memory runs out.
    ensures taken { (offer : sides.Offer) → SpellsOffer bytes.now offer
        → ReturnsOrRunsOut message_fault_number result (Ok offer) }
    // A refusal has its cause.
    ensures refused { IfErr result (HasCause message_fault_number (IsOfferFault bytes.now)) }
    // A fault of the bytes is returned, unless memory runs out.
    ensures told { (fault : MessageFault) → IsOfferFault bytes.now fault
        → ReturnsOrRunsOut message_fault_number result (Err fault) }
{
    // For the proof: code has one reading and one verdict.
    one_program_theorem();
    match all(alloc, bytes) {
        Ok((head, built)) => begun(alloc, head, built),
        Err(error) => Err(error.told(bytes.len())),
    }
}

// Reads an offer that all of the bytes spell. Returns the table of its rows, or the fault of the first invalid row.
#[tactic(auto, unfolding(crate::specs::Offers::whole_offer, crate::specs::Offers::offer_at))]
fn all(alloc: Global, bytes: &[u8]) -> Result<(OfferHead, Result<Table, MessageFault>), ReadError>
    ensures read { IfOk result (λ x. (texts : List RowText)
        × (whole_offer bytes.now ≡ Ok (record { head = x.0; rows = texts })) × IsBuiltOf texts x.1) }
    ensures failed { IfErr result (λ error. Fails error (whole_offer bytes.now)) }
{
    let rest = header_at(HEADER, bytes)?;
    let (head, rest) = read_head(rest)?;
    match table_of(alloc, rest) {
        Ok(built) => Ok((head, built)),
        Err(error) => Err(error),
    }
}

// The head at the front.
#[tactic(auto, unfolding(crate::specs::Offers::head_at))]
fn read_head(bytes: &[u8]) -> Result<(OfferHead, &[u8]), Fault>
    ensures { Reads (λ x. (x.0, x.1.now)) result (head_at bytes.now) }
{
    let (side, rest) = side_at(bytes)?;
    let (number, rest) = u64_at(rest)?;
    let (seed, rest) = u64_at(rest)?;
    let (uptime, rest) = u64_at(rest)?;
    Ok((
        OfferHead {
            side,
            number,
            seed,
            uptime,
        },
        rest,
    ))
}
