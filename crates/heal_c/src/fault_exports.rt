//! What is wrong with a message: the fault in full.
ghost use Rattle.std.specs.Prelude.{◌≡◌};
ghost use Rattle.exchange_codec.specs.Faults.{item_fault_number};
ghost use Rattle.heal_c.specs.Faults as spec;
ghost use Rattle.heal_c.specs.Faults.{IsOfferRead, IsListRead};

use c_calls::slot_of;
use exchange_codec::{ItemFault, MessageFault, decode_offer, decode_withdrawals};
use refusals::Numbered;
use std::alloc::Global;

/// A refusal in full. `place` is 0 for none, 1 for the byte and 2 for the row or the name with the index `at`. For 81 `reason` is
/// the refusal of the code, and `slot` its slot; otherwise they are 0. `reserved` is written as 0.
#[repr(C)]
#[derive(Clone, Copy, Debug)]
pub struct HealFault {
    pub number: u32,
    pub place: u32,
    pub at: u64,
    pub reason: u32,
    pub slot: u32,
    pub reserved: u64,
}

const BYTE: u32 = 1;

const ITEM: u32 = 2;

/// Reads bytes as an offer, writes their first fault in full, and returns its number, or 0 for an offer.
///
/// Returns 90 when out of memory.
#[unsafe(no_mangle)]
pub extern "C" fn heal_offer_fault(alloc: Global, offer: &[u8], fault: &mut HealFault) -> u32
    ensures found { IsOfferRead offer.now fault.new }
    ensures number { result ≡ fault.new.number }
{
    *fault = offer_fault(alloc, offer);
    fault.number
}

/// Reads bytes as a list, writes their first fault in full, and returns its number, or 0 for a list.
///
/// Returns 90 when out of memory.
#[unsafe(no_mangle)]
pub extern "C" fn heal_list_fault(alloc: Global, list: &[u8], fault: &mut HealFault) -> u32
    ensures found { IsListRead list.now fault.new }
    ensures number { result ≡ fault.new.number }
{
    *fault = list_fault(alloc, list);
    fault.number
}

// Finds the first fault of an offer.
fn offer_fault(alloc: Global, bytes: &[u8]) -> HealFault
    ensures { IsOfferRead bytes.now result }
{
    fault_in(&decode_offer(alloc, bytes))
}

// Finds the first fault of a list.
#[tactic(auto, using(crate::proofs::Explaining::list_found))]
fn list_fault(alloc: Global, bytes: &[u8]) -> HealFault
    ensures { IsListRead bytes.now result }
{
    fault_in(&decode_withdrawals(alloc, bytes))
}

// Writes the fault, or none.
fn fault_in<T>(read: &Result<T, MessageFault>) -> HealFault
    ensures { result ≡ spec.fault_in read.now }
{
    match read {
        Ok(_) => numbered(0),
        Err(fault) => fault_code(fault),
    }
}

// Writes a refusal without a place.
fn numbered(number: u32) -> HealFault
    ensures { result ≡ spec.bare_fault number }
{
    HealFault {
        number,
        place: 0,
        at: 0,
        reason: 0,
        slot: 0,
        reserved: 0,
    }
}

// Writes a fault of a message.
fn fault_code(fault: &MessageFault) -> HealFault
    ensures { result ≡ spec.fault_code fault.now }
{
    let number = fault.number();
    match *fault {
        MessageFault::Field { at, .. } => placed(number, BYTE, at),
        MessageFault::Item { fault, at } => item_code(&fault, number, at),
        MessageFault::OutOfMemory => numbered(number),
    }
}

// Writes a fault of a row or a name.
fn item_code(fault: &ItemFault, number: u32, at: usize) -> HealFault
    requires { number ≡ item_fault_number fault.now }
    ensures { result ≡ spec.item_code fault.now at }
{
    match fault {
        ItemFault::Program(inner) => HealFault {
            number,
            place: ITEM,
            at: at as u64,
            reason: inner.number(),
            slot: slot_of(inner),
            reserved: 0,
        },
        _ => placed(number, ITEM, at),
    }
}

// Writes a refusal with a place.
fn placed(number: u32, place: u32, at: usize) -> HealFault
    ensures { result ≡ record { number = number; place = place; at = at; reason = 0; slot = 0; reserved = 0 } }
{
    HealFault {
        number,
        place,
        at: at as u64,
        reason: 0,
        slot: 0,
        reserved: 0,
    }
}
