//! Tests of refusals: the number and the slot.
use crate::context_codes::{ABOVE_NINE, STORES, byte_at};
use bpf::load;
use refusals::{NumberedRefusal, Place, refusal_of};
use std::alloc::Global;

// Returns the refusal of bytes, if any, for contexts of this length.
fn refusal(alloc: Global, code: &[u8], context_len: u16) -> Option<NumberedRefusal> {
    match load(alloc, code, context_len) {
        Ok(_) => None,
        Err(fault) => Some(refusal_of(&fault)),
    }
}

// Returns the refusal of this number, at a slot or at none.
fn refusal_with(number: u32, slot: Option<u32>) -> NumberedRefusal {
    NumberedRefusal {
        number,
        place: slot.map(Place::Slot),
    }
}

// Returns the first of these lengths of contexts of which the byte past the end isn't refused, or the last byte is.
fn first_not_refused_past(alloc: Global, lengths: &[u16]) -> Option<u16> {
    for context_len in lengths {
        let code = byte_at(*context_len);
        if refusal(alloc, &code, *context_len) != Some(refusal_with(21, Some(1)))
            || refusal(alloc, &code, context_len.wrapping_add(1)).is_some()
        {
            return Some(*context_len);
        }
    }
    None
}

#[test]
fn the_byte_past_the_context_is_refused(rt: HostRuntime) {
    let other = first_not_refused_past(rt.alloc(), &[0, 63, 159, 65_534]);
    assert_eq!(rt; other, None);
}

// A code, the length of its contexts, the number of its refusal, and the slot where it has one.
type Refused = (&'static [u8], u16, u32, Option<u32>);

const REFUSED: [Refused; 6] = [
    (&[], 64, 1, None),
    (&[0xff; 8], 64, 4, Some(0)),
    (&[0xb7, 0, 0, 0, 7, 0, 0, 0], 64, 13, Some(0)),
    (&STORES, 0, 21, Some(1)),
    (&STORES, 1, 22, Some(1)),
    (&ABOVE_NINE, 63, 21, Some(0)),
];

// Returns the place of the first code that isn't refused so, and its refusal.
fn first_other(alloc: Global, rows: &[Refused]) -> Option<(usize, Option<NumberedRefusal>)> {
    for (place, (code, context_len, number, slot)) in rows.iter().enumerate() {
        let found = refusal(alloc, code, *context_len);
        if found != Some(refusal_with(*number, *slot)) {
            return Some((place, found));
        }
    }
    None
}

#[test]
fn code_is_refused_by_its_first_fault(rt: HostRuntime) {
    assert_eq!(rt; first_other(rt.alloc(), &REFUSED), None);
}
