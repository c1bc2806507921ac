//! Tests of the verifier: the peak number of states, and code that needs ranges in both orders.
use crate::assertions::assert_gives;
use crate::sample_codes::{GREATER, longest_code};
use abstract_value::{Both, Domain, Interval};
use insn_codec::decode;
use std::alloc::Global;
use std::test::Fail;
use verifier::{Refusal, Rule, VerifyFault, read_program, verify, verify_peak, wider_theorem};

// Returns the number of slots and the peak number of states of accepted code.
fn slots_and_peak<D: Domain>(alloc: Global, bytes: &[u8]) -> Result<(usize, u32), Fail> {
    let code = decode(alloc, bytes)?;
    let slots = code.slot_count();
    let (answer, peak) = verify_peak::<D>(alloc, code);
    answer?;
    Ok((slots, peak))
}

#[test]
fn states_are_held_where_code_jumps(rt: HostRuntime) {
    let straight = slots_and_peak::<Both>(rt.alloc(), &longest_code());
    assert_gives(&rt, straight, (1024, 1));
    let jumping = slots_and_peak::<Interval>(rt.alloc(), &GREATER);
    assert_gives(&rt, jumping, (6, 2));
}

// Returns the number of instructions of a program.
fn len_of(alloc: Global, bytes: &[u8]) -> Result<usize, Fail> {
    Ok(read_program(alloc, bytes)?.code().len())
}

#[test]
fn reads_a_program(rt: HostRuntime) {
    let bytes = [0xb7, 0, 0, 0, 1, 0, 0, 0, 0x95, 0, 0, 0, 0, 0, 0, 0];
    assert_gives(&rt, len_of(rt.alloc(), &bytes), 2);
}

// Returns the number of instructions of accepted code, or the refusal.
fn judged<D: Domain>(alloc: Global, bytes: &[u8]) -> Result<Result<usize, Refusal>, Fail> {
    match verify::<D>(alloc, decode(alloc, bytes)?) {
        Ok(program) => Ok(Ok(program.code().len())),
        Err(VerifyFault::Refused(refusal)) => Ok(Err(refusal)),
        Err(VerifyFault::OutOfMemory) => Err(Fail::from("out of memory")),
    }
}

// A number between two signed tests is added to an address.
const TESTED: [u8; 56] = [
    0x79, 0x12, 0x40, 0, 0, 0, 0, 0, 0xb7, 0, 0, 0, 0, 0, 0, 0, 0xc5, 0x02, 0x03, 0, 0, 0, 0, 0,
    0x65, 0x02, 0x02, 0, 0x3f, 0, 0, 0, 0x0f, 0x21, 0, 0, 0, 0, 0, 0, 0x71, 0x10, 0x08, 0, 0, 0, 0,
    0, 0x95, 0, 0, 0, 0, 0, 0, 0,
];

// A byte is added to an address with its sign.
const LOADED: [u8; 56] = [
    0x91, 0x12, 0x08, 0, 0, 0, 0, 0, 0xb7, 0, 0, 0, 0, 0, 0, 0, 0x75, 0x02, 0x03, 0, 0, 0, 0, 0,
    0xbf, 0xa3, 0, 0, 0, 0, 0, 0, 0x0f, 0x23, 0, 0, 0, 0, 0, 0, 0x72, 0x03, 0, 0, 0x01, 0, 0, 0,
    0x95, 0, 0, 0, 0, 0, 0, 0,
];

type Judged = Result<usize, Refusal>;

// Returns the answers over ranges without signs, and over both kinds.
fn judged_by_both(alloc: Global, bytes: &[u8]) -> Result<(Judged, Judged), Fail> {
    Ok((
        judged::<Interval>(alloc, bytes)?,
        judged::<Both>(alloc, bytes)?,
    ))
}

#[test]
fn signed_bounds_are_enough_in_both_orders(rt: HostRuntime) {
    wider_theorem();
    let refusal = Refusal {
        slot: 4,
        rule: Rule::PointerRange,
    };
    assert_gives(
        &rt,
        judged_by_both(rt.alloc(), &TESTED),
        (Err(refusal), Ok(7)),
    );
    assert_gives(
        &rt,
        judged_by_both(rt.alloc(), &LOADED),
        (Err(refusal), Ok(7)),
    );
}
