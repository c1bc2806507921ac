//! Tests of the peak number of states, on code with tests in a row.
//!
//! A slot holds a state from the first edge into it that carries one until the slot is visited. The peaks in the rows
//! follow from this: they are counted by hand.
use crate::assertions::assert_gives;
use abstract_value::{Both, Domain, Interval};
use assembler_text::assemble;
use std::alloc::Global;
use std::fmt::Write;
use std::test::Fail;
use verifier::{Refusal, Rule, VerifyFault, verify_peak};

// The targets of tests in a row.
#[derive(Clone, Copy, Debug, PartialEq, Eq)]
enum Targets {
    // Each to another slot, a later test to a later slot.
    Rising,
    // Each to another slot, a later test to an earlier slot.
    Falling,
    // All to the last slot.
    Last,
    // Each to the slot after it.
    Next,
    // Each to another slot, but none ever jumps.
    Dead,
}

// Returns the distance over which a test jumps that `after` of the tests follow.
fn distance(targets: Targets, tests: u16, after: u16) -> u32 {
    match targets {
        Targets::Rising | Targets::Dead => u32::from(tests),
        Targets::Falling => 2 * u32::from(after) + 1,
        Targets::Last => u32::from(tests) + u32::from(after),
        Targets::Next => 0,
    }
}

// Writes tests from slot 1 on, `then` in the slot after them, and moves up to `exit` in the last slot. No range decides
// a `jset`; R0 is 0, so no `jne` jumps.
fn write_listing(text: &mut String, targets: Targets, tests: u16, then: &str) -> Result<(), Fail> {
    let test = if targets == Targets::Dead {
        "jne"
    } else {
        "jset"
    };
    text.push_str("mov64 r0, 0\n")?;
    for after in (0..tests).rev() {
        writeln!(text, "{test} r0, 0, +{}", distance(targets, tests, after))?;
    }
    text.push_str(then)?;
    for _ in 1..tests {
        text.push_str("mov64 r0, 0\n")?;
    }
    text.push_str("exit\n")?;
    Ok(())
}

// Returns the peak, and the refusal of code that is refused.
fn peak_of<D: Domain>(alloc: Global, text: &str) -> Result<(u32, Option<Refusal>), Fail> {
    match verify_peak::<D>(alloc, assemble(alloc, text)?) {
        (Ok(_), peak) => Ok((peak, None)),
        (Err(VerifyFault::Refused(refusal)), peak) => Ok((peak, Some(refusal))),
        (Err(VerifyFault::OutOfMemory), _) => Err(Fail::from("out of memory")),
    }
}

// Returns the peak of such a listing, and the refusal of one that is refused.
fn peak_of_tests<D: Domain>(
    alloc: Global,
    targets: Targets,
    tests: u16,
    then: &str,
) -> Result<(u32, Option<Refusal>), Fail> {
    let mut text = String::new(alloc);
    write_listing(&mut text, targets, tests, then)?;
    peak_of::<D>(alloc, text.as_str())
}

// Tests, and the peak.
const PEAKS: &[(Targets, u16, u32)] = &[
    (Targets::Rising, 1, 2),
    (Targets::Rising, 2, 3),
    (Targets::Rising, 3, 4),
    (Targets::Rising, 9, 10),
    (Targets::Rising, 511, 512),
    (Targets::Falling, 1, 2),
    (Targets::Falling, 2, 3),
    (Targets::Falling, 100, 101),
    (Targets::Falling, 511, 512),
    (Targets::Last, 1, 2),
    (Targets::Last, 2, 2),
    (Targets::Last, 511, 2),
    (Targets::Next, 1, 1),
    (Targets::Next, 511, 1),
    (Targets::Dead, 2, 1),
    (Targets::Dead, 511, 1),
];

// Returns the first row with another peak.
fn first_other_peak<D: Domain>(alloc: Global) -> Result<Option<(Targets, u16, u32)>, Fail> {
    for row in PEAKS {
        let (targets, tests, peak) = *row;
        let seen = peak_of_tests::<D>(alloc, targets, tests, "mov64 r0, 0\n")?;
        if seen != (peak, None) {
            return Ok(Some(*row));
        }
    }
    Ok(None)
}

#[test]
fn a_state_waits_at_each_live_target(rt: HostRuntime) {
    assert_gives(&rt, first_other_peak::<Interval>(rt.alloc()), None);
    assert_gives(&rt, first_other_peak::<Both>(rt.alloc()), None);
}

// Tests before a slot that is refused, and the peak up to there.
const PEAKS_AT_REFUSALS: &[(Targets, u16, u32)] = &[
    (Targets::Rising, 3, 4),
    (Targets::Last, 7, 2),
    (Targets::Next, 7, 1),
];

fn refused_at(slot: u32, rule: Rule) -> Option<Refusal> {
    Some(Refusal { slot, rule })
}

#[test]
fn refused_code_has_the_peak_up_to_the_refusal(rt: HostRuntime) {
    for (targets, tests, peak) in PEAKS_AT_REFUSALS {
        let seen = peak_of_tests::<Both>(rt.alloc(), *targets, *tests, "mov64 r0, r2\n");
        let unreadable = refused_at(u32::from(*tests) + 1, Rule::Unreadable);
        assert_gives(&rt, seen, (*peak, unreadable));
    }
    let seen = peak_of::<Both>(rt.alloc(), "mov64 r0, 0\n");
    assert_gives(&rt, seen, (0, refused_at(0, Rule::FallsOff)));
}
