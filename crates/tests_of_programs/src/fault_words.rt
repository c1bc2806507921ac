//! Tests of the words, the numbers and the places of refusals.
use crate::assertions::{assert_gives, assert_same};
use assembler_text::{Fault, LineFault};
use insn_codec::{CodecFault, LengthFault, SlotFault};
use refusals::{Numbered, Place};
use std::alloc::Global;
use std::fmt::Display;
use std::test::Fail;
use verifier::{ProgramFault, Rule, read_program};

/// Returns whether the value is displayed as these words.
pub(crate) fn is_displayed_as<F: Display>(
    alloc: Global,
    value: &F,
    words: &str,
) -> Result<bool, Fail> {
    Ok(format!(in alloc; "{value}")?.as_str() == words)
}

// Returns the first words that aren't those of their fault.
fn first_misworded<F: Display>(
    alloc: Global,
    rows: &[(F, &'static str)],
) -> Result<Option<&'static str>, Fail> {
    for (fault, words) in rows {
        if !is_displayed_as(alloc, fault, words)? {
            return Ok(Some(words));
        }
    }
    Ok(None)
}

// A fault of bytes with a slot.
const BAD_REGISTER: CodecFault = CodecFault::Slot {
    fault: SlotFault::BadRegister,
    slot: 3,
};

// Faults of bytes, each with its words.
const OF_BYTES: &[(CodecFault, &'static str)] = &[
    (
        CodecFault::Length(LengthFault::Empty),
        "empty: no byte, or a text without an instruction",
    ),
    (BAD_REGISTER, "slot 3: a register above R10"),
    (CodecFault::OutOfMemory, "out of memory"),
];

// Faults of listings, each with its words.
const OF_LISTINGS: &[(LineFault, &'static str)] = &[
    (
        LineFault::Line {
            fault: Fault::Mnemonic,
            line: 7,
        },
        "line 7: an unknown mnemonic",
    ),
    (
        LineFault::Line {
            fault: Fault::Operand,
            line: 7,
        },
        "line 7: an operand is missing or invalid",
    ),
    (
        LineFault::Line {
            fault: Fault::NumberRange,
            line: 7,
        },
        "line 7: a number out of range",
    ),
    (
        LineFault::Line {
            fault: Fault::LineEnd,
            line: 7,
        },
        "line 7: extra text after the last operand",
    ),
    (
        LineFault::TooLong { line: 1025 },
        "line 1025: more than 1,024 slots",
    ),
    (
        LineFault::Empty,
        "line 1: empty: no byte, or a text without an instruction",
    ),
    (LineFault::OutOfMemory, "out of memory"),
];

// Returns the fault of the bytes of a program.
fn program_fault(alloc: Global, bytes: &[u8]) -> Result<ProgramFault, Fail> {
    Ok(read_program(alloc, bytes).err().ok_or("accepted")?)
}

// Returns whether the bytes are refused with this number, this place and these words.
fn is_refused_with(
    alloc: Global,
    bytes: &[u8],
    numbered: (u32, Option<Place>),
    words: &str,
) -> Result<bool, Fail> {
    let fault = program_fault(alloc, bytes)?;
    Ok((fault.number(), fault.place()) == numbered && is_displayed_as(alloc, &fault, words)?)
}

// Bytes, and the number, the place and the words with which they are refused.
type Refused = (&'static [u8], u32, Option<Place>, &'static str);

const OF_PROGRAMS: &[Refused] = &[
    (
        &[],
        1,
        None,
        "empty: no byte, or a text without an instruction",
    ),
    (
        &[0x95, 0, 0, 0, 0, 0, 0],
        3,
        None,
        "an incomplete last slot",
    ),
    (
        &[0xbf, 0x20, 0, 0, 0, 0, 0, 0, 0x95, 0, 0, 0, 0, 0, 0, 0],
        15,
        Some(Place::Slot(0)),
        "slot 0: a read of a register that may be unset, or may be an address or a number",
    ),
    (
        &[0xbf, 0x20, 0, 0, 0, 0, 0, 0, 0, 0, 0, 0, 0, 0, 0, 0],
        4,
        Some(Place::Slot(1)),
        "slot 1: an unknown opcode or operation",
    ),
];

// Returns the words of the first row whose bytes are refused otherwise.
fn first_refused_otherwise(alloc: Global, rows: &[Refused]) -> Result<Option<&'static str>, Fail> {
    for (bytes, number, place, words) in rows {
        if !is_refused_with(alloc, bytes, (*number, *place), words)? {
            return Ok(Some(words));
        }
    }
    Ok(None)
}

#[test]
fn of_programs(rt: HostRuntime) {
    assert_gives(&rt, first_refused_otherwise(rt.alloc(), OF_PROGRAMS), None);
}

// Each rule with its words.
const RULES: &[(Rule, &'static str)] = &[
    (Rule::Backward, "a backward jump"),
    (Rule::Outside, "a jump to the end or past it"),
    (Rule::IntoWide, "a jump into a wide load"),
    (
        Rule::FallsOff,
        "the last instruction neither exits nor jumps",
    ),
    (Rule::NoEdge, "an unreachable instruction"),
    (
        Rule::Unreadable,
        "a read of a register that may be unset, or may be an address or a number",
    ),
    (Rule::WritesR10, "a write to R10"),
    (
        Rule::PointerOperation,
        "an address in an operation that addresses don't have",
    ),
    (
        Rule::PointerRange,
        "an address moved too far, or by an unknown amount",
    ),
    (Rule::PointerCompared, "an address in a test"),
    (Rule::PointerStored, "a store of an address"),
    (Rule::OutsideRecord, "an access that may leave the record"),
    (Rule::WritesRecord, "a store into the record"),
    (Rule::OutsideStack, "an access that may leave the stack"),
    (
        Rule::UnwrittenStack,
        "a load of stack bytes that may be unwritten",
    ),
    (Rule::ScalarAddress, "a number used as an address"),
    (Rule::PointerResult, "an address as the answer"),
];

#[test]
fn of_bytes_listings_and_rules(rt: HostRuntime) {
    let numbered = (BAD_REGISTER.number(), BAD_REGISTER.place());
    assert_same(&rt, numbered, (5, Some(Place::Slot(3))));
    assert_gives(&rt, first_misworded(rt.alloc(), OF_BYTES), None);
    assert_gives(&rt, first_misworded(rt.alloc(), OF_LISTINGS), None);
    assert_gives(&rt, first_misworded(rt.alloc(), RULES), None);
}
