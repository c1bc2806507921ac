//! Tests of decoding and encoding.
use crate::assertions::{assert_gives, assert_same};
use crate::sample_codes::{GREATER, longest_code};
use insn_codec::{CodecFault, LengthFault, SlotFault, decode, encode};
use instruction_set::{Opcode, SlotFields};
use std::alloc::Global;
use std::test::Fail;

// Returns the fault of these bytes, if any.
fn fault_of(alloc: Global, bytes: &[u8]) -> Option<CodecFault> {
    decode(alloc, bytes).err()
}

// Returns this fault at the first slot.
fn at_first(fault: SlotFault) -> CodecFault {
    CodecFault::Slot { fault, slot: 0 }
}

// Returns how many opcodes are decoded and how many are unknown, or the first with another fault.
fn count_opcodes(alloc: Global) -> Result<(u32, u32), (u8, CodecFault)> {
    let mut decoded: u32 = 0;
    let mut unknown: u32 = 0;
    for opcode in 0..=255u8 {
        let bytes = [opcode, 0, 0, 0, 0, 0, 0, 0, 0x95, 0, 0, 0, 0, 0, 0, 0];
        match fault_of(alloc, &bytes) {
            None => decoded = decoded.wrapping_add(1),
            Some(fault) if fault == at_first(SlotFault::UnknownOpcode) => {
                unknown = unknown.wrapping_add(1)
            }
            // Its second slot is `exit`, not the rest of its value.
            Some(fault) if opcode == 0x18 && fault == at_first(SlotFault::FieldNotZero) => {}
            Some(fault) => return Err((opcode, fault)),
        }
    }
    Ok((decoded, unknown))
}

#[test]
fn knows_112_opcodes(rt: HostRuntime) {
    assert_same(&rt, count_opcodes(rt.alloc()), Ok((112, 143)));
}

// Bytes, and their first fault: one of their length, or one of their first slot.
const OF_LENGTH: &[(&[u8], LengthFault)] = &[
    (&[], LengthFault::Empty),
    (&[0; 7], LengthFault::Ragged),
    (&[0; 8200], LengthFault::TooLong),
];

const OF_FIRST_SLOT: &[(&[u8], SlotFault)] = &[
    (
        &[0x18, 0, 0, 0, 1, 0, 0, 0, 0x95, 0, 0, 0, 0, 0, 0, 0],
        SlotFault::FieldNotZero,
    ),
    (
        &[0xb7, 0, 1, 0, 1, 0, 0, 0, 0x95, 0, 0, 0, 0, 0, 0, 0],
        SlotFault::FieldNotZero,
    ),
    (
        &[0xb7, 0x0b, 0, 0, 1, 0, 0, 0, 0x95, 0, 0, 0, 0, 0, 0, 0],
        SlotFault::BadRegister,
    ),
    (
        &[0x85, 0, 0, 0, 1, 0, 0, 0, 0x95, 0, 0, 0, 0, 0, 0, 0],
        SlotFault::UnknownOpcode,
    ),
    (&[0x18, 0, 0, 0, 1, 0, 0, 0], SlotFault::CutWide),
];

#[test]
fn names_the_first_fault(rt: HostRuntime) {
    for (bytes, fault) in OF_LENGTH {
        let wanted = Some(CodecFault::Length(*fault));
        assert_same(&rt, fault_of(rt.alloc(), bytes), wanted);
    }
    for (bytes, fault) in OF_FIRST_SLOT {
        assert_same(&rt, fault_of(rt.alloc(), bytes), Some(at_first(*fault)));
    }
}

// Returns the numbers of slots and of instructions of the code, and whether it encodes to the same bytes.
fn read_and_written(alloc: Global, bytes: &[u8]) -> Result<(usize, usize, bool), Fail> {
    let code = decode(alloc, bytes)?;
    let (slots, insns) = (code.slot_count(), code.len());
    let written = encode(alloc, &code)?;
    Ok((slots, insns, written.as_slice() == bytes))
}

#[test]
fn reads_what_it_wrote(rt: HostRuntime) {
    assert_gives(&rt, read_and_written(rt.alloc(), &GREATER), (6, 6, true));
    let longest = read_and_written(rt.alloc(), &longest_code());
    assert_gives(&rt, longest, (1024, 1024, true));
}

// Returns whether an instruction begins at each of these slots.
fn begins_at(alloc: Global, bytes: &[u8], slots: (usize, usize)) -> Result<(bool, bool), Fail> {
    let code = decode(alloc, bytes)?;
    Ok((code.begins(slots.0), code.begins(slots.1)))
}

// A wide load of two slots, and two more instructions.
const WIDE: [u8; 32] = [
    0x18, 0x01, 0, 0, 0x78, 0x56, 0x34, 0x12, // lddw r1, ..
    0, 0, 0, 0, 0xf0, 0xde, 0xbc, 0x9a, // .. 0x9abcdef012345678
    0x79, 0x12, 0xf8, 0xff, 0, 0, 0, 0, // ldxdw r2, [r1-8]
    0x95, 0, 0, 0, 0, 0, 0, 0, // exit
];

#[test]
fn begins_instructions(rt: HostRuntime) {
    assert_gives(&rt, begins_at(rt.alloc(), &GREATER, (5, 6)), (true, false));
    assert_gives(&rt, begins_at(rt.alloc(), &WIDE, (0, 1)), (true, false));
}

// The fields of a slot.
type Fields = (Opcode, u8, u8, u16, u32);

// Returns whether the first slots have these fields.
fn are_as_in_rows(slots: &[SlotFields], rows: &[Fields]) -> bool {
    for (slot, row) in slots.iter().zip(rows) {
        let (dst, src) = (slot.dst.number, slot.src.number);
        if (slot.opcode, dst, src, slot.offset, slot.imm) != *row {
            return false;
        }
    }
    true
}

// Returns the number of slots, and whether they have these fields.
fn has_slots(alloc: Global, bytes: &[u8], rows: &[Fields]) -> Result<(usize, bool), Fail> {
    let code = decode(alloc, bytes)?;
    let slots = code.slots();
    Ok((slots.len(), are_as_in_rows(slots, rows)))
}

// The slots of `WIDE`.
const SLOTS_OF_WIDE: &[Fields] = &[
    (Opcode::LoadWide, 1, 0, 0, 0x1234_5678),
    (Opcode::Second, 0, 0, 0, 0x9abc_def0),
    (Opcode::LoadDouble, 2, 1, 0xfff8, 0),
    (Opcode::Exit, 0, 0, 0, 0),
];

#[test]
fn lays_out_each_slot(rt: HostRuntime) {
    assert_gives(&rt, has_slots(rt.alloc(), &WIDE, SLOTS_OF_WIDE), (4, true));
}
