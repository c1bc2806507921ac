//! Tests of the assembler and the disassembler.
use crate::assertions::{assert_gives, assert_same};
use crate::fault_words::is_displayed_as;
use assembler_text::{Listing, assemble, disassemble};
use instruction_set::Insn;
use refusals::{Numbered, Place};
use std::alloc::Global;
use std::test::Fail;

const GREATER_TEXT: &str =
    "ldxdw r2, [r1+56]\nldxdw r3, [r1+96]\nmov64 r0, 1\njge r2, r3, +1\nmov64 r0, 2\nexit\n";

// The same code as in docs/TEXT.md.
const COMMENTED: &str =
    "; the registration with the later stamp keeps the name; of equal ones the first
        ldxdw r2, [r1+56]      ; the first stamp
        ldxdw r3, [r1+96]      ; the second stamp
        mov64 r0, 0x1
        jge r2, r3, +1         ; past the next slot
        mov64 r0, 2
        exit
";

// Listings with the numbers and the lines of their refusals.
const REFUSED: &[(&str, u32, usize)] = &[
    ("foo", 60, 1),
    ("mov", 60, 1),
    ("mov64s64 r0, r1", 60, 1),
    ("ldxsdw r0, [r1+0]", 60, 1),
    ("exit,", 60, 1),
    ("ja+1", 60, 1),
    ("exit\r", 60, 1),
    ("\r", 60, 1),
    ("mov64", 61, 1),
    ("mov64 r0", 61, 1),
    ("mov64 r11, 1", 61, 1),
    ("mov64 r0, -0", 61, 1),
    ("mov64 r0, 01", 61, 1),
    ("mov64 r0, 1x", 61, 1),
    ("mov64 r0, +1", 61, 1),
    ("mov64 r0, 0x", 61, 1),
    ("mov64 r0, 0X1", 61, 1),
    ("mov64 r0 1", 61, 1),
    ("mov64 r0, , 1", 61, 1),
    ("mov64 r0, x 2", 61, 1),
    ("mov64 r11, 2147483648", 61, 1),
    ("ja 1", 61, 1),
    ("lddw r0, -1", 61, 1),
    ("ldxb r0, [r1]", 61, 1),
    ("ldxb r0, [r1-0]", 61, 1),
    ("ldxb r0, [r1+ 1]", 61, 1),
    ("ldxb r0, [r1+99999", 61, 1),
    ("ldxb r0, [r1+99999]", 62, 1),
    ("mov64 r0, 2147483648", 62, 1),
    ("mov64 r0, 0x100000000 2", 62, 1),
    ("ja +32768", 62, 1),
    ("lddw r0, 18446744073709551616", 62, 1),
    ("mov64 r0, 1 2", 63, 1),
    ("exit r1", 63, 1),
    ("; c\n\nexit r1", 63, 3),
    ("; c", 1, 1),
    ("", 1, 1),
    ("exit\nfoo\nja 1", 60, 2),
];

// Listings with the disassembly of their code.
const ACCEPTED: &[(&str, &str)] = &[
    (GREATER_TEXT, GREATER_TEXT),
    ("mov64 r0, 0x0000000001", "mov64 r0, 1\n"),
    ("mov64 r0, 0xFfFfFfFf", "mov64 r0, -1\n"),
    ("mov64 r0, -2147483648", "mov64 r0, -2147483648\n"),
    ("\t mov64\tr0 ,\t1 ; 1", "mov64 r0, 1\n"),
    ("exit;", "exit\n"),
    ("ja -32768;x", "ja -32768\n"),
    ("jal +2147483647", "jal +2147483647\n"),
    ("stb [r1-1], 0x7F", "stb [r1-1], 127\n"),
    (
        "lddw r10, 0x00ffffffffffffffff",
        "lddw r10, 18446744073709551615\n",
    ),
    ("jslt32 r1,r2,+0", "jslt32 r1, r2, +0\n"),
];

// Returns the number and the line of a refusal; line 0 if it has none.
fn refusal(alloc: Global, text: &str) -> Option<(u32, usize)> {
    let fault = assemble(alloc, text).err()?;
    match fault.place() {
        Some(Place::Line(line)) => Some((fault.number(), line)),
        _ => Some((fault.number(), 0)),
    }
}

// Returns the first listing that isn't refused with its number and line.
fn first_not_refused(alloc: Global, rows: &[(&'static str, u32, usize)]) -> Option<&'static str> {
    for (text, number, line) in rows {
        if refusal(alloc, text) != Some((*number, *line)) {
            return Some(text);
        }
    }
    None
}

// Returns whether the first listing assembles to code whose disassembly is the second.
fn is_written_as(alloc: Global, text: &str, written: &str) -> bool {
    let Ok(code) = assemble(alloc, text) else {
        return false;
    };
    disassemble(alloc, &code).is_ok_and(|text| text.as_str() == written)
}

// Returns the first listing that isn't written as its disassembly.
fn first_not_written(alloc: Global, rows: &[(&'static str, &'static str)]) -> Option<&'static str> {
    for (text, written) in rows {
        if !is_written_as(alloc, text, written) {
            return Some(text);
        }
    }
    None
}

#[test]
fn refused_and_accepted(rt: HostRuntime) {
    assert_same(&rt, first_not_refused(rt.alloc(), REFUSED), None);
    assert_same(&rt, first_not_written(rt.alloc(), ACCEPTED), None);
}

// Returns the number of instructions of the first listing, and whether the second has the same code.
fn len_and_same(alloc: Global, text: &str, other: &str) -> Option<(usize, bool)> {
    let code = assemble(alloc, text).ok()?;
    let same = assemble(alloc, other).is_ok_and(|other| other == code);
    Some((code.len(), same))
}

#[test]
fn displays_one_insn(rt: HostRuntime) {
    let jump = Listing(Insn::Jump { distance: -2 });
    assert_gives(&rt, is_displayed_as(rt.alloc(), &jump, "ja -2"), true);
}

#[test]
fn comments_change_nothing(rt: HostRuntime) {
    let seen = len_and_same(rt.alloc(), GREATER_TEXT, COMMENTED);
    assert_same(&rt, seen, Some((6, true)));
}

// Returns the refusal of a listing with this text after 1,024 lines of one slot each.
fn refusal_after_1024(alloc: Global, goes_on: &str) -> Result<Option<(u32, usize)>, Fail> {
    let mut text = String::new(alloc);
    for _ in 0..1024 {
        text.push_str("exit\n")?;
    }
    text.push_str(goes_on)?;
    Ok(refusal(alloc, text.as_str()))
}

// What comes after 1,024 slots, and the refusal.
const AFTER_1024: &[(&str, Option<(u32, usize)>)] = &[
    ("", None),
    ("exit", Some((2, 1025))),
    ("exit r1", Some((63, 1025))),
];

#[test]
fn too_many_slots(rt: HostRuntime) {
    for (goes_on, refused) in AFTER_1024 {
        assert_gives(&rt, refusal_after_1024(rt.alloc(), goes_on), *refused);
    }
}
