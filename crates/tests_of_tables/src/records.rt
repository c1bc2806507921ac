//! The record of two registrations of `db`, names that are none, and the orders.
use crate::assertions::{assert_gives, assert_same};
use crate::wordings::{Worded, first_misworded};
use clash_record::{
    BadName, Builtin, Facts, Owner, ProgramId, RECORD_LEN, Registration, ResolverId, name,
    order_theorem, record, record_of,
};
use fixtures::EXIT;
use std::test::Fail;

// The facts of an unknown half.
const NO_FACTS: Facts = Facts { size: 0, uptime: 0 };

// The name db, word 7, the first 1.10 with stamp 5, the second 2.20 with stamp 9, and no facts.
#[rattlefmt::skip]
const DB: [u8; RECORD_LEN] = [
    0x02, 0x00, 0x00, 0x00, 0x00, 0x00, 0x00, 0x00, 0x64, 0x62, 0x00, 0x00, 0x00, 0x00, 0x00, 0x00,
    0x00, 0x00, 0x00, 0x00, 0x00, 0x00, 0x00, 0x00, 0x00, 0x00, 0x00, 0x00, 0x00, 0x00, 0x00, 0x00,
    0x00, 0x00, 0x00, 0x00, 0x00, 0x00, 0x00, 0x00, 0x07, 0x00, 0x00, 0x00, 0x00, 0x00, 0x00, 0x00,
    0x01, 0x00, 0x00, 0x00, 0x0a, 0x00, 0x00, 0x00, 0x05, 0x00, 0x00, 0x00, 0x00, 0x00, 0x00, 0x00,
    0x00, 0x00, 0x00, 0x00, 0x00, 0x00, 0x00, 0x00, 0x00, 0x00, 0x00, 0x00, 0x00, 0x00, 0x00, 0x00,
    0x00, 0x00, 0x00, 0x00, 0x00, 0x00, 0x00, 0x00, 0x02, 0x00, 0x00, 0x00, 0x14, 0x00, 0x00, 0x00,
    0x09, 0x00, 0x00, 0x00, 0x00, 0x00, 0x00, 0x00, 0x00, 0x00, 0x00, 0x00, 0x00, 0x00, 0x00, 0x00,
    0x00, 0x00, 0x00, 0x00, 0x00, 0x00, 0x00, 0x00, 0x00, 0x00, 0x00, 0x00, 0x00, 0x00, 0x00, 0x00,
    0x00, 0x00, 0x00, 0x00, 0x00, 0x00, 0x00, 0x00, 0x00, 0x00, 0x00, 0x00, 0x00, 0x00, 0x00, 0x00,
    0x00, 0x00, 0x00, 0x00, 0x00, 0x00, 0x00, 0x00, 0x00, 0x00, 0x00, 0x00, 0x00, 0x00, 0x00, 0x00,
];

fn registration(node: u32, serial: u32, stamp: u64) -> Registration {
    Registration {
        owner: Owner { node, serial },
        stamp,
        weight: 0,
        extra: [0; 16],
        resolver: EXIT,
    }
}

// Returns the bytes of the record of the name db at word 7, with these facts.
fn db_with(of_first: Facts, of_second: Facts) -> Result<[u8; RECORD_LEN], Fail> {
    let first = registration(1, 10, 5);
    let second = registration(2, 20, 9);
    let made = record(&name(b"db")?, &first, &second, 7, of_first, of_second);
    Ok(*made.bytes())
}

#[test]
fn record_of_db(rt: HostRuntime) {
    assert_gives(&rt, db_with(NO_FACTS, NO_FACTS), DB);
    assert_same(&rt, *record_of(DB).bytes(), DB);
}

// Sizes and uptimes stand after the registrations, little-endian, those of the first registration's half first.
#[rattlefmt::skip]
const FACTS: [u8; 32] = [
    0x02, 0x01, 0x00, 0x00, 0x00, 0x00, 0x00, 0x00, 0x03, 0x00, 0x00, 0x00, 0x00, 0x00, 0x00, 0x80,
    0x04, 0x00, 0x00, 0x00, 0x00, 0x00, 0x00, 0x00, 0x05, 0x00, 0x00, 0x00, 0x00, 0x00, 0x00, 0x00,
];

// Returns the record `DB` with these facts in place of none.
fn db_and_facts() -> [u8; RECORD_LEN] {
    let mut bytes = DB;
    bytes[128..].copy_from_slice(&FACTS);
    bytes
}

#[test]
fn record_with_facts(rt: HostRuntime) {
    let of_first = Facts {
        size: 0x102,
        uptime: (1 << 63) + 3,
    };
    let of_second = Facts { size: 4, uptime: 5 };
    assert_gives(&rt, db_with(of_first, of_second), db_and_facts());
}

// No byte, a space, 33 bytes, and a name of the most bytes.
const NAMES: &[(&str, Option<BadName>)] = &[
    ("", Some(BadName)),
    ("a b", Some(BadName)),
    ("aaaaaaaaaaaaaaaaaaaaaaaaaaaaaaaaa", Some(BadName)),
    ("~~~~~~~~~~~~~~~~~~~~~~~~~~~~~~~~", None),
];

// The refusal of a name that is none.
const BAD_NAME: &[Worded<BadName>] = &[(
    BadName,
    44,
    None,
    "an invalid name: not 1 to 32 bytes from 0x21 to 0x7e",
)];

#[test]
fn names_that_are_none(rt: HostRuntime) {
    for (text, refusal) in NAMES {
        assert_same(&rt, name(text.as_bytes()).err(), *refusal);
    }
    assert_gives(&rt, first_misworded(rt.alloc(), BAD_NAME), None);
}

// Returns whether a precedes ab, whether ab precedes b, whether ab is ab, and whether it has these bytes and this text.
fn ordered() -> Result<[bool; 5], Fail> {
    let (a, ab, b) = (name(b"a")?, name(b"ab")?, name(b"b")?);
    let again = name(b"ab")?;
    let is_text = ab.as_str() == "ab";
    Ok([
        a < ab,
        ab < b,
        ab == again,
        ab.bytes() == b"ab".as_slice(),
        is_text,
    ])
}

#[test]
fn names_in_order(rt: HostRuntime) {
    assert_gives(&rt, ordered(), [true; 5]);
}

#[test]
fn registrations_in_order(rt: HostRuntime) {
    order_theorem();
    let earlier = registration(1, 9, 0);
    let later = registration(2, 1, 0);
    assert!(rt; earlier.precedes(&later));
    assert!(rt; !later.precedes(&earlier));
    assert!(rt; !later.precedes(&later));
    let mut program = earlier;
    program.resolver = ResolverId::Program(ProgramId([0; 32]));
    let mut all = earlier;
    all.resolver = ResolverId::Builtin(Builtin::NotifyAll);
    assert!(rt; all.precedes(&program));
    assert!(rt; earlier.precedes(&all));
}
