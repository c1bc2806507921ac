//! Tests of judging, checking and disassembling code.
use crate::asking::{Ask, Clash, DB, EXIT, Group, ON_DB, first_wrong, is_judged};
use questions::Profile;
use std::test::Fail;

/// Judges by the stamps.
pub(crate) const STAMPS: &'static str =
    "7912380000000000 7913600000000000 b700000001000000 3d32010000000000 b700000002000000 X";

/// The same as text.
pub(crate) const LISTING: &'static str =
    "ldxdw r2, [r1+56]\nldxdw r3, [r1+96]\nmov64 r0, 1\njge r2, r3, +1\nmov64 r0, 2\nexit\n";

// Code, whose last slot X is `exit`, and what is printed of its verdict on the clash `db`.
const VERDICTS: [(&'static str, &'static str); 19] = [
    ("b700000001000000 X", "first in 2 steps\n"),
    (STAMPS, "second in 6 steps\n"),
    ("7910780000000000 X", "none in 2 steps\n"),
    ("7910790000000000 X", "none in 2 steps\n"),
    ("7910980000000000 X", "none in 2 steps\n"),
    (
        "7112080000000000 570200001f000000 0f21000000000000 7110080000000000 X",
        "none in 5 steps\n",
    ),
    (
        "7112080000000000 570200007f000000 0f21000000000000 7110080000000000 X",
        "none in 5 steps\n",
    ),
    ("b4000000ffffffff 0400000001000000 X", "none in 3 steps\n"),
    (
        "b7000000f3ffffff 9700010003000000 0700000002000000 X",
        "first in 4 steps\n",
    ),
    ("b700000007000000 3700000000000000 X", "none in 3 steps\n"),
    ("7a0af8ff02000000 79a0f8ff00000000 X", "second in 3 steps\n"),
    ("7a0a3cfe02000000 79a03cfe00000000 X", "second in 3 steps\n"),
    ("720a00fe01000000 71a000fe00000000 X", "first in 3 steps\n"),
    (
        "7112080000000000 b700000000000000 2502020077000000 0f21000000000000 7110080000000000 X",
        "none in 6 steps\n",
    ),
    (
        "7112080000000000 b700000000000000 2502020078000000 0f21000000000000 7110080000000000 X",
        "none in 6 steps\n",
    ),
    (
        "7112080000000000 b700000000000000 2502020097000000 0f21000000000000 7110080000000000 X",
        "none in 6 steps\n",
    ),
    (
        "b700000001000000 1500010001000000 bf20000000000000 X",
        "first in 3 steps\n",
    ),
    ("1800000001000000 0000000002000000 X", "none in 2 steps\n"),
    (
        "bfa2000000000000 07020000f8ffffff 7a02000002000000 7920000000000000 X",
        "second in 5 steps\n",
    ),
];

/// Texts that aren't code, and their answers.
const NO_CODE: [(&'static str, &'static str); 8] = [
    ("", "refused 1\n"),
    ("95000000000000", "refused 3\n"),
    ("1800000001000000", "refused 7 at slot 0\n"),
    ("b700010001000000 X", "refused 6 at slot 0\n"),
    ("b70b000001000000 X", "refused 5 at slot 0\n"),
    ("8500000001000000 X", "refused 4 at slot 0\n"),
    ("05000ffff", "refused 50\n"),
    ("0500000000000000g", "refused 50\n"),
];

/// Code that isn't accepted, and the answers with the rule that it fails and the slot.
const UNSAFE: [(&'static str, &'static str); 32] = [
    ("0500ffff00000000 X", "refused 10 at slot 0\n"),
    ("3d11ffff00000000 X", "refused 10 at slot 0\n"),
    ("0500050000000000 X", "refused 11 at slot 0\n"),
    (
        "0500010000000000 1800000001000000 0000000000000000 X",
        "refused 12 at slot 0\n",
    ),
    ("b700000001000000", "refused 13 at slot 0\n"),
    (
        "0500010000000000 b700000001000000 X",
        "refused 14 at slot 1\n",
    ),
    ("bf20000000000000 X", "refused 15 at slot 0\n"),
    ("bf2a000000000000 X", "refused 15 at slot 0\n"),
    (
        "7912080000000000 b700000001000000 1502010000000000 bf10000000000000 X",
        "refused 15 at slot 4\n",
    ),
    ("b70a000001000000 X", "refused 16 at slot 0\n"),
    ("0f1a000000000000 X", "refused 16 at slot 0\n"),
    ("791a790000000000 X", "refused 16 at slot 0\n"),
    ("2701000002000000 X", "refused 17 at slot 0\n"),
    ("0701000000000100 X", "refused 18 at slot 0\n"),
    ("1501000000000000 X", "refused 19 at slot 0\n"),
    ("7b1af8ff00000000 X", "refused 20 at slot 0\n"),
    ("7b11000000000000 X", "refused 20 at slot 0\n"),
    ("7910990000000000 X", "refused 21 at slot 0\n"),
    ("7a01a00001000000 X", "refused 21 at slot 0\n"),
    (
        "7112080000000000 57020000ff000000 0f21000000000000 7110080000000000 X",
        "refused 21 at slot 3\n",
    ),
    (
        "7112080000000000 b700000000000000 2502020098000000 0f21000000000000 7110080000000000 X",
        "refused 21 at slot 4\n",
    ),
    ("7a01000001000000 X", "refused 22 at slot 0\n"),
    ("7a01800001000000 X", "refused 22 at slot 0\n"),
    ("79a0000000000000 X", "refused 23 at slot 0\n"),
    ("79a0fcfd00000000 X", "refused 23 at slot 0\n"),
    ("720afffd01000000 X", "refused 23 at slot 0\n"),
    ("79a0f8ff00000000 X", "refused 24 at slot 0\n"),
    (
        "7a0a3cfe02000000 79a03dfe00000000 X",
        "refused 24 at slot 1\n",
    ),
    (
        "7912080000000000 1502010000000000 7a0af8ff02000000 79a0f8ff00000000 X",
        "refused 24 at slot 3\n",
    ),
    (
        "7112080000000000 5702000007000000 bfa3000000000000 07030000f0ffffff 0f23000000000000 7a03000002000000 79a0f0ff00000000 X",
        "refused 24 at slot 6\n",
    ),
    (
        "b702000000000000 7920000000000000 X",
        "refused 25 at slot 1\n",
    ),
    ("bf10000000000000 X", "refused 26 at slot 1\n"),
];

/// Code that is accepted, and the answers.
const ACCEPTED: [(&'static str, &'static str); 4] = [
    ("b700000001000000 X", "accepted 2 instructions\n"),
    (STAMPS, "accepted 6 instructions\n"),
    (
        "b700000001000000 1500010001000000 bf20000000000000 X",
        "accepted 4 instructions\n",
    ),
    (
        "1800000001000000 0000000002000000 X",
        "accepted 2 instructions\n",
    ),
];

/// Between two signed tests a number is added to an address.
const SIGNED_TESTS: &'static str =
    "7912400000000000 b700000000000000 c502030000000000 650202003f000000 0f21000000000000 7110080000000000 X";

/// A byte is added to an address with its sign.
const SIGNED_BYTE: &'static str =
    "9112080000000000 b700000000000000 7502030000000000 bfa3000000000000 0f23000000000000 7203000001000000 X";

/// A clash whose first has a weight of 2^63, which is below zero where it is read as a signed number.
const HEAVY: Clash = Clash {
    name: DB,
    stamps: ("05", "09"),
    weight: "80",
    facts: "",
};

/// Code, and its text.
const TEXTS: [(&'static str, &'static str); 4] = [
    (STAMPS, LISTING),
    (
        "1800000001000000 0000000002000000 X",
        "lddw r0, 8589934593\nexit\n",
    ),
    ("b7000000ffffffff X", "mov64 r0, -1\nexit\n"),
    // It need not be accepted.
    ("bf20000000000000 X", "mov64 r0, r2\nexit\n"),
];

//// Each question with its codes and answers.
const GROUPS: [Group; 9] = [
    (&[Ask::Judge(ON_DB)], 0, &VERDICTS),
    (
        &[
            Ask::Judge(ON_DB),
            Ask::Check(Profile::Unsigned),
            Ask::Check(Profile::Both),
            Ask::Dis,
        ],
        2,
        &NO_CODE,
    ),
    (
        &[
            Ask::Judge(ON_DB),
            Ask::Check(Profile::Unsigned),
            Ask::Check(Profile::Both),
        ],
        2,
        &UNSAFE,
    ),
    (
        &[Ask::Check(Profile::Unsigned), Ask::Check(Profile::Both)],
        0,
        &ACCEPTED,
    ),
    (
        &[Ask::Check(Profile::Unsigned)],
        2,
        &[
            (SIGNED_TESTS, "refused 18 at slot 4\n"),
            (SIGNED_BYTE, "refused 18 at slot 4\n"),
        ],
    ),
    (
        &[Ask::Check(Profile::Both)],
        0,
        &[
            (SIGNED_TESTS, "accepted 7 instructions\n"),
            (SIGNED_BYTE, "accepted 7 instructions\n"),
        ],
    ),
    (
        &[Ask::Judge(ON_DB)],
        0,
        &[
            (SIGNED_TESTS, "none in 7 steps\n"),
            (SIGNED_BYTE, "none in 4 steps\n"),
        ],
    ),
    (
        &[Ask::Judge(HEAVY)],
        0,
        &[(SIGNED_TESTS, "none in 4 steps\n")],
    ),
    (&[Ask::Dis], 0, &TEXTS),
];

#[test]
fn questions_about_code(rt: HostRuntime) -> Result<(), Fail> {
    assert_eq!(rt; first_wrong(&rt, &GROUPS)?, None);
    Ok(())
}

// Checks that code of `moves` moves and an `exit` judges with this status and text.
fn is_long_judging(rt: &HostRuntime, moves: u32, status: u8, text: &str) -> Result<bool, Fail> {
    let mut code = String::new(rt.alloc());
    for _ in 0..moves {
        code.push_str("b700000001000000")?;
    }
    code.push_str(EXIT)?;
    is_judged(rt, ON_DB, code.as_str(), status, text)
}

#[test]
fn the_longest_code(rt: HostRuntime) -> Result<(), Fail> {
    for (moves, status, text) in [(1023, 0, "first in 1024 steps\n"), (1024, 2, "refused 2\n")] {
        assert!(rt; is_long_judging(&rt, moves, status, text)?, "at {moves}");
    }
    Ok(())
}
