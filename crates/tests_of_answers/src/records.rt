//! Tests of the records of clashes.
use crate::asking::{Ask, Clash, DB, EXIT, Group, ON_DB, X, by_record, first_wrong, is_answered};
use crate::codes::STAMPS;
use questions::{ClashWords, Question};
use std::alloc::Global;
use std::io;
use std::test::Fail;

/// The name `db`, whose first has the later stamp.
const LATER_FIRST: Clash = Clash {
    name: DB,
    stamps: ("09", "05"),
    weight: "00",
    facts: "",
};

/// The name `db`, with equal stamps.
const EQUAL_STAMPS: Clash = Clash {
    name: DB,
    stamps: ("05", "05"),
    weight: "00",
    facts: "",
};

/// The name `x`, with stamps 5 and 9.
const ON_X: Clash = Clash {
    name: X,
    stamps: ("05", "09"),
    weight: "00",
    facts: "",
};

/// The name `db`, with stamps 5 and 9, and a first whose table has two rows.
const SIZED: Clash = Clash {
    name: DB,
    stamps: ("05", "09"),
    weight: "00",
    facts: "0200000000000000000000000000000000000000000000000000000000000000",
};

/// Reads the byte of the name that its eighth byte counts, if there is one.
const BRANCH: &'static str =
    "7112080000000000 b700000000000000 2502020077000000 0f21000000000000 7110080000000000 X";

/// Reads the size of the first's table.
const SIZE_OF_FIRST: &'static str = "7910800000000000 X";

/// Clashes, each with code and what is printed of its verdict. A record of 128 bytes has zeros in place of the facts of the
/// longer one.
const GROUPS: [Group; 4] = [
    (
        &[Ask::Judge(LATER_FIRST), Ask::Judge(EQUAL_STAMPS)],
        0,
        &[(STAMPS, "first in 5 steps\n")],
    ),
    (&[Ask::Judge(ON_X)], 0, &[(BRANCH, "none in 4 steps\n")]),
    (
        &[Ask::Judge(ON_DB)],
        0,
        &[(SIZE_OF_FIRST, "none in 2 steps\n")],
    ),
    (
        &[Ask::Judge(SIZED)],
        0,
        &[(SIZE_OF_FIRST, "second in 2 steps\n")],
    ),
];

#[test]
fn other_records(rt: HostRuntime) -> Result<(), Fail> {
    assert_eq!(rt; first_wrong(&rt, &GROUPS)?, None);
    Ok(())
}

/// Code that returns 1.
const ONE: &'static str = "b7000000010000009500000000000000";

/// Code, the digits with which a record begins, the count of zero bytes after them, and the status and the text of the
/// answer.
type Row = (&'static str, &'static str, usize, u8, &'static str);

const ROWS: [Row; 10] = [
    (ONE, "", 127, 2, "refused 55\n"),
    (ONE, "", 128, 0, "first in 2 steps\n"),
    (ONE, "", 129, 2, "refused 55\n"),
    (ONE, "", 159, 2, "refused 55\n"),
    (ONE, "", 160, 0, "first in 2 steps\n"),
    (ONE, "", 161, 2, "refused 55\n"),
    (ONE, "000", 0, 2, "refused 50\n"),
    (EXIT, "", 127, 2, "refused 15 at slot 0\n"),
    ("", "0g", 0, 2, "refused 1\n"),
    ("0", "00", 0, 2, "refused 50\n"),
];

// Returns these digits and those of `count` zero bytes.
fn with_zeros(alloc: Global, digits: &str, count: usize) -> io::Result<String> {
    let mut text = String::from_str(alloc, digits)?;
    for _ in 0..count {
        text.push_str("00")?;
    }
    Ok(text)
}

// Returns the first row that is answered otherwise.
fn first_wrong_row(rt: &HostRuntime, rows: &[Row]) -> Result<Option<Row>, Fail> {
    for row in rows {
        let (code, digits, zeros, status, line) = *row;
        let text = with_zeros(rt.alloc(), digits, zeros)?;
        if !is_answered(rt, &by_record(code, text.as_str()), status, line) {
            return Ok(Some(*row));
        }
    }
    Ok(None)
}

#[test]
fn records_of_other_lengths(rt: HostRuntime) -> Result<(), Fail> {
    assert_eq!(rt; first_wrong_row(&rt, &ROWS)?, None);
    Ok(())
}

// The fields of a clash, and the status and the line for it by the program that judges by the stamps.
type Fields = (
    &'static str,
    &'static str,
    &'static str,
    &'static str,
    u8,
    &'static str,
);

// The program that judges by the stamps.
const BY_STAMPS: &'static str =
    "79123800000000007913600000000000b7000000010000003d32010000000000b7000000020000009500000000000000";

const FIELDS: [Fields; 9] = [
    (
        "db",
        "1.10,stamp=5",
        "2.20,stamp=9",
        "7",
        0,
        "second in 6 steps\n",
    ),
    (
        "db",
        "1.10,stamp=9",
        "2.20,stamp=5",
        "0",
        0,
        "first in 5 steps\n",
    ),
    (
        "db",
        "1.10,stamp=3,weight=2,extra=000102030405060708090a0b0c0d0e0f,size=4,uptime=5,stamp=9",
        "2.20 stamp=5",
        "0",
        0,
        "first in 5 steps\n",
    ),
    ("", "1.10", "2.20", "0", 2, "refused 44\n"),
    ("db", "1.10,extra=00", "2.20", "0", 2, "refused 50\n"),
    ("db", "1.10,age=5", "2.20", "0", 2, "refused 51\n"),
    ("db", "1.10,stamp=05", "2.20,age=5", "0", 2, "refused 52\n"),
    ("db", "1.10", "2", "0", 2, "refused 52\n"),
    ("db", "1.10", "2.20", "x", 2, "refused 52\n"),
];

#[test]
fn fields_of_records(rt: HostRuntime) -> Result<(), Fail> {
    for row in FIELDS {
        let (name, first, second, word, status, line) = row;
        let question = Question::Judge {
            code: BY_STAMPS,
            clash: ClashWords::Fields {
                name,
                first,
                second,
                word,
            },
            explain: false,
        };
        assert!(rt; is_answered(&rt, &question, status, line), "{first}");
    }
    Ok(())
}
