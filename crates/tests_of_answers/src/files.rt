//! Tests of assembling the text of a file.
use crate::asking::is_answered;
use crate::codes::LISTING;
use crate::devices::Source;
use questions::{InputFault, MAX_FILE_LEN, Question, asm_from, texts_of};
use std::alloc::Global;
use std::test::Fail;
use std::{env, fs};

// The code that judges by the stamps, as it is written.
const WRITTEN: &'static str =
    "79123800000000007913600000000000b7000000010000003d32010000000000b7000000020000009500000000000000\n";

// Checks that a file of these bytes is answered by this status and this text.
fn is_assembled(alloc: Global, bytes: &[u8], status: u8, text: &str) -> Result<bool, Fail> {
    let reader = Source {
        left: bytes,
        step: usize::MAX,
        calls_left: usize::MAX,
    };
    let said = texts_of(alloc, &Question::Asm { file: "-" }, asm_from(alloc, reader))?;
    Ok(said.status == status && said.text.as_str() == text)
}

// Texts, and the status and the line of each.
const TEXTS: [(&'static str, u8, &'static str); 16] = [
    (LISTING, 0, WRITTEN),
    (
        "mov64 r0, 0xffffffff\nexit\n",
        0,
        "b7000000ffffffff9500000000000000\n",
    ),
    (
        "lddw r0, 8589934593\nexit",
        0,
        "180000000100000000000000020000009500000000000000\n",
    ),
    ("foo", 2, "refused 60 at line 1\n"),
    ("mov64 r0", 2, "refused 61 at line 1\n"),
    ("mov64 r11, 1", 2, "refused 61 at line 1\n"),
    ("mov64 r0, -0", 2, "refused 61 at line 1\n"),
    ("ja 1", 2, "refused 61 at line 1\n"),
    ("lddw r0, -1", 2, "refused 61 at line 1\n"),
    ("ldxb r0, [r1+ 1]", 2, "refused 61 at line 1\n"),
    ("mov64 r0, 2147483648", 2, "refused 62 at line 1\n"),
    ("ja +32768", 2, "refused 62 at line 1\n"),
    ("lddw r0, 18446744073709551616", 2, "refused 62 at line 1\n"),
    ("; c\n\nexit r1\n", 2, "refused 63 at line 3\n"),
    ("; c", 2, "refused 1 at line 1\n"),
    ("", 2, "refused 1 at line 1\n"),
];

// Returns the first text that is answered otherwise.
fn first_misread(
    alloc: Global,
    rows: &[(&'static str, u8, &'static str)],
) -> Result<Option<&'static str>, Fail> {
    for (text, status, line) in rows {
        if !is_assembled(alloc, text.as_bytes(), *status, line)? {
            return Ok(Some(text));
        }
    }
    Ok(None)
}

#[test]
fn text_as_code(rt: HostRuntime) -> Result<(), Fail> {
    assert_eq!(rt; first_misread(rt.alloc(), &TEXTS)?, None);
    Ok(())
}

// Checks the answer, with status 2, to a file that has this beginning and then repeats a piece.
fn is_refused_file(
    alloc: Global,
    first: &[u8],
    piece: &[u8],
    count: usize,
    text: &str,
) -> Result<bool, Fail> {
    let mut file = Vec::new(alloc);
    file.extend_from_slice(first)?;
    for _ in 0..count {
        file.extend_from_slice(piece)?;
    }
    is_assembled(alloc, &file, 2, text)
}

// The byte 255 is in no text.
#[test]
fn long_files(rt: HostRuntime) -> Result<(), Fail> {
    let rows: [(&[u8], &[u8], usize, &str); 5] = [
        (b"", b"exit\n", 1025, "refused 2 at line 1025\n"),
        (b"", b" ", MAX_FILE_LEN, "refused 1 at line 1\n"),
        (b"", b" ", MAX_FILE_LEN + 1, "refused 57\n"),
        (&[0xff], b" ", MAX_FILE_LEN, "refused 57\n"),
        (&[0xff], b" ", 8, "refused 56\n"),
    ];
    for (first, piece, count, text) in rows {
        assert!(rt;
            is_refused_file(rt.alloc(), first, piece, count, text)?,
            "at {count}"
        );
    }
    Ok(())
}

// Returns whether a file that isn't there is answered by a device fault, and whether its text is assembled once it is
// written.
fn is_read(rt: &HostRuntime, path: &str) -> Result<(bool, bool), Fail> {
    let question = Question::Asm { file: path };
    let is_missing = is_answered(rt, &question, 3, "device fault\n");
    fs::write(rt, path, "mov64 r0, 1\nexit\n")?;
    let is_read = is_answered(rt, &question, 0, "b7000000010000009500000000000000\n");
    fs::remove_file(rt, path)?;
    Ok((is_missing, is_read))
}

#[test]
fn a_file(rt: HostRuntime) -> Result<(), Fail> {
    let folder = env::temp_dir(&rt)?;
    let id = std::process::id(rt.process());
    let path = format!(in rt.alloc(); "{}/heal_{id}.txt", folder.display())?;
    assert_eq!(rt; is_read(&rt, path.as_str())?, (true, true));
    Ok(())
}

// Returns the first words that aren't those of their fault.
fn first_misworded(
    alloc: Global,
    rows: &[(InputFault, &'static str)],
) -> Result<Option<&'static str>, Fail> {
    for (fault, words) in rows {
        if format!(in alloc; "{fault}")?.as_str() != *words {
            return Ok(Some(words));
        }
    }
    Ok(None)
}

#[test]
fn words_of_faults(rt: HostRuntime) -> Result<(), Fail> {
    let rows = [
        (
            InputFault::HexText,
            "invalid hex digits, or the wrong number of them",
        ),
        (
            InputFault::RecordLength,
            "a record of neither 160 nor 128 bytes",
        ),
        (InputFault::NotText, "a file that isn't UTF-8"),
        (
            InputFault::FileTooLong,
            "a file of more than 1,048,576 bytes",
        ),
    ];
    assert_eq!(rt; first_misworded(rt.alloc(), &rows)?, None);
    Ok(())
}
