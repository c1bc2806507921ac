//! Code in files of each form: objects, hex digits and bytes.
use crate::devices::Source;
use questions::{Answer, digits_from};
use std::alloc::Global;
use std::io;
use std::test::Fail;

// The bytes of `mov64 r0, 1; exit`, and their digits.
const CODE: &[u8] = b"\xb7\0\0\0\x01\0\0\0\x95\0\0\0\0\0\0\0";

const DIGITS: &'static str = "b7000000010000009500000000000000";

/// An object file of these parts.
#[derive(Clone, Copy)]
struct Object {
    machine: u16,
    /// The names of the sections, eight bytes of which the second begins the name of the section with code.
    names: &'static [u8],
    /// The type of the last section, and the section that it is about.
    last: (u32, u32),
    /// The size of the section with code.
    size: u64,
}

/// An object as clang writes it.
const GOOD: Object = Object {
    machine: 247,
    names: b"\0.text\0\0",
    last: (9, 1),
    size: 16,
};

// Adds the header of a section: its name, type, offset, size and the section that it is about.
fn push_section(
    file: &mut Vec<u8>,
    (name, kind): (u32, u32),
    (offset, size): (u64, u64),
    info: u32,
) -> io::Result<()> {
    file.extend_from_slice(&name.to_le_bytes())?;
    file.extend_from_slice(&kind.to_le_bytes())?;
    file.extend_from_slice(&[0; 16])?;
    file.extend_from_slice(&offset.to_le_bytes())?;
    file.extend_from_slice(&size.to_le_bytes())?;
    file.extend_from_slice(&[0; 4])?;
    file.extend_from_slice(&info.to_le_bytes())?;
    Ok(file.extend_from_slice(&[0; 16])?)
}

impl Object {
    // Returns the bytes: the header, the code, the names and the headers of four sections.
    fn bytes(self, alloc: Global) -> io::Result<Vec<u8>> {
        let mut file = Vec::new(alloc);
        file.extend_from_slice(b"\x7fELF\x02\x01\x01\0\0\0\0\0\0\0\0\0\x01\0")?;
        file.extend_from_slice(&self.machine.to_le_bytes())?;
        file.extend_from_slice(b"\x01\0\0\0")?;
        file.extend_from_slice(&[0; 16])?;
        file.extend_from_slice(&88_u64.to_le_bytes())?;
        file.extend_from_slice(b"\0\0\0\0\x40\0\0\0\0\0\x40\0\x04\0\x01\0")?;
        file.extend_from_slice(CODE)?;
        file.extend_from_slice(self.names)?;
        push_section(&mut file, (0, 0), (0, 0), 0)?;
        push_section(&mut file, (0, 3), (80, 8), 0)?;
        push_section(&mut file, (1, 1), (64, self.size), 0)?;
        push_section(&mut file, (0, self.last.0), (0, 0), self.last.1)?;
        Ok(file)
    }
}

// Checks that a file of these bytes gives these digits, or the refusal of this number.
fn is_read(alloc: Global, bytes: &[u8], due: Result<&str, u32>) -> Result<bool, Fail> {
    let reader = Source {
        left: bytes,
        step: 7,
        calls_left: usize::MAX,
    };
    match (digits_from(alloc, reader)?, due) {
        (Ok(digits), Ok(wanted)) => Ok(digits.as_str() == wanted),
        (Err(Answer::Refused(refusal)), Err(number)) => Ok(refusal.number == number),
        _ => Ok(false),
    }
}

#[test]
fn objects(rt: HostRuntime) -> Result<(), Fail> {
    let rows: [(&str, Object, Result<&str, u32>); 8] = [
        ("clang's", GOOD, Ok(DIGITS)),
        (
            "of other relocations",
            Object {
                last: (4, 3),
                ..GOOD
            },
            Ok(DIGITS),
        ),
        (
            "of x86-64",
            Object {
                machine: 62,
                ..GOOD
            },
            Err(8),
        ),
        (
            "with relocations",
            Object {
                last: (9, 2),
                ..GOOD
            },
            Err(8),
        ),
        (
            "with others",
            Object {
                last: (4, 2),
                ..GOOD
            },
            Err(8),
        ),
        (
            "of data",
            Object {
                names: b"\0.data\0\0",
                ..GOOD
            },
            Err(8),
        ),
        ("without code", Object { size: 0, ..GOOD }, Err(8)),
        (
            "past its end",
            Object {
                size: 1 << 63,
                ..GOOD
            },
            Err(8),
        ),
    ];
    for (which, object, due) in rows {
        let bytes = object.bytes(rt.alloc())?;
        assert!(rt; is_read(rt.alloc(), &bytes, due)?, "{which}");
    }
    Ok(())
}

// An object that is cut anywhere is refused, and a single byte of any value never misleads the reader.
#[test]
fn cut_objects(rt: HostRuntime) -> Result<(), Fail> {
    let bytes = GOOD.bytes(rt.alloc())?;
    for len in 4..bytes.len() {
        assert!(rt; is_read(rt.alloc(), &bytes[..len], Err(8))?, "{len}");
    }
    Ok(())
}

#[test]
fn other_files(rt: HostRuntime) -> Result<(), Fail> {
    let rows: [(&[u8], Result<&str, u32>); 6] = [
        (b"b7000000 01000000\n9500000000000000\r\n", Ok(DIGITS)),
        (CODE, Ok(DIGITS)),
        (b"B70", Err(50)),
        (b"B7x", Ok("423778")),
        (b"", Ok("")),
        (b"\x7fELF", Err(8)),
    ];
    for (bytes, due) in rows {
        assert!(rt; is_read(rt.alloc(), bytes, due)?, "{due:?}");
    }
    Ok(())
}
