//! Programs in files.
use crate::script_devices::{GOOD, is_answered};
use std::rt::Files;
use std::sync::Wait;
use std::test::Fail;
use std::thread::Threads;
use std::{env, fs};

// The bytes of `mov64 r0, 1; exit`, and their digits with a space among them.
const CODE: &[u8] = b"\xb7\0\0\0\x01\0\0\0\x95\0\0\0\0\0\0\0";

const DIGITS: &[u8] = b"b700000001000000 9500000000000000\n";

// The answers to the lines with a file that has the code, and with one that isn't there. The second label is invalid.
const UPLOADED: &[u8] = b"uploaded x 2 instructions\nline 2: refused 53\nyes\n";

const UNREAD: &[u8] = b"line 1: refused 58\nline 2: refused 53\nline 3: refused 41\n";

// Checks that lines with this file are answered so, with status 2.
fn is_said<T>(rt: &T, path: &str, said: &[u8]) -> Result<bool, Fail>
where
    T: Files + Threads + Wait + Sync + AllocGlobal,
{
    let script = format!(in rt.alloc();
        "upload x @{path}\nupload exit @{path}\nregister a db 1.1 0 0 - x\n"
    )?;
    Ok(is_answered(rt, script.as_bytes(), (GOOD, GOOD), (2, said)))
}

// Checks the answers to a file of these bytes.
fn is_uploaded<T>(rt: &T, path: &str, content: &[u8]) -> Result<bool, Fail>
where
    T: Files + Threads + Wait + Sync + AllocGlobal,
{
    fs::write(rt, path, content)?;
    let is_said = is_said(rt, path, UPLOADED)?;
    fs::remove_file(rt, path)?;
    Ok(is_said)
}

#[test]
fn a_program_in_a_file(rt: HostRuntime) -> Result<(), Fail> {
    let folder = env::temp_dir(&rt)?;
    let id = std::process::id(rt.process());
    let path = format!(in rt.alloc(); "{}/heal_program_{id}", folder.display())?;
    let path = path.as_str();
    let unread = is_said(&rt, path, UNREAD)?;
    let bytes = is_uploaded(&rt, path, CODE)?;
    let digits = is_uploaded(&rt, path, DIGITS)?;
    assert_eq!(&rt; (unread, bytes, digits), (true, true, true));
    Ok(())
}
