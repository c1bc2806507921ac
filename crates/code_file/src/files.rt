//! Reads files of code.
ghost use Rattle.std.specs.Prelude.{None, IfOk, IfErr, string_bytes};
ghost use Rattle.refusals.specs.Answers.{HasCause};
ghost use Rattle.code_file.specs.Files.{HasFileCode, IsFileCode, IsFileFault, IsNoFileCode, IsReading, OfBytes, file_fault_number};

use crate::fault::FileFault;
use crate::reading::read_code_file;
use std::alloc::Global;
use std::io::Read;
use std::rt::Files;
use std::{fs, io};

/// The maximum length of a file in bytes.
pub const MAX_FILE_LEN: usize = 1_048_576;

/// Reads a reader to its end, or to one byte more than the maximum length of a file.
pub fn read_whole<R: Read + Drop>(alloc: Global, reader: R) -> io::Result<Vec<u8>>
    ensures { IfOk result (λ bytes. IsReading (R.remaining reader) bytes.items) }
{
    let mut bytes = Vec::new(alloc);
    reader
        .take(MAX_FILE_LEN as u64 + 1)
        .read_to_end(&mut bytes)?;
    Ok(bytes)
}

// Returns the code in a file. Checks the number of bytes first.
fn code_of(alloc: Global, content: &[u8]) -> Result<Vec<u8>, FileFault>
    ensures ok { IfOk result (λ code. HasFileCode content.now code.items) }
    ensures err { IfErr result (HasCause file_fault_number (IsFileFault content.now)) }
{
    if content.len() > MAX_FILE_LEN {
        return Err(FileFault::TooLong);
    }
    match read_code_file(alloc, content) {
        Ok(code) => Ok(code),
        Err(fault) => Err(FileFault::Code(fault)),
    }
}

/// Reads a reader to its end as a file with code, and returns the code.
///
/// Returns 57 for more than 1,048,576 bytes, the refusals of `read_code_file`, 58 if the reader fails, and 90 when out of
/// memory.
pub fn code_from<R: Read + Drop>(alloc: Global, reader: R) -> Result<Vec<u8>, FileFault>
    ensures code { IfOk result (λ code. OfBytes (R.remaining reader) (λ content. HasFileCode content code.items)) }
    ensures refused { IfErr result (IsNoFileCode (R.remaining reader)) }
{
    let content = read_whole(alloc, reader)?;
    code_of(alloc, &content)
}

/// Reads the file at a path like `code_from`. Returns 58 also if it can't be opened.
pub fn code_in<R: Files + AllocGlobal>(rt: &R, file: &str) -> Result<Vec<u8>, FileFault>
    ensures code { IfOk result (λ code. OfBytes None (λ content. HasFileCode content code.items)) }
    ensures refused { IfErr result (IsNoFileCode None) }
{
    let file = fs::open(rt, file)?;
    code_from(rt.alloc(), file)
}

/// Reads a reader like `code_from`, and returns the code in hex digits.
pub fn digits_from<R: Read + Drop>(alloc: Global, reader: R) -> Result<String, FileFault>
    ensures digits { IfOk result (λ digits. OfBytes (R.remaining reader) (λ content.
        IsFileCode content (string_bytes digits))) }
    ensures refused { IfErr result (IsNoFileCode (R.remaining reader)) }
{
    let code = code_from(alloc, reader)?;
    Ok(hex::encode(alloc, &code)?)
}

/// Reads the file at a path like `digits_from`. Returns 58 also if it can't be opened.
pub fn digits_in<R: Files + AllocGlobal>(rt: &R, file: &str) -> Result<String, FileFault>
    ensures digits { IfOk result (λ digits. OfBytes None (λ content. IsFileCode content (string_bytes digits))) }
    ensures refused { IfErr result (IsNoFileCode None) }
{
    let code = code_in(rt, file)?;
    Ok(hex::encode(rt.alloc(), &code)?)
}
