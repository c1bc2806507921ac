//! Code in a file of any of its forms.
ghost use Rattle.std.specs.Prelude.{◌≡◌, ◌⊎◌, ℕ, List, take, Ok, IfOk, IfErr};
ghost use Rattle.std.specs.List.{list_all};
ghost use Rattle.hex.specs.Hex.{decode_of, is_hex_digit};
ghost use Rattle.refusals.specs.Answers.{HasCause};
ghost use Rattle.code_file.specs.CodeFiles.{IsCodeFile, IsHexFault, IsNoCodeFile, IsObjectFault, digits_of, code_file_fault_number, is_elf, is_hex};
ghost use Rattle.code_file.specs.Objects.{IsObjectCode};
ghost use Rattle.code_file.specs.declared.fault.CodeFileFault.{CodeFileFault};
ghost use Rattle.code_file.specs.declared.fault.CodeFileFault.TheVariants.{OutOfMemory};

use crate::digits::decode_digits;
use crate::fault::CodeFileFault;
use crate::object::code_in_object;
use std::alloc::{AllocError, Global};

// The first bytes of every ELF file.
const MAGIC: &'static [u8] = b"\x7fELF";

// Checks whether a file is an ELF file.
fn is_elf(file: &[u8]) -> bool
    ensures { result ≡ is_elf file.now }
{
    &file[..MAGIC.len().min(file.len())] == MAGIC
}

// Checks whether a file has hex digits and white space alone.
fn is_hex(file: &[u8]) -> bool
    ensures { result ≡ is_hex file.now }
{
    let mut all = true;
    for byte in file {
        all &= byte.is_ascii_hexdigit() || byte.is_ascii_whitespace();
    }
    all
}

// Returns the bytes that aren't white space.
fn digits_of(alloc: Global, file: &[u8]) -> Result<Vec<u8>, AllocError>
    ensures { IfOk result (λ digits. digits.items ≡ digits_of file.now) }
{
    let mut digits = Vec::new(alloc);
    for byte in file {
        if !byte.is_ascii_whitespace() {
            digits.push(*byte)?;
        }
    }
    Ok(digits)
}

// Returns the file without white space at its end.
fn trimmed(file: &[u8]) -> &[u8]
    ensures { digits_of result.now ≡ digits_of file.now }
{
    let mut len = file.len();
    while len > 0 && file[len - 1].is_ascii_whitespace() {
        len -= 1;
    }
    &file[..len]
}

// Checks whether all bytes are hex digits. Reads them all, so that many are tested at once.
fn are_digits(digits: &[u8]) -> bool
    ensures { result ≡ list_all is_hex_digit digits.now }
{
    let mut all = true;
    for digit in digits {
        all &= digit.is_ascii_hexdigit();
    }
    all
}

// Decodes a file of hex digits. Copies them only if there is white space between them.
fn decode_hex(alloc: Global, file: &[u8]) -> Result<Vec<u8>, CodeFileFault>
    ensures code { IfOk result (λ code. decode_of (digits_of file.now) ≡ Ok code.items) }
    ensures refused { IfErr result (λ fault. IsHexFault file.now fault ⊎ (fault ≡ OutOfMemory)) }
{
    let digits = trimmed(file);
    if are_digits(digits) {
        return decode_digits(alloc, digits);
    }
    let digits = digits_of(alloc, digits)?;
    decode_digits(alloc, &digits)
}

// Copies the code of an object file.
fn read_object(alloc: Global, file: &[u8]) -> Result<Vec<u8>, CodeFileFault>
    ensures code { IfOk result (λ code. IsObjectCode file.now code.items) }
    ensures refused { IfErr result (λ fault. IsObjectFault file.now fault ⊎ (fault ≡ OutOfMemory)) }
{
    match code_in_object(file) {
        Some(code) => Ok(Vec::from_slice(alloc, code)?),
        None => Err(CodeFileFault::Object),
    }
}

// Copies a file.
fn copied(alloc: Global, file: &[u8]) -> Result<Vec<u8>, CodeFileFault>
    ensures code { IfOk result (λ code. code.items ≡ file.now) }
    ensures refused { IfErr result (λ fault. fault ≡ OutOfMemory) }
{
    Ok(Vec::from_slice(alloc, file)?)
}

/// Reads the code in a file: the bytes of `.text` in an ELF file, else the bytes of hex digits with white space anywhere,
/// else the file itself.
///
/// Returns 8 for an ELF file that isn't an object with code, 50 for an odd number of hex digits, and 90 when out of
/// memory.
pub fn read_code_file(alloc: Global, file: &[u8]) -> Result<Vec<u8>, CodeFileFault>
    ensures code { IfOk result (λ code. IsCodeFile file.now code.items) }
    ensures refused { IfErr result (HasCause code_file_fault_number (IsNoCodeFile file.now)) }
{
    if is_elf(file) {
        read_object(alloc, file)
    } else if is_hex(file) {
        decode_hex(alloc, file)
    } else {
        copied(alloc, file)
    }
}

/// States that a file has one code or none. Does nothing at run time.
pub fn one_reading_theorem()
    ensures one { (file code other : List ℕ) → IsCodeFile file code → IsCodeFile file other → code ≡ other }
    ensures none { (file code : List ℕ) → (fault : CodeFileFault) → IsCodeFile file code → IsNoCodeFile file fault → ⊥ }
{}
