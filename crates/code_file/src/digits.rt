//! Hex digits.
ghost use Rattle.std.specs.Prelude.{◌≡◌, ◌⊎◌, Ok, IfOk, IfErr};
ghost use Rattle.hex.specs.Hex.{decode_of};
ghost use Rattle.code_file.specs.CodeFiles.{IsDigitsFault};
ghost use Rattle.code_file.specs.declared.fault.CodeFileFault.TheVariants.{OutOfMemory};

use crate::fault::CodeFileFault;
use hex::FromHexError;
use std::alloc::Global;

/// Decodes hex digits, two for each byte.
///
/// Returns 50 for an odd number of digits or another byte, and 90 when out of memory: it allocates the bytes.
pub fn decode_digits(alloc: Global, digits: &[u8]) -> Result<Vec<u8>, CodeFileFault>
    ensures code { IfOk result (λ code. decode_of digits.now ≡ Ok code.items) }
    ensures refused { IfErr result (λ fault. IsDigitsFault digits.now fault ⊎ (fault ≡ OutOfMemory)) }
{
    match hex::decode(alloc, digits) {
        Ok(code) => Ok(code),
        Err(FromHexError::OutOfMemory) => Err(CodeFileFault::OutOfMemory),
        Err(_) => Err(CodeFileFault::HexText),
    }
}
