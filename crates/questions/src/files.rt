//! Reads the text of a program from the bytes of a file.
ghost use Rattle.std.specs.Prelude.{◌≡◌, IfOk, IfErr};
ghost use Rattle.assembler_text.specs.Grammar.{IsTextOf};
ghost use Rattle.questions.specs.Refusals.{OnRefusal};
ghost use Rattle.questions.specs.Sources.{IsFaultyText, IsNoSource, IsNoSourceText, IsSource, IsSourceText};

use crate::failures::{Failure, InputFault, failure_of};
use assembler_text::assemble;
use code_file::MAX_FILE_LEN;
use instruction_set::Code;
use std::alloc::Global;

// Returns a file's bytes as text. Checks their number first.
fn text_of(bytes: &[u8]) -> Result<&str, Failure>
    ensures ok { IfOk result (λ text. (text.now ≡ bytes.now) × IsSourceText bytes.now) }
    ensures err { IfErr result (OnRefusal (IsNoSourceText bytes.now)) }
{
    if bytes.len() > MAX_FILE_LEN {
        return Err(failure_of(&InputFault::FileTooLong));
    }
    match str::from_utf8(bytes) {
        Ok(text) => Ok(text),
        Err(_) => Err(failure_of(&InputFault::NotText)),
    }
}

// Assembles a text.
fn code_of_text(alloc: Global, text: &str) -> Result<Code, Failure>
    ensures ok { IfOk result (IsTextOf text.now) }
    ensures err { IfErr result (OnRefusal (IsFaultyText text.now)) }
{
    match assemble(alloc, text) {
        Ok(code) => Ok(code),
        Err(fault) => Err(failure_of(&fault)),
    }
}

/// Assembles the bytes of a file.
#[tactic(auto, using(crate::proofs::Readings::sources))]
pub fn code_in(alloc: Global, bytes: &[u8]) -> Result<Code, Failure>
    ensures ok { IfOk result (λ code. IsSource bytes.now code) }
    ensures err { IfErr result (OnRefusal (IsNoSource bytes.now)) }
{
    code_of_text(alloc, text_of(bytes)?)
}
