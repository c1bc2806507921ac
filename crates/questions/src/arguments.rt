//! Reads the hex arguments of a question.
ghost use Rattle.std.specs.Prelude.{◌≡◌, Ok, IfOk, IfErr};
ghost use Rattle.hex.specs.Hex.{decode_of};
ghost use Rattle.insn_codec.specs.Encoding.{Spells};
ghost use Rattle.verifier.specs.Programs.{IsAcceptedOver};
ghost use Rattle.clash_fields.specs.Fields as fields;
ghost use Rattle.questions.specs.ClashFields.{IsClash, IsClashFieldsFault, IsNoClash};
ghost use Rattle.questions.specs.Refusals.{OnRefusal};
ghost use Rattle.questions.specs.Judging.{IsClashTextFault, IsClashText, IsCodeTextFault, IsCodeText, IsNoCode, IsNoHex, IsProgramTextOver, IsProgramTextFaultOver, IsNoProgramOver};

use crate::failures::{Failure, InputFault, failure_of};
use crate::question::ClashWords;
use abstract_value::Domain;
use clash_fields::clash_of_fields;
use clash_record::{ClashRecord, RECORD_LEN, record_of};
use hex::FromHexError;
use insn_codec::{Code, decode};
use std::alloc::Global;
use verifier::{SHORTER_RECORD_LEN, Verified, read_program_over};

// Decodes hex digits.
fn bytes_of(alloc: Global, text: &str) -> Result<Vec<u8>, Failure>
    ensures ok { IfOk result (λ bytes. decode_of text.now ≡ Ok bytes.items) }
    ensures err { IfErr result (OnRefusal (IsNoHex text.now)) }
{
    match hex::decode(alloc, text) {
        Ok(bytes) => Ok(bytes),
        Err(FromHexError::OutOfMemory) => Err(Failure::OutOfMemory),
        Err(_) => Err(failure_of(&InputFault::HexText)),
    }
}

// Decodes bytes as code.
fn code_in_bytes(alloc: Global, bytes: &[u8]) -> Result<Code, Failure>
    ensures ok { IfOk result (Spells bytes.now) }
    ensures err { IfErr result (OnRefusal (IsNoCode bytes.now)) }
{
    match decode(alloc, bytes) {
        Ok(code) => Ok(code),
        Err(fault) => Err(failure_of(&fault)),
    }
}

// Reads bytes as a program that is verified over a domain.
fn program_in_bytes<D: Domain>(alloc: Global, bytes: &[u8]) -> Result<Verified, Failure>
    ensures ok { IfOk result (IsAcceptedOver D.ops bytes.now) }
    ensures err { IfErr result (OnRefusal (IsNoProgramOver D.ops bytes.now)) }
{
    match read_program_over::<D>(alloc, bytes) {
        Ok(program) => Ok(program),
        Err(fault) => Err(failure_of(&fault)),
    }
}

/// Reads hex digits as code.
#[tactic(auto, using(crate::proofs::Wrongs::failures))]
pub fn code_of(alloc: Global, text: &str) -> Result<Code, Failure>
    ensures ok { IfOk result (λ code. IsCodeText text.now code) }
    ensures err { IfErr result (OnRefusal (IsCodeTextFault text.now)) }
{
    let bytes = bytes_of(alloc, text)?;
    code_in_bytes(alloc, &bytes)
}

/// Reads hex digits as a program that is verified over a domain.
#[tactic(auto, using(crate::proofs::Wrongs::failures))]
pub fn program_of<D: Domain>(alloc: Global, text: &str) -> Result<Verified, Failure>
    ensures ok { IfOk result (λ program. IsProgramTextOver D.ops text.now program) }
    ensures err { IfErr result (OnRefusal (IsProgramTextFaultOver D.ops text.now)) }
{
    let bytes = bytes_of(alloc, text)?;
    program_in_bytes::<D>(alloc, &bytes)
}

// Reads hex digits as a record: 160 bytes, or 128 that zeros extend.
fn clash_of_digits(alloc: Global, text: &str) -> Result<ClashRecord, Failure>
    ensures ok { IfOk result (λ clash. IsClashText text.now clash) }
    ensures err { IfErr result (OnRefusal (IsClashTextFault text.now)) }
{
    let bytes = bytes_of(alloc, text)?;
    if bytes.len() != RECORD_LEN && bytes.len() != SHORTER_RECORD_LEN {
        return Err(failure_of(&InputFault::RecordLength));
    }
    let mut record = [0; RECORD_LEN];
    record[..bytes.len()].copy_from_slice(&bytes);
    Ok(record_of(record))
}

// Reads the fields of a record.
#[tactic(auto, using(crate::proofs::Wrongs::field_failure))]
fn clash_by_fields(
    alloc: Global,
    name: &str,
    first: &str,
    second: &str,
    word: &str,
) -> Result<ClashRecord, Failure>
    ensures ok { IfOk result (λ clash. fields.clash_from_words name.now first.now second.now word.now ≡ Ok clash) }
    ensures err { IfErr result (OnRefusal (IsClashFieldsFault (fields.clash_from_words name.now first.now second.now word.now))) }
{
    let (name, first) = (name.as_bytes(), first.as_bytes());
    match clash_of_fields(alloc, name, first, second.as_bytes(), word.as_bytes()) {
        Ok(clash) => Ok(clash),
        Err(fault) => Err(failure_of(&fault)),
    }
}

/// Reads the record of a clash, by its bytes or by its fields.
pub fn clash_of(alloc: Global, clash: &ClashWords<'_>) -> Result<ClashRecord, Failure>
    ensures ok { IfOk result (IsClash clash.now) }
    ensures err { IfErr result (OnRefusal (IsNoClash clash.now)) }
{
    match clash {
        ClashWords::Bytes(digits) => clash_of_digits(alloc, digits),
        ClashWords::Fields {
            name,
            first,
            second,
            word,
        } => clash_by_fields(alloc, name, first, second, word),
    }
}
