//! Parses operands.
ghost use Rattle.std.specs.Prelude.{◌≡◌, ◌≤◌, map, option_copied};
ghost use Rattle.assembler_text.specs.model.Words.{word, after};
ghost use Rattle.assembler_text.specs.model.Operands.{register_at, source_at, inner, address_at, comma, end_at};
ghost use Rattle.assembler_text.specs.model.Reading.{Gives};

use crate::faults::Fault;
use crate::lexer::{Class, lookup, skip_blanks, split};
use crate::number::{imm, short_step, strip};
use instruction_set::{Register, Source};

// The registers' names and numbers.
const REGISTERS: [(&[u8], u8); 11] = [
    (b"r0", 0),
    (b"r1", 1),
    (b"r2", 2),
    (b"r3", 3),
    (b"r4", 4),
    (b"r5", 5),
    (b"r6", 6),
    (b"r7", 7),
    (b"r8", 8),
    (b"r9", 9),
    (b"r10", 10),
];

/// Parses a register.
#[tactic(auto, using(crate::proofs::Tables::known_register), unfolding(crate::specs::model::Operands::register_at, crate::specs::model::Operands::register_number))]
pub fn register(word: &[u8]) -> Result<Register, Fault>
    ensures { result ≡ register_at word.now }
{
    match lookup(&REGISTERS, word) {
        Some(number) => Ok(Register { number }),
        None => Err(Fault::Operand),
    }
}

/// Parses a register or an immediate.
#[tactic(auto, unfolding(crate::specs::model::Operands::source_at))]
pub fn source(word: &[u8]) -> Result<Source, Fault>
    ensures { result ≡ source_at word.now }
{
    match register(word) {
        Ok(register) => Ok(Source::Reg(register)),
        Err(_) => Ok(Source::Imm(imm(word)?)),
    }
}

// Returns the text between brackets, which are the whole word.
#[tactic(auto, unfolding(crate::specs::model::Operands::inner))]
fn inner(word: &[u8]) -> Option<&[u8]>
    ensures { option_copied result ≡ inner word.now }
{
    let (front, rest) = split(Class::Bracketed, strip(b'[', word)?);
    match rest {
        [b']'] => Some(front),
        _ => None,
    }
}

/// Parses a register and an offset in brackets.
#[tactic(auto, unfolding(crate::specs::model::Operands::address_at))]
pub fn address(word: &[u8]) -> Result<(Register, i16), Fault>
    ensures { result ≡ address_at word.now }
{
    let Some(inner) = inner(word) else {
        return Err(Fault::Operand);
    };
    let (base, offset) = split(Class::Base, inner);
    let base = register(base)?;
    Ok((base, short_step(offset)?))
}

/// Splits off the leading operand, without the blanks around it.
pub fn word(text: &[u8]) -> (&[u8], &[u8])
    ensures word { result.0.now ≡ word text.now }
    ensures after { result.1.now ≡ after text.now }
{
    let (word, rest) = split(Class::Operand, skip_blanks(text));
    (word, skip_blanks(rest))
}

/// Returns the text after its leading comma, which is required.
pub fn comma(text: &[u8]) -> Result<&[u8], Fault>
    ensures { Gives (λ t. t.now) result (comma text.now) }
{
    match strip(b',', text) {
        Some(rest) => Ok(rest),
        None => Err(Fault::Operand),
    }
}

/// Rejects text after the last operand.
pub fn end(text: &[u8]) -> Result<(), Fault>
    ensures { result ≡ end_at text.now }
{
    if text.is_empty() {
        Ok(())
    } else {
        Err(Fault::LineEnd)
    }
}
