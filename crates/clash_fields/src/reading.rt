//! The record of a clash from its fields.
ghost use Rattle.std.specs.Prelude.{◌≡◌, IfOk, map};
ghost use Rattle.script_text.specs.Commands.{IsRight};
ghost use Rattle.clash_fields.specs.Fields.{bare, clash_from_words, half_of_text, half_of_words, spaced, with_parts};
ghost use Rattle.clash_fields.specs.model.Views.{right_words, words_by};

use crate::words::HalfWords;
use clash_record::{ClashRecord, Contender, record};
use script_text::{LineFault, long, name_in, words_in};
use std::alloc::{AllocError, Global};

// Returns a text with spaces for commas.
fn spaced(alloc: Global, text: &[u8]) -> Result<Vec<u8>, AllocError>
    ensures { IfOk result (λ bytes. bytes.items ≡ spaced text.now) }
{
    let mut bytes = Vec::with_capacity(alloc, text.len())?;
    for &byte in text {
        bytes.push(if byte == b',' { b' ' } else { byte })?;
    }
    Ok(bytes)
}

// Sets the values of parts, one after another.
fn with_parts<'a>(words: HalfWords<'a>, parts: &[&'a [u8]]) -> Result<HalfWords<'a>, LineFault>
    ensures { right_words result ≡ with_parts (words_by words.entry) (map (λ part. part.now) parts.now) }
{
    let mut set = words;
    for &part in parts {
        set = set.with_part(part)?;
    }
    Ok(set)
}

// Reads the words of a registration and its half.
fn half_of_words(words: &[&[u8]]) -> Result<Contender, LineFault>
    ensures { result ≡ half_of_words (map (λ word. word.now) words.now) }
{
    match words {
        [owner, parts @ ..] => with_parts(HalfWords::bare(owner), parts)?.read(),
        [] => Err(LineFault::Word),
    }
}

// Reads a registration and its half.
fn half_of(alloc: Global, text: &[u8]) -> Result<Contender, LineFault>
    ensures { IsRight result (half_of_text text.now) }
{
    let spaced = spaced(alloc, text)?;
    let words = words_in(alloc, &spaced)?;
    half_of_words(&words)
}

/// Reads the record of a clash from its fields: a name, two registrations and a word, each as scripts have it.
///
/// A registration is an owner, and after commas any of `stamp=`, `weight=`, `extra=`, `size=` and `uptime=` with a value;
/// the last one of a key counts. Returns 44 for an invalid name, 50 for invalid hex digits, 51 for an unknown key and 52
/// for an invalid number, at the leftmost invalid word, and 90 when out of memory.
pub fn clash_of_fields(
    alloc: Global,
    name: &[u8],
    first: &[u8],
    second: &[u8],
    word: &[u8],
) -> Result<ClashRecord, LineFault>
    ensures { IsRight result (clash_from_words name.now first.now second.now word.now) }
{
    let name = name_in(name)?;
    let first = half_of(alloc, first)?;
    let second = half_of(alloc, second)?;
    let word = long(word)?;
    Ok(record(
        &name,
        &first.registration,
        &second.registration,
        word,
        first.facts,
        second.facts,
    ))
}
