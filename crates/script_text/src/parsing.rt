//! Reading a line.
ghost use Rattle.std.specs.Prelude.{◌≡◌, ◌<◌, true, false, codes, length, drop, map, Ok, None};
ghost use Rattle.std.specs.Option.{option_map};
ghost use Rattle.script_text.specs.Asking as asking;
ghost use Rattle.script_text.specs.Asking.{is_word, side_named, name_of, extra_of, terms_of, triples_of, withdrawals_of, if_right, long_of, asked_by, asked_of, takes_memory};
ghost use Rattle.script_text.specs.Words.{words_of};
ghost use Rattle.script_text.specs.Commands.{IsRight, right_command, right_option};
ghost use Rattle.script_text.specs.model.Triples.{after_first, right_triple, given_uptimes, right_triples, right_withdrawals, shown_triple};

use crate::command::Command;
use crate::fault::LineFault;
use crate::numbers::{long, owner};
use crate::words::{REGISTER_WORDS, fill_words, is_printable, split_word, words_in};
use clash_record::{Name, SideId, Terms, Uptimes, Withdrawal, name};
use hex::decode_to_slice;
use std::alloc::{AllocError, Global};

/// Parses a line. Returns no command for a blank line and for a comment.
///
/// The line has no line feed. Returns 51 for an unknown word, a wrong number of words or a byte outside ASCII's printable
/// characters, and otherwise, for the leftmost invalid word, 44 for a name, 50 for hex digits and 52 for a number.
/// Returns 90 when out of memory: it allocates the list of words and the list of withdrawn names. It allocates nothing
/// for a blank line, a comment, a registration or a line with a byte outside ASCII's printable characters.
#[tactic(auto, using(crate::proofs::Silences::asks_something))]
pub fn command_of(alloc: Global, line: &[u8]) -> Result<Option<Command<'_>>, LineFault>
    ensures asked { IsRight (right_option result) (asked_of line.now) }
    ensures silent { asked_of line.now ≡ Ok None → result ≡ Ok None }
    // A line that takes no memory is never refused 90.
    ensures exact { takes_memory line.now ≡ false → right_option result ≡ asked_of line.now }
{
    let Some((first, rest)) = split_word(line) else {
        return Ok(None);
    };
    if begins_comment(first) {
        return Ok(None);
    }
    if !is_printable(line) {
        return Err(LineFault::Word);
    }
    Ok(Some(command(alloc, first, rest)?))
}

fn begins_comment(first: &[u8]) -> bool
    ensures { result ≡ asking.begins_comment first.now }
{
    matches!(first, [b'#', ..])
}

// Parses a command, with the text that follows its first word. Allocates nothing for `register`, the most frequent one.
fn command<'a>(alloc: Global, first: &[u8], rest: &'a [u8]) -> Result<Command<'a>, LineFault>
    ensures right { IsRight (right_command result) (asked_by first.now (words_of rest.now)) }
    ensures exact { is_word first.now (codes "register") ≡ true
        → right_command result ≡ asked_by first.now (words_of rest.now) }
{
    if first == b"register".as_slice() {
        return register(rest);
    }
    let words = words_in(alloc, rest)?;
    other_command(alloc, first, words.as_slice())
}

// Parses a command other than `register`.
fn other_command<'a>(
    alloc: Global,
    first: &[u8],
    words: &[&'a [u8]],
) -> Result<Command<'a>, LineFault>
    requires { is_word first.now (codes "register") ≡ false }
    ensures { IsRight (right_command result) (asked_by first.now (map (λ word. word.now) words.now)) }
{
    if first == b"upload".as_slice() {
        upload(words)
    } else if first == b"unregister".as_slice() {
        unregister(words)
    } else if first == b"whereis".as_slice() {
        whereis(words)
    } else if first == b"show".as_slice() {
        show(words)
    } else if first == b"heal".as_slice() {
        heal(alloc, words)
    } else {
        Err(LineFault::Word)
    }
}

fn upload<'a>(words: &[&'a [u8]]) -> Result<Command<'a>, LineFault>
    ensures { right_command result ≡ asking.upload_of (map (λ word. word.now) words.now) }
{
    let [label, code] = words else {
        return Err(LineFault::Word);
    };
    Ok(Command::Upload { label, code })
}

#[tactic(auto, using(crate::proofs::Triples::register_by_seven))]
fn register(text: &[u8]) -> Result<Command<'_>, LineFault>
    ensures { right_command result ≡ asking.register_of (words_of text.now) }
{
    let mut words = [text; REGISTER_WORDS];
    if !fill_words(text, &mut words) {
        return Err(LineFault::Word);
    }
    let [side_word, name, owner, stamp, weight, extra, resolver] = words;
    let side = side(side_word)?;
    let name = name_in(name)?;
    let terms = terms(owner, stamp, weight, extra)?;
    Ok(Command::Register {
        side,
        name,
        terms,
        resolver,
    })
}

fn unregister<'a>(words: &[&'a [u8]]) -> Result<Command<'a>, LineFault>
    ensures { right_command result ≡ asking.unregister_of (map (λ word. word.now) words.now) }
{
    let [side_word, name_word] = words else {
        return Err(LineFault::Word);
    };
    Ok(Command::Unregister {
        side: side(side_word)?,
        name: name_in(name_word)?,
    })
}

fn whereis<'a>(words: &[&'a [u8]]) -> Result<Command<'a>, LineFault>
    ensures { right_command result ≡ asking.whereis_of (map (λ word. word.now) words.now) }
{
    let [side_word, name_word] = words else {
        return Err(LineFault::Word);
    };
    Ok(Command::Whereis {
        side: side(side_word)?,
        name: name_in(name_word)?,
    })
}

fn show<'a>(words: &[&'a [u8]]) -> Result<Command<'a>, LineFault>
    ensures { right_command result ≡ asking.show_of (map (λ word. word.now) words.now) }
{
    let [side_word] = words else {
        return Err(LineFault::Word);
    };
    Ok(Command::Show {
        side: side(side_word)?,
    })
}

fn heal<'a>(alloc: Global, words: &[&'a [u8]]) -> Result<Command<'a>, LineFault>
    ensures { IsRight (right_command result) (asking.heal_of (map (λ word. word.now) words.now)) }
{
    match words {
        [] | [_, _] => Err(LineFault::Word),
        [seed] => healing(alloc, seed, None, &[]),
        [seed, b"gone", ..] => healing(alloc, seed, None, &words[1..]),
        [seed, a, b, gone @ ..] => healing(alloc, seed, Some((a, b)), gone),
    }
}

// Heals by these words, of which the uptimes may be left out.
fn healing<'a>(
    alloc: Global,
    seed: &[u8],
    uptimes: Option<(&[u8], &[u8])>,
    gone: &[&'a [u8]],
) -> Result<Command<'a>, LineFault>
    ensures { IsRight (right_command result) (if_right (triples_of (map (λ word. word.now) gone.now))
        (asking.healing (long_of seed.now) (given_uptimes (option_map (λ words. (words.0.now, words.1.now))
        uptimes.entry)))) }
{
    let triples = triples(alloc, gone)?;
    Ok(Command::Heal {
        seed: long(seed)?,
        uptimes: uptimes_of(uptimes)?,
        gone: withdrawals(alloc, &triples)?,
    })
}

// The uptimes of two words, or zeros where they are left out.
fn uptimes_of(words: Option<(&[u8], &[u8])>) -> Result<Uptimes, LineFault>
    ensures { result ≡ given_uptimes (option_map (λ words. (words.0.now, words.1.now)) words.entry) }
{
    match words {
        Some((a, b)) => Ok(Uptimes {
            a: long(a)?,
            b: long(b)?,
        }),
        None => Ok(Uptimes { a: 0, b: 0 }),
    }
}

// A name that goes, as it is written.
#[derive(Clone, Copy, Debug)]
struct Triple<'a> {
    side: SideId,
    name: &'a [u8],
}

// Words in threes: `gone`, a side, and a name.
fn triples<'a>(alloc: Global, words: &[&'a [u8]]) -> Result<Vec<Triple<'a>>, LineFault>
    ensures { IsRight (right_triples result) (triples_of (map (λ word. word.now) words.now)) }
{
    let mut triples = Vec::new(alloc);
    let mut at = 0;
    while at < words.len() {
        let triple = first_triple(&words[at..])?;
        triples.push(triple).map_err(AllocError::from)?;
        at += 3;
    }
    Ok(triples)
}

// The first three of some words.
#[tactic(auto, using(crate::proofs::Triples::triples_by_three, crate::proofs::Triples::triples_short))]
fn first_triple<'a>(words: &[&'a [u8]]) -> Result<Triple<'a>, LineFault>
    requires { 0 < length words.now }
    ensures { triples_of (map (λ word. word.now) words.now)
        ≡ after_first (right_triple result) (triples_of (map (λ word. word.now) (drop 3 words.now))) }
{
    let [gone, side_word, name, ..] = words else {
        return Err(LineFault::Word);
    };
    if *gone != b"gone".as_slice() {
        return Err(LineFault::Word);
    }
    let side = side(side_word)?;
    Ok(Triple { side, name })
}

// The names of these words.
fn withdrawals(alloc: Global, triples: &[Triple<'_>]) -> Result<Vec<Withdrawal>, LineFault>
    ensures { IsRight (right_withdrawals result) (withdrawals_of (map shown_triple triples.now)) }
{
    let mut gone = Vec::new(alloc);
    for triple in triples {
        let side = triple.side;
        let name = name_in(triple.name)?;
        gone.push(Withdrawal { side, name })
            .map_err(AllocError::from)?;
    }
    Ok(gone)
}

/// Returns the terms of a registration, apart from its resolver.
pub fn terms(
    owner_word: &[u8],
    stamp: &[u8],
    weight: &[u8],
    extra_word: &[u8],
) -> Result<Terms, LineFault>
    ensures { result ≡ terms_of owner_word.now stamp.now weight.now extra_word.now }
{
    Ok(Terms {
        owner: owner(owner_word)?,
        stamp: long(stamp)?,
        weight: long(weight)?,
        extra: extra(extra_word)?,
    })
}

// Sixteen bytes in hex digits, or a dash for zeros.
fn extra(word: &[u8]) -> Result<[u8; 16], LineFault>
    ensures { result ≡ extra_of word.now }
{
    let mut bytes = [0; 16];
    if word == b"-".as_slice() {
        return Ok(bytes);
    }
    match decode_to_slice(word, &mut bytes) {
        Ok(()) => Ok(bytes),
        Err(_) => Err(LineFault::HexText),
    }
}

fn side(word: &[u8]) -> Result<SideId, LineFault>
    ensures { result ≡ side_named word.now }
{
    match word {
        b"a" => Ok(SideId::A),
        b"b" => Ok(SideId::B),
        _ => Err(LineFault::Word),
    }
}

/// Reads a word as a name.
pub fn name_in(word: &[u8]) -> Result<Name, LineFault>
    ensures { result ≡ name_of word.now }
{
    Ok(name(word)?)
}
