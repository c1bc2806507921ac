//! The fields of a record in words.
ghost use Rattle.std.specs.Prelude.{◌≡◌, ◌+◌, ◌≤◌, length, take, drop, IfOk, string_bytes};
ghost use Rattle.hex.specs.Hex.{encode_lower};
ghost use Rattle.instruction_set.specs.Machine.{record_len};
ghost use Rattle.clash_fields.specs.Texts.{facts_text, half_text, registration_text, name_text, record_number, record_text};

use byteorder::{ByteOrder, LittleEndian};
use clash_record::{ClashRecord, Owner, name};
use std::alloc::{AllocError, Global};

// Returns the number in four bytes at an offset.
fn word_at(bytes: &[u8], at: usize) -> u32
    requires { at + 4 ≤ length bytes.now }
    ensures { result ≡ record_number at 4 bytes.now }
{
    LittleEndian::read_u32(&bytes[at..])
}

// Returns the number in eight bytes at an offset.
fn long_at(bytes: &[u8], at: usize) -> u64
    requires { at + 8 ≤ length bytes.now }
    ensures { result ≡ record_number at 8 bytes.now }
{
    LittleEndian::read_u64(&bytes[at..])
}

// Returns sixteen bytes from an offset on in hex digits.
fn extra_text(alloc: Global, bytes: &[u8], at: usize) -> Result<String, AllocError>
    requires { at + 16 ≤ length bytes.now }
    ensures { IfOk result (λ text. string_bytes text ≡ encode_lower (take 16 (drop at bytes.now))) }
{
    hex::encode(alloc, &bytes[at..at + 16])
}

// Returns the name in a record, or all its bytes in hex digits if they have none.
#[tactic(auto, unfolding(crate::specs::Texts::name_text))]
fn name_text(alloc: Global, bytes: &[u8]) -> Result<String, AllocError>
    requires { length bytes.now ≡ record_len }
    ensures { IfOk result (λ text. string_bytes text ≡ name_text bytes.now) }
{
    let len = (word_at(bytes, 0) as usize).min(32);
    match name(&bytes[8..8 + len]) {
        Ok(name) => format!(in alloc; "{name}"),
        Err(_) => hex::encode(alloc, &bytes[8..40]),
    }
}

// Returns the text of a registration at this place.
#[tactic(auto, unfolding(crate::specs::Texts::registration_text))]
fn registration_text(alloc: Global, bytes: &[u8], place: usize) -> Result<String, AllocError>
    requires place { place + 24 ≤ length bytes.now }
    requires few { length bytes.now ≡ record_len }
    ensures { IfOk result (λ text. string_bytes text ≡ registration_text place bytes.now) }
{
    let owner = Owner {
        node: word_at(bytes, place),
        serial: word_at(bytes, place + 4),
    };
    let (stamp, weight) = (long_at(bytes, place + 8), long_at(bytes, place + 16));
    format!(in alloc; "{owner}, stamp {stamp}, weight {weight}")
}

// Returns the text of the facts of a half at this place.
#[tactic(auto, unfolding(crate::specs::Texts::facts_text))]
fn facts_text(alloc: Global, bytes: &[u8], place: usize) -> Result<String, AllocError>
    requires place { place + 16 ≤ length bytes.now }
    requires few { length bytes.now ≡ record_len }
    ensures { IfOk result (λ text. string_bytes text ≡ facts_text place bytes.now) }
{
    let (size, uptime) = (long_at(bytes, place), long_at(bytes, place + 8));
    format!(in alloc; "size {size}, uptime {uptime}")
}

// Returns the text of a registration at this place, and of the facts of its half at that one.
#[tactic(auto, unfolding(crate::specs::Texts::half_text))]
fn half_text(
    alloc: Global,
    which: &str,
    place: usize,
    facts: usize,
    bytes: &[u8],
) -> Result<String, AllocError>
    requires place { place + 40 ≤ length bytes.now }
    requires facts { facts + 16 ≤ length bytes.now }
    requires few { length bytes.now ≡ record_len }
    ensures { IfOk result (λ text. string_bytes text ≡ half_text which.now place facts bytes.now) }
{
    let registration = registration_text(alloc, bytes, place)?;
    let extra = extra_text(alloc, bytes, place + 24)?;
    let facts = facts_text(alloc, bytes, facts)?;
    format!(in alloc; "{which} {registration}, extra {extra}, {facts}\n")
}

/// Returns the fields of a record in words: the name and the word, and then the two registrations, each on a line.
pub fn record_text(alloc: Global, clash: &ClashRecord) -> Result<String, AllocError>
    ensures { IfOk result (λ text. string_bytes text ≡ record_text clash.now) }
{
    let bytes = clash.bytes();
    let name = name_text(alloc, bytes)?;
    let word = long_at(bytes, 40);
    let first = half_text(alloc, "first", 48, 128, bytes)?;
    let second = half_text(alloc, "second", 88, 144, bytes)?;
    format!(in alloc; "name {name}, word {word}\n{first}{second}")
}
