//! The record of a clash.
ghost use Rattle.std.specs.Prelude.{◌≡◌, ℕ, ◌<◌, ◌≤◌, List, length, All};
ghost use Rattle.std.specs.Int.{w64, to_le_bytes};
ghost use Rattle.clash_record.specs.declared.registrations.Registration.{Registration};
ghost use Rattle.clash_record.specs.declared.records.Facts.{Facts};
ghost use Rattle.clash_record.specs.Name.{name_limit};
ghost use Rattle.clash_record.specs.Record.{name_field, registration_bytes, registrations_bytes, facts_bytes, clash_bytes, with_word};
ghost use Rattle.instruction_set.specs.Machine.{record_len};

use crate::names::Name;
use crate::registrations::Registration;
use byteorder::{ByteOrder, LittleEndian};
use instruction_set::RECORD_LEN;
use std::marker::Model;

// The place of the word in a record.
const WORD_AT: usize = 40;

/// The record of a clash, as a program reads it. Contracts see it as the list of its bytes.
#[derive(Clone, Copy, Debug, PartialEq, Eq)]
pub struct ClashRecord {
    bytes: [u8; RECORD_LEN],
}

impl Model for ClashRecord {
    ghost use Rattle.std.specs.Prelude.{ℕ, List};

    ghost Value = { List ℕ };

    ghost view = { λ r. r.bytes };

    ghost inverse = { λ bytes. record { bytes = bytes } };
}

impl ClashRecord {
    /// Returns the bytes of the record.
    pub fn bytes(&self) -> &[u8; RECORD_LEN]
        ensures value { result.now ≡ self.now }
        ensures whole { length result.now ≡ record_len }
        ensures bytes { All (λ byte. byte < 256) result.now }
    {
        let bytes = &self.bytes;
        bytes_fit(bytes);
        bytes
    }
}

// Proves that each byte is below 256.
fn bytes_fit(bytes: &[u8])
    ensures { All (λ byte. byte < 256) bytes.now }
{}

/// The facts about one half of a clash: the size of its table and its uptime.
#[derive(Clone, Copy, Debug, PartialEq, Eq)]
pub struct Facts {
    /// The number of names in the table that holds the registration.
    pub size: u64,
    /// The half's uptime, in the caller's unit.
    pub uptime: u64,
}

/// A registration in a clash, and the facts about the half that holds it.
#[derive(Clone, Copy, Debug, PartialEq, Eq)]
pub struct Contender {
    pub registration: Registration,
    pub facts: Facts,
}

/// Returns the record of a clash of two registrations of a name at a word, with the facts of each registration's half.
pub fn record(
    name: &Name,
    first: &Registration,
    second: &Registration,
    word: u64,
    of_first: Facts,
    of_second: Facts,
) -> ClashRecord
    ensures { result ≡ clash_bytes name.now first.now second.now word of_first of_second }
{
    let first = Contender {
        registration: *first,
        facts: of_first,
    };
    let second = Contender {
        registration: *second,
        facts: of_second,
    };
    let mut bytes = [0; RECORD_LEN];
    write_record(&mut bytes, name, &first, &second, word);
    ClashRecord { bytes }
}

impl From<[u8; RECORD_LEN]> for ClashRecord {
    ghost from_gives = { λ bytes made. made ≡ bytes };

    fn from(bytes: [u8; RECORD_LEN]) -> ClashRecord {
        record_of(bytes)
    }
}

/// Returns the record with these bytes. Accepts any bytes.
pub fn record_of(bytes: [u8; RECORD_LEN]) -> ClashRecord
    ensures { result ≡ bytes }
{
    ClashRecord { bytes }
}

/// Writes the record of a clash of two registrations of a name at a word.
///
/// Requires 160 bytes, and sets all of them.
pub fn write_record(out: &mut [u8], name: &Name, first: &Contender, second: &Contender, word: u64)
    requires { length out.old ≡ record_len }
    ensures { out.new ≡ clash_bytes name.now first.now.registration second.now.registration word first.now.facts
        second.now.facts }
{
    write_registrations(
        &mut out[..128],
        name,
        &first.registration,
        &second.registration,
        word,
    );
    write_facts(&mut out[128..144], first.facts);
    write_facts(&mut out[144..], second.facts);
}

/// Sets the word of a record: eight bytes from 40 on, the least first. Keeps the other bytes.
///
/// Requires 160 bytes.
pub fn set_word(out: &mut [u8], word: u64)
    requires { length out.old ≡ record_len }
    ensures bytes { out.new ≡ with_word out.old word }
    // The record of a clash becomes the record of that clash at this word.
    ensures clash { (name : List ℕ) (first second : Registration) (earlier : ℕ) (of_first of_second : Facts)
        → length name ≤ name_limit → out.old ≡ clash_bytes name first second earlier of_first of_second
        → out.new ≡ clash_bytes name first second word of_first of_second }
{
    write_word(&mut out[WORD_AT..WORD_AT + 8], word);
}

// Writes the name, the word and the two registrations, one after another.
fn write_registrations(
    out: &mut [u8],
    name: &Name,
    first: &Registration,
    second: &Registration,
    word: u64,
)
    requires { length out.old ≡ 128 }
    ensures { out.new ≡ registrations_bytes name.now first.now second.now word }
{
    write_name(&mut out[..40], name);
    write_word(&mut out[40..48], word);
    write_registration(&mut out[48..88], first);
    write_registration(&mut out[88..], second);
}

// Writes the length of the name, four zeros, and the name with zeros after it.
fn write_name(out: &mut [u8], name: &Name)
    requires { length out.old ≡ 40 }
    ensures { out.new ≡ name_field name.now }
{
    LittleEndian::write_u32(out, name.bytes().len() as u32);
    LittleEndian::write_u32(&mut out[4..], 0);
    out[8..].copy_from_slice(name.padded());
}

// Writes the word, the lowest byte first.
fn write_word(out: &mut [u8], word: u64)
    requires { length out.old ≡ 8 }
    ensures { out.new ≡ to_le_bytes w64 word }
{
    LittleEndian::write_u64(out, word);
}

// Writes a registration's fields, one after another.
fn write_registration(out: &mut [u8], registration: &Registration)
    requires { length out.old ≡ 40 }
    ensures { out.new ≡ registration_bytes registration.now }
{
    LittleEndian::write_u32(out, registration.owner.node);
    LittleEndian::write_u32(&mut out[4..], registration.owner.serial);
    LittleEndian::write_u64(&mut out[8..], registration.stamp);
    LittleEndian::write_u64(&mut out[16..], registration.weight);
    out[24..].copy_from_slice(&registration.extra);
}

// Writes the size and the uptime.
fn write_facts(out: &mut [u8], facts: Facts)
    requires { length out.old ≡ 16 }
    ensures { out.new ≡ facts_bytes facts }
{
    LittleEndian::write_u64(out, facts.size);
    LittleEndian::write_u64(&mut out[8..], facts.uptime);
}
