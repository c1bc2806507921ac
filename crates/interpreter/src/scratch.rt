//! The memory of runs.
ghost use Rattle.std.specs.Prelude.{◌≡◌, ℕ, ◌≤◌, List, length, replicate};
ghost use Rattle.clash_record.specs.declared.registrations.Registration.{Registration};
ghost use Rattle.clash_record.specs.declared.records.Facts.{Facts};
ghost use Rattle.clash_record.specs.Name.{name_limit};
ghost use Rattle.clash_record.specs.Record.{clash_bytes, with_word};
ghost use Rattle.instruction_set.specs.Machine.{record_len};

use clash_record::{ClashRecord, Contender, Name, RECORD_LEN, set_word, write_record};
use one_step::MEMORY_LEN;
use std::marker::Model;

/// The memory of a run: the record and the stack. One scratch memory serves any number of runs, one after another.
///
/// Contracts see it as the bytes of its record.
#[derive(Debug, Drop)]
pub struct Scratch {
    pub(crate) bytes: [u8; MEMORY_LEN],
}

impl Model for Scratch {
    ghost use Rattle.std.specs.Prelude.{ℕ, List};
    ghost use Rattle.one_step.specs.Flat.{record_in};

    ghost Value = { List ℕ };

    ghost view = { λ s. record_in s.bytes };
}

impl Scratch {
    /// Creates a scratch memory whose record is zeros. Allocates nothing.
    pub fn new() -> Scratch
        ensures { result ≡ replicate record_len 0 }
    {
        Scratch {
            bytes: [0; MEMORY_LEN],
        }
    }

    /// Returns the bytes of the record.
    pub fn record(&self) -> &[u8]
        ensures value { result.now ≡ self.now }
        ensures whole { length result.now ≡ record_len }
    {
        &self.bytes[..RECORD_LEN]
    }

    /// Copies a record to the place where runs read it.
    pub fn copy_record(&mut self, clash: &ClashRecord)
        ensures { self.new ≡ clash.now }
    {
        self.bytes[..RECORD_LEN].copy_from_slice(clash.bytes());
    }

    /// Writes the record of a clash of two registrations of a name at a word to the place where runs read it.
    pub fn write_record(&mut self, name: &Name, first: &Contender, second: &Contender, word: u64)
        ensures { self.new ≡ clash_bytes name.now first.now.registration second.now.registration word first.now.facts
            second.now.facts }
    {
        write_record(&mut self.bytes[..RECORD_LEN], name, first, second, word);
    }

    /// Sets the word of the record, and keeps its other bytes.
    pub fn set_word(&mut self, word: u64)
        ensures bytes { self.new ≡ with_word self.old word }
        // The record of a clash becomes the record of that clash at this word.
        ensures clash { (name : List ℕ) (first second : Registration) (earlier : ℕ) (of_first of_second : Facts)
            → length name ≤ name_limit → self.old ≡ clash_bytes name first second earlier of_first of_second
            → self.new ≡ clash_bytes name first second word of_first of_second }
    {
        set_word(&mut self.bytes[..RECORD_LEN], word);
    }
}

impl Default for Scratch {
    fn default() -> Scratch {
        Scratch::new()
    }
}
