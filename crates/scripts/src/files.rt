//! Programs in files.
ghost use Rattle.std.specs.Prelude.{◌≡◌, IfOk, IfErr, None, option_map};
ghost use Rattle.hex.specs.Hex.{IsBytes};
ghost use Rattle.code_file.specs.Files.{HasFileCode, IsNoFileCode, OfBytes, file_named};
ghost use Rattle.scripts.specs.Machines.{machine_of};
ghost use Rattle.scripts.specs.Steps.{UnlessMemory, UploadsBytes, UploadsFile, UploadsWord};

use crate::fault::WordFault;
use crate::labels::free_label;
use crate::machine::Machine;
use crate::reply::Reply;
use clash_record::Name;
use code_file::{FileFault, code_in};
use std::alloc::Global;
use std::rt::Files;

// Returns the file that a word for code names, if it begins with `@`.
fn file_named(word: &[u8]) -> Option<&[u8]>
    ensures { option_map (λ file. file.now) result ≡ file_named word.now }
{
    if word.is_empty() || word[0] != b'@' {
        return None;
    }
    Some(&word[1..])
}

// Reads the code in a file. A file whose name isn't text can't be read.
fn code_at<R: Files + AllocGlobal>(rt: &R, file: &[u8]) -> Result<Vec<u8>, FileFault>
    ensures code { IfOk result (λ code. OfBytes None (λ content. HasFileCode content code.items)) }
    ensures refused { IfErr result (IsNoFileCode None) }
{
    match str::from_utf8(file) {
        Ok(file) => code_in(rt, file),
        Err(_) => Err(FileFault::Unreadable),
    }
}

impl Machine {
    /// Stores the program of a word under a label: of hex digits, or of `@` and the file that has it.
    ///
    /// The file is read once, and then stored as its digits are by `upload`. Returns 53 for an invalid label and reads
    /// nothing, then 8, 50, 57 or 58 for a file without code, then the refusals of `upload`. A refusal changes nothing.
    pub fn upload_word<R: Files + AllocGlobal>(
        &mut self,
        rt: &R,
        label: &[u8],
        word: &[u8],
    ) -> Reply
        ensures { UnlessMemory (UploadsWord (machine_of self.old) label.now word.now) (machine_of self.old) result
            (machine_of self.new) }
    {
        match file_named(word) {
            Some(file) => self.upload_file(rt, label, file),
            None => self.upload(rt.alloc(), label, word),
        }
    }

    // Stores the program in a file under a label.
    fn upload_file<R: Files + AllocGlobal>(&mut self, rt: &R, label: &[u8], file: &[u8]) -> Reply
        ensures { UnlessMemory (UploadsFile (machine_of self.old) label.now) (machine_of self.old) result
            (machine_of self.new) }
    {
        let Some(label) = free_label(&self.labels, label) else {
            return Reply::refused(&WordFault::Label);
        };
        match code_at(rt, file) {
            Ok(code) => self.keep_file(rt.alloc(), label, &code),
            Err(fault) => Reply::refused(&fault),
        }
    }

    // Keeps the program of a file under a free label.
    fn keep_file(&mut self, alloc: Global, label: Name, code: &[u8]) -> Reply
        ensures kept { UnlessMemory (UploadsBytes (machine_of self.old) label code.now) (machine_of self.old) result
            (machine_of self.new) }
        ensures bytes { IsBytes code.entry.now }
    {
        if self.labels.reserve(1).is_err() {
            return Reply::refused(&WordFault::OutOfMemory);
        }
        self.keep(alloc, label, code)
    }
}
