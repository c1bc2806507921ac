//! Programs, kept under labels.
ghost use Rattle.std.specs.Prelude.{◌<◌, vec_len, vec_capacity};
ghost use Rattle.scripts.specs.Machines.{machine_of};
ghost use Rattle.scripts.specs.Steps.{UnlessMemory, UploadStep, UploadsBytes};

use crate::fault::WordFault;
use crate::labels::{Label, free_label};
use crate::machine::Machine;
use crate::reply::Reply;
use clash_record::Name;
use code_file::decode_digits;
use std::alloc::Global;

impl Machine {
    /// Stores the program that these hex digits spell, under a label.
    ///
    /// Returns 53 for a label that isn't 1 to 32 visible characters of ASCII, is in use or is a built-in resolver's
    /// word, then 50 for invalid hex digits, then the refusals of the store, and 90 when out of memory. A refusal
    /// changes nothing.
    pub fn upload(&mut self, alloc: Global, label: &[u8], code: &[u8]) -> Reply
        ensures { UnlessMemory (UploadStep (machine_of self.old) label.now code.now) (machine_of self.old) result
            (machine_of self.new) }
    {
        let Some(label) = free_label(&self.labels, label) else {
            return Reply::refused(&WordFault::Label);
        };
        if self.labels.reserve(1).is_err() {
            return Reply::refused(&WordFault::OutOfMemory);
        }
        match decode_digits(alloc, code) {
            Ok(bytes) => self.keep(alloc, label, &bytes),
            Err(invalid) => Reply::refused(&invalid),
        }
    }

    // Keeps the program that these bytes spell, under a label for which there is room.
    pub(crate) fn keep(&mut self, alloc: Global, label: Name, bytes: &[u8]) -> Reply
        requires { vec_len self.old.labels < vec_capacity self.old.labels }
        ensures { UnlessMemory (UploadsBytes (machine_of self.old) label bytes.now) (machine_of self.old) result
            (machine_of self.new) }
    {
        let uploaded = self.store.upload_program(alloc, bytes);
        self.agreements.restart(&self.cluster, &self.store);
        match uploaded {
            Ok(uploaded) => {
                self.labels.push_reserved(Label {
                    text: label,
                    program: uploaded.id,
                });
                let count = uploaded.len;
                Reply::Uploaded { label, count }
            }
            Err(fault) => Reply::refused(&fault),
        }
    }
}
