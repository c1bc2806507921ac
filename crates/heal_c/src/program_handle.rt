//! The handle of a program.
ghost use Rattle.std.specs.Prelude.{◌≡◌, Option, Some, None, MatchOption};
ghost use Rattle.upload_store.specs.Programs.{Upload};
ghost use Rattle.heal_c.specs.Held.{coded_held_program};

use handles::BoxParts;
use std::alloc::Global;
use std::marker::{Model, Send};
use std::mem;
use std::ptr::null_mut;
use upload_store::Upload;

/// A program, or nothing: one word, which is null where there is nothing.
#[repr(C)]
pub struct HealProgram {
    pub(crate) at: *mut u8,
    alloc: Global,
    pub ghost program: { Option Upload } by { coded_held_program },
}

impl Model for HealProgram {
    ghost use Rattle.std.specs.Prelude.{Option};
    ghost use Rattle.upload_store.specs.Programs.{Upload};
    ghost use Rattle.upload_store.specs.contracts.accepted.Upload.{the_row};
    ghost use Rattle.handles.specs.Handles.{handle_owns};

    ghost also_owns = { λ handle. handle_owns handle.alloc the_row handle.at handle.program };
}

impl HealProgram {
    // An empty handle.
    pub(crate) fn empty(alloc: Global) -> HealProgram
        ensures { result.program ≡ None }
    {
        HealProgram {
            at: null_mut(),
            alloc,
        }
    }

    // The handle of the box with these parts.
    fn from_parts(parts: BoxParts<Upload, Global>) -> HealProgram
        ensures { result.program ≡ Some parts.value }
    {
        let BoxParts { at, alloc } = parts;
        HealProgram {
            at: at as *mut u8,
            alloc,
        }
    }

    // The parts of the handle's box, if it isn't empty.
    fn into_parts(self) -> Option<BoxParts<Upload, Global>>
        ensures { MatchOption result (self.program ≡ None) (λ parts. self.program ≡ Some parts.value) }
    {
        let HealProgram { at, alloc } = self;
        if at.is_null() {
            None
        } else {
            Some(BoxParts {
                at: at as *mut Upload,
                alloc,
            })
        }
    }

    // Takes a program out, and leaves the handle empty.
    pub(crate) fn take(&mut self, alloc: Global) -> Option<Box<Upload>>
        ensures taken { MatchOption result (self.old.program ≡ None) (λ inner. self.old.program ≡ Some inner.value) }
        ensures left { self.new.program ≡ None }
    {
        match mem::replace(self, HealProgram::empty(alloc)).into_parts() {
            Some(parts) => Some(parts.into_box()),
            None => None,
        }
    }

    // Puts a program in, and frees the one that was there.
    pub(crate) fn put(&mut self, inner: Box<Upload>)
        ensures { self.new.program ≡ Some inner.value }
    {
        *self = HealProgram::from_parts(BoxParts::from_box(inner));
    }
}

impl Drop for HealProgram {
    fn drop(self) {
        if let Some(parts) = self.into_parts() {
            drop(parts.into_box());
        }
    }
}

// It goes to another thread as its value does.
unsafe impl Send for HealProgram {}
