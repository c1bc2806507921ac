//! The handle of a message.
ghost use Rattle.std.specs.Prelude.{◌≡◌, ℕ, List, Option, Some, None, MatchOption};
ghost use Rattle.c_calls.specs.Answers.{held_after, returned_number};

use c_calls::Message;
use handles::BoxParts;
use std::alloc::Global;
use std::marker::{Model, Send};
use std::mem;
use std::ptr::null_mut;

/// A message, or nothing: one word, which is null where there is nothing.
#[repr(C)]
pub struct HealBytes {
    pub(crate) at: *mut u8,
    alloc: Global,
    pub ghost message: { Option (List ℕ) },
}

impl Model for HealBytes {
    ghost use Rattle.std.specs.Prelude.{ℕ, List, Option};
    ghost use Rattle.c_calls.specs.contracts.message.Message.{the_row};
    ghost use Rattle.handles.specs.Handles.{handle_owns};

    ghost also_owns = { λ handle. handle_owns handle.alloc the_row handle.at handle.message };
}

impl HealBytes {
    // An empty handle.
    pub(crate) fn empty(alloc: Global) -> HealBytes
        ensures { result.message ≡ None }
    {
        HealBytes {
            at: null_mut(),
            alloc,
        }
    }

    // The handle of the box with these parts.
    fn from_parts(parts: BoxParts<Message, Global>) -> HealBytes
        ensures { result.message ≡ Some parts.value }
    {
        let BoxParts { at, alloc } = parts;
        HealBytes {
            at: at as *mut u8,
            alloc,
        }
    }

    // The parts of the handle's box, if it isn't empty.
    fn into_parts(self) -> Option<BoxParts<Message, Global>>
        ensures { MatchOption result (self.message ≡ None) (λ parts. self.message ≡ Some parts.value) }
    {
        let HealBytes { at, alloc } = self;
        if at.is_null() {
            None
        } else {
            Some(BoxParts {
                at: at as *mut Message,
                alloc,
            })
        }
    }

    // Takes a message out, and leaves the handle empty.
    pub(crate) fn take(&mut self, alloc: Global) -> Option<Box<Message>>
        ensures taken { MatchOption result (self.old.message ≡ None) (λ inner. self.old.message ≡ Some inner.value) }
        ensures left { self.new.message ≡ None }
    {
        match mem::replace(self, HealBytes::empty(alloc)).into_parts() {
            Some(parts) => Some(parts.into_box()),
            None => None,
        }
    }

    // Puts a message in, and frees the one that was there.
    pub(crate) fn put(&mut self, inner: Box<Message>)
        ensures { self.new.message ≡ Some inner.value }
    {
        *self = HealBytes::from_parts(BoxParts::from_box(inner));
    }

    // Puts what a call made in and returns 0, or returns the number of its refusal.
    pub(crate) fn fill(&mut self, made: Result<Box<Message>, u32>) -> u32
        ensures held { self.new.message ≡ held_after (λ inner. inner.value) self.old.message made }
        ensures number { result ≡ returned_number (λ n. n) made }
    {
        match made {
            Ok(inner) => {
                self.put(inner);
                0
            }
            Err(number) => number,
        }
    }
}

impl Drop for HealBytes {
    fn drop(self) {
        if let Some(parts) = self.into_parts() {
            drop(parts.into_box());
        }
    }
}

// It goes to another thread as its value does.
unsafe impl Send for HealBytes {}
