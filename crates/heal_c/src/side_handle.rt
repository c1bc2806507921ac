//! The handle of a side.
ghost use Rattle.std.specs.Prelude.{◌≡◌, Option, Some, None, MatchOption};
ghost use Rattle.c_calls.specs.Answers.{held_after, returned_number};
ghost use Rattle.c_calls.specs.Halves.{SideAndStore};
ghost use Rattle.heal_c.specs.Held.{coded_held_half};

use c_calls::Half;
use handles::BoxParts;
use std::alloc::Global;
use std::marker::Model;
use std::mem;
use std::ptr::null_mut;

/// A side, or nothing: one word, which is null where there is nothing.
#[repr(C)]
pub struct HealSide {
    pub(crate) at: *mut u8,
    alloc: Global,
    pub ghost half: { Option SideAndStore } by { coded_held_half },
}

impl Model for HealSide {
    ghost use Rattle.std.specs.Prelude.{Option};
    ghost use Rattle.c_calls.specs.Halves.{SideAndStore};
    ghost use Rattle.c_calls.specs.contracts.half.Half.{the_row};
    ghost use Rattle.handles.specs.Handles.{handle_owns};

    ghost also_owns = { λ handle. handle_owns handle.alloc the_row handle.at handle.half };
}

impl HealSide {
    // An empty handle.
    pub(crate) fn empty(alloc: Global) -> HealSide
        ensures { result.half ≡ None }
    {
        HealSide {
            at: null_mut(),
            alloc,
        }
    }

    // The handle of the box with these parts.
    fn from_parts(parts: BoxParts<Half, Global>) -> HealSide
        ensures { result.half ≡ Some parts.value }
    {
        let BoxParts { at, alloc } = parts;
        HealSide {
            at: at as *mut u8,
            alloc,
        }
    }

    // The parts of the handle's box, if it isn't empty.
    fn into_parts(self) -> Option<BoxParts<Half, Global>>
        ensures { MatchOption result (self.half ≡ None) (λ parts. self.half ≡ Some parts.value) }
    {
        let HealSide { at, alloc } = self;
        if at.is_null() {
            None
        } else {
            Some(BoxParts {
                at: at as *mut Half,
                alloc,
            })
        }
    }

    // Takes a side out, and leaves the handle empty.
    pub(crate) fn take(&mut self, alloc: Global) -> Option<Box<Half>>
        ensures taken { MatchOption result (self.old.half ≡ None) (λ inner. self.old.half ≡ Some inner.value) }
        ensures left { self.new.half ≡ None }
    {
        match mem::replace(self, HealSide::empty(alloc)).into_parts() {
            Some(parts) => Some(parts.into_box()),
            None => None,
        }
    }

    // Puts a side in, and frees the one that was there.
    pub(crate) fn put(&mut self, inner: Box<Half>)
        ensures { self.new.half ≡ Some inner.value }
    {
        *self = HealSide::from_parts(BoxParts::from_box(inner));
    }

    // Puts what a call made in and returns 0, or returns the number of its refusal.
    pub(crate) fn fill(&mut self, made: Result<Box<Half>, u32>) -> u32
        ensures held { self.new.half ≡ held_after (λ inner. inner.value) self.old.half made }
        ensures number { result ≡ returned_number (λ n. n) made }
    {
        match made {
            Ok(inner) => {
                self.put(inner);
                0
            }
            Err(number) => number,
        }
    }
}

impl Drop for HealSide {
    fn drop(self) {
        if let Some(parts) = self.into_parts() {
            drop(parts.into_box());
        }
    }
}
