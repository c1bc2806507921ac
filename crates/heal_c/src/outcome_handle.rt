//! The handle of an outcome.
ghost use Rattle.std.specs.Prelude.{◌≡◌, Option, Some, None, MatchOption};
ghost use Rattle.c_calls.specs.Answers.{held_after, returned_number};
ghost use Rattle.c_calls.specs.declared.outcome.Outcome.{Outcome};
ghost use Rattle.heal_c.specs.Held.{coded_held_outcome};

use c_calls::Outcome;
use handles::BoxParts;
use std::alloc::Global;
use std::marker::{Model, Send};
use std::mem;
use std::ptr::null_mut;

/// An outcome, or nothing: one word, which is null where there is nothing.
#[repr(C)]
pub struct HealOutcome {
    pub(crate) at: *mut u8,
    alloc: Global,
    pub ghost outcome: { Option Outcome } by { coded_held_outcome },
}

impl Model for HealOutcome {
    ghost use Rattle.std.specs.Prelude.{Option};
    ghost use Rattle.c_calls.specs.declared.outcome.Outcome.{Outcome};
    ghost use Rattle.c_calls.specs.contracts.outcome.Outcome.{the_row};
    ghost use Rattle.handles.specs.Handles.{handle_owns};

    ghost also_owns = { λ handle. handle_owns handle.alloc the_row handle.at handle.outcome };
}

impl HealOutcome {
    // An empty handle.
    pub(crate) fn empty(alloc: Global) -> HealOutcome
        ensures { result.outcome ≡ None }
    {
        HealOutcome {
            at: null_mut(),
            alloc,
        }
    }

    // The handle of the box with these parts.
    fn from_parts(parts: BoxParts<Outcome, Global>) -> HealOutcome
        ensures { result.outcome ≡ Some parts.value }
    {
        let BoxParts { at, alloc } = parts;
        HealOutcome {
            at: at as *mut u8,
            alloc,
        }
    }

    // The parts of the handle's box, if it isn't empty.
    fn into_parts(self) -> Option<BoxParts<Outcome, Global>>
        ensures { MatchOption result (self.outcome ≡ None) (λ parts. self.outcome ≡ Some parts.value) }
    {
        let HealOutcome { at, alloc } = self;
        if at.is_null() {
            None
        } else {
            Some(BoxParts {
                at: at as *mut Outcome,
                alloc,
            })
        }
    }

    // Takes an outcome out, and leaves the handle empty.
    pub(crate) fn take(&mut self, alloc: Global) -> Option<Box<Outcome>>
        ensures taken { MatchOption result (self.old.outcome ≡ None) (λ inner. self.old.outcome ≡ Some inner.value) }
        ensures left { self.new.outcome ≡ None }
    {
        match mem::replace(self, HealOutcome::empty(alloc)).into_parts() {
            Some(parts) => Some(parts.into_box()),
            None => None,
        }
    }

    // Puts an outcome in, and frees the one that was there.
    pub(crate) fn put(&mut self, inner: Box<Outcome>)
        ensures { self.new.outcome ≡ Some inner.value }
    {
        *self = HealOutcome::from_parts(BoxParts::from_box(inner));
    }

    // Puts what a call made in and returns 0, or returns the number of its refusal.
    pub(crate) fn fill(&mut self, made: Result<Box<Outcome>, u32>) -> u32
        ensures held { self.new.outcome ≡ held_after (λ inner. inner.value) self.old.outcome made }
        ensures number { result ≡ returned_number (λ n. n) made }
    {
        match made {
            Ok(inner) => {
                self.put(inner);
                0
            }
            Err(number) => number,
        }
    }
}

impl Drop for HealOutcome {
    fn drop(self) {
        if let Some(parts) = self.into_parts() {
            drop(parts.into_box());
        }
    }
}

// It goes to another thread as its value does.
unsafe impl Send for HealOutcome {}
