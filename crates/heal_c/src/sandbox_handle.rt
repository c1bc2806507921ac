//! The handle of a sandbox.
ghost use Rattle.std.specs.Prelude.{◌≡◌, Option, Some, None, MatchOption};
ghost use Rattle.verifier.specs.Stores.{CodeFor};
ghost use Rattle.heal_c.specs.Held.{coded_held_sandbox};

use bpf::Sandbox;
use handles::BoxParts;
use std::alloc::Global;
use std::marker::{Model, Send};
use std::mem;
use std::ptr::null_mut;

/// A sandbox, or nothing: one word, which is null where there is nothing.
#[repr(C)]
pub struct HealSandbox {
    pub(crate) at: *mut u8,
    alloc: Global,
    pub ghost sandbox: { Option CodeFor } by { coded_held_sandbox },
}

impl Model for HealSandbox {
    ghost use Rattle.std.specs.Prelude.{Option};
    ghost use Rattle.verifier.specs.Stores.{CodeFor};
    ghost use Rattle.bpf.specs.contracts.sandbox.Sandbox.{the_row};
    ghost use Rattle.handles.specs.Handles.{handle_owns};

    ghost also_owns = { λ handle. handle_owns handle.alloc the_row handle.at handle.sandbox };
}

impl HealSandbox {
    // An empty handle.
    pub(crate) fn empty(alloc: Global) -> HealSandbox
        ensures { result.sandbox ≡ None }
    {
        HealSandbox {
            at: null_mut(),
            alloc,
        }
    }

    // The handle of the box with these parts.
    fn from_parts(parts: BoxParts<Sandbox, Global>) -> HealSandbox
        ensures { result.sandbox ≡ Some parts.value }
    {
        let BoxParts { at, alloc } = parts;
        HealSandbox {
            at: at as *mut u8,
            alloc,
        }
    }

    // The parts of the handle's box, if it isn't empty.
    fn into_parts(self) -> Option<BoxParts<Sandbox, Global>>
        ensures { MatchOption result (self.sandbox ≡ None) (λ parts. self.sandbox ≡ Some parts.value) }
    {
        let HealSandbox { at, alloc } = self;
        if at.is_null() {
            None
        } else {
            Some(BoxParts {
                at: at as *mut Sandbox,
                alloc,
            })
        }
    }

    // Takes a sandbox out, and leaves the handle empty.
    pub(crate) fn take(&mut self, alloc: Global) -> Option<Box<Sandbox>>
        ensures taken { MatchOption result (self.old.sandbox ≡ None) (λ inner. self.old.sandbox ≡ Some inner.value) }
        ensures left { self.new.sandbox ≡ None }
    {
        match mem::replace(self, HealSandbox::empty(alloc)).into_parts() {
            Some(parts) => Some(parts.into_box()),
            None => None,
        }
    }

    // Puts a sandbox in, and frees the one that was there.
    pub(crate) fn put(&mut self, inner: Box<Sandbox>)
        ensures { self.new.sandbox ≡ Some inner.value }
    {
        *self = HealSandbox::from_parts(BoxParts::from_box(inner));
    }
}

impl Drop for HealSandbox {
    fn drop(self) {
        if let Some(parts) = self.into_parts() {
            drop(parts.into_box());
        }
    }
}

// It goes to another thread as its value does.
unsafe impl Send for HealSandbox {}
