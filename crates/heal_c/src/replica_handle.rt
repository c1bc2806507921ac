//! The handle of a replica.
ghost use Rattle.std.specs.Prelude.{◌≡◌, Option, Some, None, MatchOption};
ghost use Rattle.replica.specs.Replicas.{Replica};
ghost use Rattle.heal_c.specs.Held.{coded_held_replica};

use handles::BoxParts;
use replica::Replica;
use std::alloc::Global;
use std::marker::{Model, Send};
use std::mem;
use std::ptr::null_mut;

/// A replica, or nothing: one word, which is null where there is nothing.
#[repr(C)]
pub struct HealReplica {
    pub(crate) at: *mut u8,
    alloc: Global,
    pub ghost replica: { Option Replica } by { coded_held_replica },
}

impl Model for HealReplica {
    ghost use Rattle.std.specs.Prelude.{Option};
    ghost use Rattle.replica.specs.Replicas.{Replica};
    ghost use Rattle.replica.specs.contracts.replica.Replica.{the_row};
    ghost use Rattle.handles.specs.Handles.{handle_owns};

    ghost also_owns = { λ handle. handle_owns handle.alloc the_row handle.at handle.replica };
}

impl HealReplica {
    // An empty handle.
    pub(crate) fn empty(alloc: Global) -> HealReplica
        ensures { result.replica ≡ None }
    {
        HealReplica {
            at: null_mut(),
            alloc,
        }
    }

    // The handle of the box with these parts.
    fn from_parts(parts: BoxParts<Replica, Global>) -> HealReplica
        ensures { result.replica ≡ Some parts.value }
    {
        let BoxParts { at, alloc } = parts;
        HealReplica {
            at: at as *mut u8,
            alloc,
        }
    }

    // The parts of the handle's box, if it isn't empty.
    fn into_parts(self) -> Option<BoxParts<Replica, Global>>
        ensures { MatchOption result (self.replica ≡ None) (λ parts. self.replica ≡ Some parts.value) }
    {
        let HealReplica { at, alloc } = self;
        if at.is_null() {
            None
        } else {
            Some(BoxParts {
                at: at as *mut Replica,
                alloc,
            })
        }
    }

    // Takes a replica out, and leaves the handle empty.
    pub(crate) fn take(&mut self, alloc: Global) -> Option<Box<Replica>>
        ensures taken { MatchOption result (self.old.replica ≡ None) (λ inner. self.old.replica ≡ Some inner.value) }
        ensures left { self.new.replica ≡ None }
    {
        match mem::replace(self, HealReplica::empty(alloc)).into_parts() {
            Some(parts) => Some(parts.into_box()),
            None => None,
        }
    }

    // Puts a replica in, and frees the one that was there.
    pub(crate) fn put(&mut self, inner: Box<Replica>)
        ensures { self.new.replica ≡ Some inner.value }
    {
        *self = HealReplica::from_parts(BoxParts::from_box(inner));
    }
}

impl Drop for HealReplica {
    fn drop(self) {
        if let Some(parts) = self.into_parts() {
            drop(parts.into_box());
        }
    }
}

// It goes to another thread as its value does.
unsafe impl Send for HealReplica {}
