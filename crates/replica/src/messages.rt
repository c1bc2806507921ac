//! The messages that replicas send each other and write to disks.
ghost use Rattle.std.specs.Prelude.{◌≡◌, IfOk};
ghost use Rattle.std.specs.Arc.{arc_value};

use crate::edit::Edit;
use crate::half::Half;
use replica_law::Position;
use std::alloc::{AllocError, Global};
use std::marker::Model;
use std::sync::Arc;

/// An edit that a primary carried out, with the position that it leads to.
#[derive(Debug, Drop)]
pub struct Entry {
    /// The view of the primary, and the operation number of the edit, from 1.
    pub at: Position,
    /// The edit.
    pub edit: Edit,
}

/// A position, and the half that each replica has there.
#[derive(Debug)]
pub struct Snapshot {
    pub(crate) at: Position,
    pub(crate) half: Arc<Half>,
}

// Written out, so that a drop is one call in the proofs of callers.
impl Drop for Snapshot {
    fn drop(self) {
        let Snapshot { at: _, half: _ } = self;
    }
}

impl Model for Snapshot {
    ghost use Rattle.std.specs.Arc.{arc_value};
    ghost use Rattle.replica_law.specs.Groups.{Snapshot};
    ghost use Rattle.replica.specs.Halves.{HalfState};
    ghost use Rattle.replica.specs.Codings.{coded_snapshot};

    ghost Value = { Snapshot HalfState };

    ghost coded = { coded_snapshot };

    ghost view = { λ s. record { at = s.at; state = arc_value s.half } };
}

impl Snapshot {
    /// Returns a snapshot of this position and half, as a decoder needs it. Allocates the room that the half's owners share.
    ///
    /// A replica that follows it takes the half for that of the position: the transport ensures that a replica made the
    /// snapshot.
    pub fn new(alloc: Global, at: Position, half: Half) -> Result<Snapshot, AllocError>
        ensures { IfOk result (λ snapshot. snapshot ≡ record { at = at; state = half }) }
    {
        match Arc::new(alloc, half) {
            Ok(half) => Ok(Snapshot { at, half }),
            Err(_) => Err(AllocError),
        }
    }

    /// Returns the position. Allocates nothing.
    pub fn position(&self) -> Position
        ensures { result ≡ self.now.at }
    {
        self.at
    }

    /// Returns the half. Allocates nothing.
    pub fn half(&self) -> &Half
        ensures { result.now ≡ self.now.state }
    {
        &self.half
    }
}
