//! The refusals of a replica.
ghost use Rattle.std.specs.Prelude.{◌≡◌, None};
ghost use Rattle.replica.specs.declared.fault.ReplicaFault.TheVariants as of;
ghost use Rattle.replica.specs.Faults.{replica_fault_number};

use partition_table::TableFault;
use refusals::{Numbered, Place, words_of};
use std::alloc::AllocError;
use thiserror::Error;
use upload_store::UploadFault;

/// The reason why a replica refuses a call.
#[derive(Clone, Copy, Debug, PartialEq, Eq, Error)]
pub enum ReplicaFault {
    /// The half's table refuses the edit: 30, 31, 32, 41, 42 or 90.
    #[error(transparent)]
    Table(TableFault),
    /// The half's store refuses the program: 42, 43 or 90.
    #[error(transparent)]
    Store(UploadFault),
    /// 35: the number isn't above every number of an exchange that the half began.
    #[error("{}", words_of(self.number()))]
    StaleNumber,
    /// 95: the replica isn't the primary of its latest view.
    #[error("{}", words_of(self.number()))]
    NotPrimary,
    /// 96: the entry is of another view.
    #[error("{}", words_of(self.number()))]
    OtherView,
    /// 97: an earlier entry of the view is missing.
    #[error("{}", words_of(self.number()))]
    Gap,
    /// 98: the snapshot is of the latest view that the replica started.
    #[error("{}", words_of(self.number()))]
    OwnView,
    /// 99: the number of the view or of the operation is the greatest that there is.
    #[error("{}", words_of(self.number()))]
    Exhausted,
    /// 49: the replica isn't where it was when its exchange began.
    #[error("the replica moved since its exchange began")]
    Moved,
    /// 90: out of memory.
    #[error("{}", words_of(self.number()))]
    OutOfMemory,
}

impl Numbered for ReplicaFault {
    ghost number_of = { replica_fault_number };

    ghost place_of = { λ _. None };

    fn number(&self) -> u32 {
        match self {
            ReplicaFault::Table(fault) => fault.number(),
            ReplicaFault::Store(fault) => fault.number(),
            ReplicaFault::StaleNumber => 35,
            ReplicaFault::NotPrimary => 95,
            ReplicaFault::OtherView => 96,
            ReplicaFault::Gap => 97,
            ReplicaFault::OwnView => 98,
            ReplicaFault::Exhausted => 99,
            ReplicaFault::Moved => 49,
            ReplicaFault::OutOfMemory => 90,
        }
    }

    fn place(&self) -> Option<Place> {
        None
    }
}

impl From<AllocError> for ReplicaFault {
    ghost from_gives = { λ _ converted. converted ≡ of.OutOfMemory };

    fn from(_: AllocError) -> ReplicaFault {
        ReplicaFault::OutOfMemory
    }
}

impl From<TableFault> for ReplicaFault {
    ghost from_gives = { λ fault converted. converted ≡ of.Table fault };

    fn from(fault: TableFault) -> ReplicaFault {
        ReplicaFault::Table(fault)
    }
}

impl From<UploadFault> for ReplicaFault {
    ghost from_gives = { λ fault converted. converted ≡ of.Store fault };

    fn from(fault: UploadFault) -> ReplicaFault {
        ReplicaFault::Store(fault)
    }
}
