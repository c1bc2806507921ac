//! The faults of uploads.
ghost use Rattle.std.specs.Prelude.{◌≡◌};
ghost use Rattle.upload_store.specs.Faults.{upload_fault_number, upload_fault_place};
ghost use Rattle.upload_store.specs.declared.fault.UploadFault.TheVariants.{Program};

use refusals::{Numbered, OUT_OF_MEMORY, Place, words_of};
use thiserror::Error;
use verifier::ProgramFault;

/// The reason why a store did not take bytes.
#[derive(Clone, Copy, Debug, PartialEq, Eq, Error)]
pub enum UploadFault {
    /// The bytes aren't a program that the verifier accepts, or memory ran out while reading them.
    #[error(transparent)]
    Program(ProgramFault),
    /// The store has other code with the same digest.
    #[error("{}", words_of(self.number()))]
    DigestClash,
    /// The store is full.
    #[error("{}", words_of(self.number()))]
    StoreFull,
    /// Memory ran out while keeping the program.
    #[error("{}", words_of(OUT_OF_MEMORY))]
    OutOfMemory,
}

impl Numbered for UploadFault {
    ghost number_of = { upload_fault_number };

    ghost place_of = { upload_fault_place };

    fn number(&self) -> u32 {
        match self {
            UploadFault::Program(fault) => fault.number(),
            UploadFault::DigestClash => 42,
            UploadFault::StoreFull => 43,
            UploadFault::OutOfMemory => OUT_OF_MEMORY,
        }
    }

    fn place(&self) -> Option<Place> {
        match self {
            UploadFault::Program(fault) => fault.place(),
            _ => None,
        }
    }
}

impl From<ProgramFault> for UploadFault {
    ghost from_gives = { λ fault converted. converted ≡ Program fault };

    fn from(fault: ProgramFault) -> UploadFault {
        UploadFault::Program(fault)
    }
}
