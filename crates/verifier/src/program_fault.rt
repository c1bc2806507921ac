//! The faults of bytes that aren't a program.
ghost use Rattle.std.specs.Prelude.{◌≡◌};
ghost use Rattle.verifier.specs.Programs.{program_fault_number, program_fault_place};
ghost use Rattle.verifier.specs.declared.program_fault.ProgramFault.TheVariants.{Codec, Verify};

use crate::refusal::VerifyFault;
use insn_codec::CodecFault;
use refusals::{Numbered, Place};
use thiserror::Error;

/// The reason why bytes were not accepted as a program.
#[derive(Clone, Copy, Debug, PartialEq, Eq, Error)]
pub enum ProgramFault {
    /// The bytes don't spell code, or memory ran out while decoding.
    #[error(transparent)]
    Codec(CodecFault),
    /// The code fails a rule of the verifier, or memory ran out while verifying.
    #[error(transparent)]
    Verify(VerifyFault),
}

impl Numbered for ProgramFault {
    ghost number_of = { program_fault_number };

    ghost place_of = { program_fault_place };

    fn number(&self) -> u32 {
        match self {
            ProgramFault::Codec(fault) => fault.number(),
            ProgramFault::Verify(fault) => fault.number(),
        }
    }

    fn place(&self) -> Option<Place> {
        match self {
            ProgramFault::Codec(fault) => fault.place(),
            ProgramFault::Verify(fault) => fault.place(),
        }
    }
}

impl From<CodecFault> for ProgramFault {
    ghost from_gives = { λ fault converted. converted ≡ Codec fault };

    fn from(fault: CodecFault) -> ProgramFault {
        ProgramFault::Codec(fault)
    }
}

impl From<VerifyFault> for ProgramFault {
    ghost from_gives = { λ fault converted. converted ≡ Verify fault };

    fn from(fault: VerifyFault) -> ProgramFault {
        ProgramFault::Verify(fault)
    }
}
