//! Faults of the calls of the sweep.

use assembler_text::LineFault;
use clash_record::BadName;
use exchange_core::SideFault;
use fixtures::FixtureFault;
use insn_codec::CodecFault;
use partition_table::TableFault;
use refusals::{Numbered, OUT_OF_MEMORY};
use std::alloc::AllocError;
use std::io;
use upload_store::UploadFault;
use verifier::{ProgramFault, VerifyFault};

/// The reason why a call failed.
#[derive(Clone, Copy, Debug)]
pub(crate) enum Fault {
    /// It was refused with this number.
    Refused(u32),
    /// Nothing can be printed.
    Output,
    /// The subject of the call is missing.
    Unprepared,
}

impl Fault {
    /// Checks whether memory ran out.
    pub(crate) fn is_out_of_memory(self) -> bool {
        matches!(self, Fault::Refused(OUT_OF_MEMORY))
    }
}

impl From<CodecFault> for Fault {
    fn from(refusal: CodecFault) -> Fault {
        Fault::Refused(refusal.number())
    }
}

impl From<VerifyFault> for Fault {
    fn from(refusal: VerifyFault) -> Fault {
        Fault::Refused(refusal.number())
    }
}

impl From<ProgramFault> for Fault {
    fn from(refusal: ProgramFault) -> Fault {
        Fault::Refused(refusal.number())
    }
}

impl From<LineFault> for Fault {
    fn from(refusal: LineFault) -> Fault {
        Fault::Refused(refusal.number())
    }
}

impl From<UploadFault> for Fault {
    fn from(refusal: UploadFault) -> Fault {
        Fault::Refused(refusal.number())
    }
}

impl From<BadName> for Fault {
    fn from(refusal: BadName) -> Fault {
        Fault::Refused(refusal.number())
    }
}

impl From<TableFault> for Fault {
    fn from(refusal: TableFault) -> Fault {
        Fault::Refused(refusal.number())
    }
}

impl From<SideFault> for Fault {
    fn from(refusal: SideFault) -> Fault {
        Fault::Refused(refusal.number())
    }
}

impl From<FixtureFault> for Fault {
    fn from(refusal: FixtureFault) -> Fault {
        match refusal {
            FixtureFault::Name(fault) => Fault::from(fault),
            FixtureFault::Upload(fault) => Fault::from(fault),
            FixtureFault::Table(fault) => Fault::from(fault),
            FixtureFault::Side(fault) => Fault::from(fault),
            FixtureFault::OutOfMemory => Fault::Refused(OUT_OF_MEMORY),
        }
    }
}

impl From<AllocError> for Fault {
    fn from(_: AllocError) -> Fault {
        Fault::Refused(OUT_OF_MEMORY)
    }
}

impl From<io::Error> for Fault {
    fn from(_: io::Error) -> Fault {
        Fault::Output
    }
}
