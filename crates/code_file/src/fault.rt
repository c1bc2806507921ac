//! The faults of a file of code.
ghost use Rattle.std.specs.Prelude.{◌≡◌, ◌⊎◌};
ghost use Rattle.code_file.specs.CodeFiles.{code_file_fault_number, code_file_fault_place};
ghost use Rattle.code_file.specs.Files.{file_fault_number, file_fault_place};
ghost use Rattle.code_file.specs.declared.fault.CodeFileFault.TheVariants.{OutOfMemory};
ghost use Rattle.code_file.specs.declared.fault.FileFault.TheVariants.{Code, Unreadable};

use refusals::{Numbered, OUT_OF_MEMORY, Place, words_of};
use std::alloc::AllocError;
use std::io;
use std::io::ErrorKind;
use thiserror::Error;

/// The reason why a file gives no code.
#[derive(Clone, Copy, Debug, PartialEq, Eq, Error)]
#[error("{}", words_of(self.number()))]
pub enum CodeFileFault {
    /// 8: an object file without code in `.text`, with relocations of it, or of another machine.
    Object,
    /// 50: an odd number of hex digits.
    HexText,
    /// 90: out of memory.
    OutOfMemory,
}

impl Numbered for CodeFileFault {
    ghost number_of = { code_file_fault_number };

    ghost place_of = { code_file_fault_place };

    fn number(&self) -> u32 {
        match self {
            CodeFileFault::Object => 8,
            CodeFileFault::HexText => 50,
            CodeFileFault::OutOfMemory => OUT_OF_MEMORY,
        }
    }

    fn place(&self) -> Option<Place> {
        None
    }
}

impl From<AllocError> for CodeFileFault {
    ghost from_gives = { λ _ fault. fault ≡ OutOfMemory };

    fn from(_: AllocError) -> CodeFileFault {
        CodeFileFault::OutOfMemory
    }
}

/// The reason why a file that is to be read gives no code.
#[derive(Clone, Copy, Debug, PartialEq, Eq, Error)]
pub enum FileFault {
    /// The content of the file has no code, or memory ran out.
    #[error("{0}")]
    Code(CodeFileFault),
    /// 57: a file of more than 1,048,576 bytes.
    #[error("{}", words_of(57))]
    TooLong,
    /// 58: a file that can't be opened or read.
    #[error("{}", words_of(58))]
    Unreadable,
}

impl Numbered for FileFault {
    ghost number_of = { file_fault_number };

    ghost place_of = { file_fault_place };

    fn number(&self) -> u32 {
        match self {
            FileFault::Code(fault) => fault.number(),
            FileFault::TooLong => 57,
            FileFault::Unreadable => 58,
        }
    }

    fn place(&self) -> Option<Place> {
        None
    }
}

impl From<CodeFileFault> for FileFault {
    ghost from_gives = { λ cause fault. fault ≡ Code cause };

    fn from(cause: CodeFileFault) -> FileFault {
        FileFault::Code(cause)
    }
}

impl From<AllocError> for FileFault {
    ghost from_gives = { λ _ fault. fault ≡ Code OutOfMemory };

    fn from(_: AllocError) -> FileFault {
        FileFault::Code(CodeFileFault::OutOfMemory)
    }
}

impl From<io::Error> for FileFault {
    ghost from_gives = { λ _ fault. (fault ≡ Unreadable) ⊎ (fault ≡ Code OutOfMemory) };

    fn from(error: io::Error) -> FileFault {
        if error.kind() == ErrorKind::OutOfMemory {
            FileFault::Code(CodeFileFault::OutOfMemory)
        } else {
            FileFault::Unreadable
        }
    }
}
