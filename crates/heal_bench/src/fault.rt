//! The reasons why nothing is measured.
use fixtures::FixtureFault;
use hex::FromHexError;
use insn_codec::CodecFault;
use std::alloc::AllocError;
use std::io;
use thiserror::Error;
use upload_store::UploadFault;
use verifier::{ProgramFault, VerifyFault};

/// The reason why nothing was measured.
#[derive(Debug, Drop, Error)]
pub(crate) enum Fault {
    #[error("WORKERS isn't a number from 1 to 16")]
    Workers,
    #[error("RUNS isn't a number from 1 on")]
    Runs,
    #[error("the record isn't 160 bytes")]
    RecordLength,
    #[error("no hex digits, two a byte: {0}")]
    Digits(#[from] FromHexError),
    #[error("the bytes are no code: {0}")]
    Code(#[from] CodecFault),
    #[error(transparent)]
    Refused(#[from] VerifyFault),
    #[error(transparent)]
    Program(#[from] ProgramFault),
    #[error(transparent)]
    Upload(#[from] UploadFault),
    #[error(transparent)]
    Fixture(#[from] FixtureFault),
    #[error("out of memory")]
    Memory(#[from] AllocError),
    #[error("the clock: {0}")]
    Clock(#[from] io::Error),
}
