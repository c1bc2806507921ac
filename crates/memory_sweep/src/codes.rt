//! Calls on the bytes, the text and the code of a program.

use crate::fault::Fault;
use crate::sweeping::{Call, Subject, sweep};
use assembler_text::{assemble, disassemble};
use insn_codec::{Code, decode, encode};
use std::alloc::Global;
use verifier::{Profile, Verified, read_program, verify, verify_peak};

/// By the first stamp and the second one: the later keeps the name. States of two slots wait at once.
const TEXT: &'static str =
    "ldxdw r2, [r1+56]\nldxdw r3, [r1+96]\nmov64 r0, 1\njge r2, r3, +1\nmov64 r0, 2\nexit\n";

/// What a call reads, and what it gave.
#[derive(Drop)]
struct Coded {
    code: Code,
    bytes: Vec<u8>,
    given: Given,
}

/// What a call gave, if it was made.
#[derive(Drop)]
enum Given {
    Nothing,
    Code(Code),
    Bytes(Vec<u8>),
    Text(String),
    Accepted(Verified),
}

impl Given {
    fn is_same(&self, other: &Given) -> bool {
        match (self, other) {
            (Given::Nothing, Given::Nothing) => true,
            (Given::Code(one), Given::Code(other)) => one == other,
            (Given::Bytes(one), Given::Bytes(other)) => one == other,
            (Given::Text(one), Given::Text(other)) => one == other,
            (Given::Accepted(one), Given::Accepted(other)) => {
                one.code() == other.code() && one.stores() == other.stores()
            }
            _ => false,
        }
    }
}

impl Coded {
    fn new(alloc: Global) -> Result<Coded, Fault> {
        let code = assemble(alloc, TEXT)?;
        let bytes = encode(alloc, &code)?;
        Ok(Coded {
            code,
            bytes,
            given: Given::Nothing,
        })
    }
}

impl Subject for Coded {
    fn is_same(&self, other: &Coded) -> bool {
        self.code == other.code && self.bytes == other.bytes && self.given.is_same(&other.given)
    }
}

/// The calls that read and write programs.
#[derive(Clone, Copy)]
enum CodeCall {
    Decode,
    Encode,
    Assemble,
    Disassemble,
    Verify,
    VerifyPeak,
    ReadProgram,
}

impl Call<Coded> for CodeCall {
    fn name(&self) -> &'static str {
        match self {
            CodeCall::Decode => "decode",
            CodeCall::Encode => "encode",
            CodeCall::Assemble => "assemble",
            CodeCall::Disassemble => "disassemble",
            CodeCall::Verify => "verify",
            CodeCall::VerifyPeak => "verify_peak",
            CodeCall::ReadProgram => "read_program",
        }
    }

    fn prepare(&self, alloc: Global) -> Result<Coded, Fault> {
        Coded::new(alloc)
    }

    // What is verified is decoded first, since `verify` takes it over.
    fn make(&self, alloc: Global, coded: &mut Coded) -> Result<(), Fault> {
        coded.given = match self {
            CodeCall::Decode => Given::Code(decode(alloc, &coded.bytes)?),
            CodeCall::Encode => Given::Bytes(encode(alloc, &coded.code)?),
            CodeCall::Assemble => Given::Code(assemble(alloc, TEXT)?),
            CodeCall::Disassemble => Given::Text(disassemble(alloc, &coded.code)?),
            CodeCall::Verify => {
                Given::Accepted(verify::<Profile>(alloc, decode(alloc, &coded.bytes)?)?)
            }
            CodeCall::VerifyPeak => {
                let (verified, _) = verify_peak::<Profile>(alloc, decode(alloc, &coded.bytes)?);
                Given::Accepted(verified?)
            }
            CodeCall::ReadProgram => Given::Accepted(read_program(alloc, &coded.bytes)?),
        };
        Ok(())
    }
}

/// Sweeps the calls that read and write programs.
pub(crate) fn sweep_codes(rt: &HostRuntime) -> Result<(), Fault> {
    for call in [
        CodeCall::Decode,
        CodeCall::Encode,
        CodeCall::Assemble,
        CodeCall::Disassemble,
        CodeCall::Verify,
        CodeCall::VerifyPeak,
        CodeCall::ReadProgram,
    ] {
        sweep(rt, &call)?;
    }
    Ok(())
}
