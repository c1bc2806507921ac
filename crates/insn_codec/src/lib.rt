//! Decodes code from bytes and encodes it (RFC 9669, section 3).
#![tactic(auto)]

mod decoder;
mod encoder;
mod fault;
mod slot_fields;

pub use decoder::{decode, one_reading_theorem};
pub use encoder::encode;
pub use fault::{CodecFault, LengthFault, SlotFault};
pub use instruction_set::{
    AluOp, Code, CodeBuilder, EndKind, Insn, MAX_SLOTS, Register, Size, Source, Test, Width, alu,
    end, movsx, neg, test,
};
