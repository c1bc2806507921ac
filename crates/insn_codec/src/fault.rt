//! The faults of bytes that don't spell code.
ghost use Rattle.std.specs.Prelude.{◌≡◌};
ghost use Rattle.insn_codec.specs.Faults.{length_fault_number, slot_fault_number, fault_number, fault_place};

use refusals::{Numbered, OUT_OF_MEMORY, Place, words_of};
use thiserror::Error;

/// A fault of the number of bytes.
#[derive(Clone, Copy, Debug, PartialEq, Eq, Error)]
#[error("{}", words_of(self.number()))]
pub enum LengthFault {
    /// No bytes.
    Empty,
    /// More bytes than 1,024 slots have.
    TooLong,
    /// An incomplete last slot.
    Ragged,
}

/// A fault of the instruction at a slot.
#[derive(Clone, Copy, Debug, PartialEq, Eq, Error)]
#[error("{}", words_of(self.number()))]
pub enum SlotFault {
    /// An unknown opcode, or a field that selects no known operation.
    UnknownOpcode,
    /// A used register field above 10.
    BadRegister,
    /// An unused field that isn't zero.
    FieldNotZero,
    /// A wide load without its second slot.
    CutWide,
}

/// The reason why bytes were not decoded.
#[derive(Clone, Copy, Debug, PartialEq, Eq, Error)]
pub enum CodecFault {
    /// The number of bytes is invalid.
    #[error(transparent)]
    Length(LengthFault),
    /// The instruction with this first slot is invalid.
    #[error("{}: {fault}", Place::Slot(*slot))]
    Slot { fault: SlotFault, slot: u32 },
    /// Memory ran out.
    #[error("{}", words_of(OUT_OF_MEMORY))]
    OutOfMemory,
}

impl LengthFault {
    fn number(self) -> u32
        ensures { result ≡ length_fault_number self }
    {
        match self {
            LengthFault::Empty => 1,
            LengthFault::TooLong => 2,
            LengthFault::Ragged => 3,
        }
    }
}

impl SlotFault {
    fn number(self) -> u32
        ensures { result ≡ slot_fault_number self }
    {
        match self {
            SlotFault::UnknownOpcode => 4,
            SlotFault::BadRegister => 5,
            SlotFault::FieldNotZero => 6,
            SlotFault::CutWide => 7,
        }
    }
}

impl Numbered for CodecFault {
    ghost number_of = { fault_number };

    ghost place_of = { fault_place };

    fn number(&self) -> u32 {
        match self {
            CodecFault::Length(fault) => fault.number(),
            CodecFault::Slot { fault, .. } => fault.number(),
            CodecFault::OutOfMemory => OUT_OF_MEMORY,
        }
    }

    fn place(&self) -> Option<Place> {
        match self {
            CodecFault::Slot { slot, .. } => Some(Place::Slot(*slot)),
            _ => None,
        }
    }
}
