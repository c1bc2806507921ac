//! The faults of bytes that spell no message.
ghost use Rattle.std.specs.Prelude.{◌≡◌, length};
ghost use Rattle.exchange_codec.specs.declared.fault.ReadError.TheVariants.{Memory};
ghost use Rattle.exchange_codec.specs.Faults.{field_fault_number, item_fault_number, message_fault_number, message_fault_place};
ghost use Rattle.exchange_codec.specs.declared.fault.ReadError.TheVariants as errors;
ghost use Rattle.exchange_codec.specs.declared.fault.MessageFault.TheVariants as message;
ghost use Rattle.refusals.specs.Answers.{out_of_memory};
ghost use Rattle.exchange_codec.specs.Placing.{placed, told_of};

use refusals::{Numbered, OUT_OF_MEMORY, Place, words_of};
use std::alloc::{AllocError, AllocFailed};
use thiserror::Error;
use verifier::ProgramFault;

/// A fault of a field.
#[derive(Clone, Copy, Debug, PartialEq, Eq, Error)]
#[error("{}", words_of(self.number()))]
pub enum FieldFault {
    /// 70: the bytes end within the field.
    Cut,
    /// 71: the bytes begin no message of this kind.
    Header,
    /// 72: extra bytes after the message.
    Trailing,
    /// 73: a count above its limit: 1,048,576 rows or names, 8,192 bytes of code.
    Count,
    /// 74: neither side.
    Side,
    /// 75: an invalid name.
    Name,
    /// 76: an unknown kind of resolver.
    Resolver,
    /// 82: a message of an unsupported version.
    Version,
}

impl FieldFault {
    fn number(self) -> u32
        ensures { result ≡ field_fault_number self }
    {
        match self {
            FieldFault::Cut => 70,
            FieldFault::Header => 71,
            FieldFault::Trailing => 72,
            FieldFault::Count => 73,
            FieldFault::Side => 74,
            FieldFault::Name => 75,
            FieldFault::Resolver => 76,
            FieldFault::Version => 82,
        }
    }
}

/// A fault of a row of an offer, or of a name of a list.
#[derive(Clone, Copy, Debug, PartialEq, Eq, Error)]
pub enum ItemFault {
    /// 77: the list already has the name.
    #[error("{}", words_of(self.number()))]
    NameAgain,
    /// 78: the name isn't above the one before it.
    #[error("{}", words_of(self.number()))]
    NameOrder,
    /// 79: no earlier row has code with this id.
    #[error("{}", words_of(self.number()))]
    NoProgram,
    /// 80: an earlier row already has the code.
    #[error("{}", words_of(self.number()))]
    ProgramAgain,
    /// 81: the verifier doesn't accept the code.
    #[error(transparent)]
    Program(ProgramFault),
}

impl ItemFault {
    fn number(self) -> u32
        ensures { result ≡ item_fault_number self }
    {
        match self {
            ItemFault::NameAgain => 77,
            ItemFault::NameOrder => 78,
            ItemFault::NoProgram => 79,
            ItemFault::ProgramAgain => 80,
            ItemFault::Program(_) => 81,
        }
    }
}

/// The reason why bytes were not decoded as a message.
#[derive(Clone, Copy, Debug, PartialEq, Eq, Error)]
pub enum MessageFault {
    /// The field that begins at this byte, counted from 0, is invalid.
    #[error("{}: {fault}", Place::Byte(*at))]
    Field { fault: FieldFault, at: usize },
    /// Every field is valid, but this row or name, counted from 0, isn't.
    #[error("{}: {fault}", Place::Item(*at))]
    Item { fault: ItemFault, at: usize },
    /// 90: memory ran out.
    #[error("{}", words_of(OUT_OF_MEMORY))]
    OutOfMemory,
}

impl Numbered for MessageFault {
    ghost number_of = { message_fault_number };

    ghost place_of = { message_fault_place };

    fn number(&self) -> u32 {
        match *self {
            MessageFault::Field { fault, .. } => fault.number(),
            MessageFault::Item { fault, .. } => fault.number(),
            MessageFault::OutOfMemory => OUT_OF_MEMORY,
        }
    }

    fn place(&self) -> Option<Place> {
        match *self {
            MessageFault::Field { at, .. } => Some(Place::Byte(at)),
            MessageFault::Item { at, .. } => Some(Place::Item(at)),
            MessageFault::OutOfMemory => None,
        }
    }
}

/// Returns the fault of a call whose refusal has this number, which is that of "out of memory".
pub(crate) fn ran_out(number: u32) -> MessageFault
    requires { number ≡ out_of_memory }
    ensures { result ≡ message.OutOfMemory }
{
    prove!(number == OUT_OF_MEMORY);
    MessageFault::OutOfMemory
}

/// A fault, and the number of bytes from the beginning of the faulty field to the end.
#[derive(Clone, Copy, Debug, PartialEq, Eq)]
pub struct Fault {
    pub what: FieldFault,
    pub left: usize,
}

impl Fault {
    /// Returns the fault of a field that begins where these bytes do.
    pub fn at(what: FieldFault, bytes: &[u8]) -> Fault
        ensures { result ≡ record { what = what; left = length bytes.now } }
    {
        Fault {
            what,
            left: bytes.len(),
        }
    }

    /// Returns the fault of a message of `len` bytes.
    pub fn placed(self, len: usize) -> MessageFault
        ensures { result ≡ placed len self }
    {
        MessageFault::Field {
            fault: self.what,
            at: len.saturating_sub(self.left),
        }
    }
}

/// The reason why fields were not read where reading allocates.
#[derive(Clone, Copy, Debug, PartialEq, Eq)]
pub enum ReadError {
    Memory,
    Fault(Fault),
}

impl ReadError {
    /// Returns the fault of a message of `len` bytes.
    pub fn told(self, len: usize) -> MessageFault
        ensures { result ≡ told_of len self }
    {
        match self {
            ReadError::Memory => MessageFault::OutOfMemory,
            ReadError::Fault(fault) => fault.placed(len),
        }
    }
}

impl From<Fault> for ReadError {
    ghost from_gives = { λ fault error. error ≡ errors.Fault fault };

    fn from(fault: Fault) -> ReadError {
        ReadError::Fault(fault)
    }
}

impl From<AllocError> for ReadError {
    ghost from_gives = { λ _ e. e ≡ Memory };

    fn from(_: AllocError) -> ReadError {
        ReadError::Memory
    }
}

impl<T: Drop> From<AllocFailed<T>> for ReadError {
    ghost from_gives = { λ _ e. e ≡ Memory };

    fn from(_: AllocFailed<T>) -> ReadError {
        ReadError::Memory
    }
}
