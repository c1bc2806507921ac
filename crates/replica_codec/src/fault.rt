//! The faults of bytes that spell no entry or snapshot.
ghost use Rattle.std.specs.Prelude.{◌≡◌};
ghost use Rattle.exchange_codec.specs.declared.fault.MessageFault.TheVariants as message;
ghost use Rattle.replica_codec.specs.declared.fault.ReplicaMessageFault.TheVariants.{Message};
ghost use Rattle.replica_codec.specs.Faults.{replica_message_fault_number, replica_message_fault_place};

use exchange_codec::MessageFault;
use refusals::{Numbered, Place, words_of};
use std::alloc::AllocError;
use thiserror::Error;

/// The reason why bytes were not decoded as an entry or a snapshot.
#[derive(Clone, Copy, Debug, PartialEq, Eq, Error)]
pub enum ReplicaMessageFault {
    /// A fault of a field or an item, as in the messages of an exchange: 70 to 82, or 90.
    #[error(transparent)]
    Message(MessageFault),
    /// 84: the bytes differ from their checksum.
    #[error("{}", words_of(self.number()))]
    Checksum,
}

impl Numbered for ReplicaMessageFault {
    ghost number_of = { replica_message_fault_number };

    ghost place_of = { replica_message_fault_place };

    fn number(&self) -> u32 {
        match self {
            ReplicaMessageFault::Message(fault) => fault.number(),
            ReplicaMessageFault::Checksum => 84,
        }
    }

    fn place(&self) -> Option<Place> {
        match self {
            ReplicaMessageFault::Message(fault) => fault.place(),
            ReplicaMessageFault::Checksum => None,
        }
    }
}

impl From<AllocError> for ReplicaMessageFault {
    ghost from_gives = { λ _ converted. converted ≡ Message message.OutOfMemory };

    fn from(_: AllocError) -> ReplicaMessageFault {
        ReplicaMessageFault::Message(MessageFault::OutOfMemory)
    }
}
