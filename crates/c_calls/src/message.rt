//! A message as bytes.
ghost use Rattle.std.specs.Prelude.{◌≡◌, length, IfOk, IsOkAnd};
ghost use Rattle.c_calls.specs.Answers.{GivesDue};
ghost use Rattle.c_calls.specs.Messages.{copy_of};

use crate::answer::OTHER_LENGTH;
use std::alloc::{AllocError, Global};
use std::marker::Model;

/// The bytes of a message. Contracts see the list.
#[derive(Debug, Drop)]
pub struct Message {
    pub bytes: Vec<u8>,
}

impl Model for Message {
    ghost use Rattle.std.specs.Prelude.{ℕ, List};

    ghost Value = { List ℕ };

    ghost view = { λ message. message.bytes.items };
}

impl Message {
    /// Wraps these bytes.
    pub fn new(bytes: Vec<u8>) -> Message
        ensures { result ≡ bytes.items }
    {
        Message { bytes }
    }

    /// Returns the bytes.
    pub fn bytes(&self) -> &[u8]
        ensures { result.now ≡ self.now }
    {
        &self.bytes
    }
}

/// Copies bytes, or returns 93.
pub fn copy(from: &[u8], to: &mut [u8]) -> u32
    ensures { GivesDue (copy_of from.now (length to.old)) (λ copy. to.new ≡ copy) (to.new ≡ to.old) result }
{
    if from.len() != to.len() {
        return OTHER_LENGTH;
    }
    to.copy_from_slice(from);
    0
}

/// Puts the bytes of a message on the heap, if they were spelled.
pub fn boxed(
    alloc: Global,
    spelled: Result<Vec<u8>, AllocError>,
) -> Result<Box<Message>, AllocError>
    ensures { IfOk result (λ message. IsOkAnd spelled (λ bytes. message.value ≡ bytes.items)) }
{
    match Box::new(alloc, Message::new(spelled?)) {
        Ok(message) => Ok(message),
        Err(_) => Err(AllocError),
    }
}
