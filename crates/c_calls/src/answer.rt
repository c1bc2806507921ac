//! The numbers that calls return.
ghost use Rattle.std.specs.Prelude.{◌≡◌};
ghost use Rattle.c_calls.specs.Answers.{GivesDue, returned_number, returned_slot, refusal_slot};

use refusals::{Numbered, OUT_OF_MEMORY, Place};

/// 31: the name isn't registered.
pub const NOT_REGISTERED: u32 = 31;
/// 33: an exchange is open.
pub const HEALING: u32 = 33;
/// 41: an unknown program.
pub const UNKNOWN_PROGRAM: u32 = 41;
/// 44: an invalid name.
pub const INVALID_NAME: u32 = 44;
/// 74: neither side.
pub const UNKNOWN_SIDE: u32 = 74;
/// 76: an unknown kind of resolver.
pub const UNKNOWN_RESOLVER: u32 = 76;
/// 83: another message of its kind and number was heard.
pub const OTHER_MESSAGE: u32 = 83;
/// 91: an empty handle.
pub const EMPTY_HANDLE: u32 = 91;
/// 92: an index out of range.
pub const INDEX_OUT_OF_RANGE: u32 = 92;
/// 93: a buffer of another length.
pub const OTHER_LENGTH: u32 = 93;
/// 94: a row names the program.
pub const STILL_NAMED: u32 = 94;

/// Returns 0, or the number of the refusal.
pub fn number_of<T, F: Numbered>(answer: &Result<T, F>) -> u32
    ensures { result ≡ returned_number F.number_of answer.now }
{
    match answer {
        Ok(_) => 0,
        Err(fault) => fault.number(),
    }
}

/// Returns the slot of a refusal, or 0.
pub fn slot_of<F: Numbered>(fault: &F) -> u32
    ensures { result ≡ refusal_slot (F.number_of fault.now) (F.place_of fault.now) }
{
    if fault.number() == OUT_OF_MEMORY {
        return 0;
    }
    match fault.place() {
        Some(Place::Slot(slot)) => slot,
        _ => 0,
    }
}

/// Returns the slot of the refusal, or 0.
pub fn slot_in<T, F: Numbered>(answer: &Result<T, F>) -> u32
    ensures { result ≡ returned_slot F.number_of F.place_of answer.now }
{
    match answer {
        Ok(_) => 0,
        Err(fault) => slot_of(fault),
    }
}

/// Writes the value and returns 0, or returns the number.
pub fn give<T: Copy>(found: Result<T, u32>, to: &mut T) -> u32
    ensures { GivesDue found (λ value. to.new ≡ value) (to.new ≡ to.old) result }
{
    match found {
        Ok(value) => {
            *to = value;
            0
        }
        Err(number) => number,
    }
}
