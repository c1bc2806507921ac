//! The head of a message, read without the rest.
ghost use Rattle.std.specs.Prelude.{◌≡◌};
ghost use Rattle.c_calls.specs.Answers.{GivesDue};
ghost use Rattle.heal_c.specs.Heads as spec;

use c_calls::side_code;
use exchange_codec::{MessageHead, MessageKind, peek};
use refusals::Numbered;

/// The first fields of a message. `kind` is 1 for an offer and 2 for a list; `seed` is 0 for a list.
#[repr(C)]
#[derive(Clone, Copy, Debug)]
pub struct HealHead {
    pub kind: u32,
    pub version: u32,
    pub side: u32,
    pub reserved: u32,
    pub number: u64,
    pub seed: u64,
}

// The version of messages.
const VERSION: u32 = 1;

/// Reads the first 25 bytes of an offer, or 17 of a list.
///
/// Returns 70 if the bytes end within them, 71 for no message, 74 for neither side, and 82 for another version. Needs no memory.
#[unsafe(no_mangle)]
#[tactic(auto, using(crate::proofs::Heading::peeked_so, crate::proofs::Heading::peeked_not))]
pub extern "C" fn heal_message_peek(bytes: &[u8], head: &mut HealHead) -> u32
    ensures { GivesDue (spec.peeked_head bytes.now) (λ found. head.new ≡ found) (head.new ≡ head.old) result }
{
    match peek(bytes) {
        Ok(found) => {
            *head = head_code(&found);
            0
        }
        Err(fault) => fault.number(),
    }
}

// Writes a head.
fn head_code(head: &MessageHead) -> HealHead
    ensures { result ≡ spec.head_code head.now }
{
    HealHead {
        kind: kind_code(head.kind),
        version: VERSION,
        side: side_code(head.side),
        reserved: 0,
        number: head.number,
        seed: seed_code(head.seed),
    }
}

// Writes a kind.
fn kind_code(kind: MessageKind) -> u32
    ensures { result ≡ spec.kind_code kind }
{
    match kind {
        MessageKind::Offer => 1,
        MessageKind::Withdrawals => 2,
    }
}

// Writes the seed of an offer, or 0.
fn seed_code(seed: Option<u64>) -> u64
    ensures { result ≡ spec.seed_code seed }
{
    match seed {
        Some(seed) => seed,
        None => 0,
    }
}
