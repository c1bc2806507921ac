//! The front of a log: a snapshot and entries, one after another.
ghost use Rattle.std.specs.Prelude.{◌≡◌};
ghost use Rattle.c_replicas.specs.Logs as code;

use refusals::Numbered;
use replica_codec::{LogFront, read_front};

/// What a log begins with: 0 for nothing, 1 for a message that is cut, 3 for an entry, 4 for a snapshot. `size` is the number of
/// bytes of the entry or the snapshot, and otherwise 0.
#[repr(C)]
#[derive(Clone, Copy, Debug)]
pub struct HealLogFront {
    pub kind: u32,
    pub reserved: u32,
    pub size: u64,
}

/// Returns what a log begins with. Rejects bytes that begin with no entry and no snapshot: 71, or 82 for another version; and a
/// header and a length that differ from their checksum: 84. Allocates nothing.
#[tactic(auto, using(crate::proofs::Fronts::read, crate::proofs::Fronts::unread))]
pub fn log_front(log: &[u8]) -> Result<HealLogFront, u32>
    ensures { result ≡ code.front_due log.now }
{
    match read_front(log) {
        Ok(front) => Ok(front_code(front)),
        Err(fault) => Err(fault.number()),
    }
}

// Writes a front.
fn front_code(front: LogFront) -> HealLogFront
    ensures { result ≡ code.front_code front }
{
    match front {
        LogFront::End => placed(0, 0),
        LogFront::Cut => placed(1, 0),
        LogFront::Entry(size) => placed(3, size),
        LogFront::Snapshot(size) => placed(4, size),
    }
}

// Writes a kind and a size.
fn placed(kind: u32, size: usize) -> HealLogFront
    ensures { result ≡ record { kind = kind; reserved = 0; size = size } }
{
    HealLogFront {
        kind,
        reserved: 0,
        size: size as u64,
    }
}
