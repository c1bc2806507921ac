//! The front of a log.
ghost use Rattle.std.specs.Prelude.{◌≡◌};
ghost use Rattle.c_calls.specs.Answers.{GivesDue};
ghost use Rattle.c_replicas.specs.Logs as logs;

use c_calls::give;
use c_replicas::{HealLogFront, log_front};

/// Reads what a log begins with: a snapshot or an entry, and its length.
///
/// Rejects bytes that begin with neither: 71, or 82 for another version; and 84 for a header and a length that differ from their
/// checksum.
#[unsafe(no_mangle)]
pub extern "C" fn heal_log_front(log: &[u8], front: &mut HealLogFront) -> u32
    ensures { GivesDue (logs.front_due log.now) (λ found. front.new ≡ found) (front.new ≡ front.old) result }
{
    give(log_front(log), front)
}
