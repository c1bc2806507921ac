//! A side shared by threads.
ghost use Rattle.std.specs.Prelude.{◌≡◌};
ghost use Rattle.std.specs.Fn.{FnOnceReturnsAtMut};
ghost use Rattle.exchange_core.specs.declared.side.Side.{Side};

use clash_record::SideId;
use exchange_core::Side;
use judge_pool::Ear;
use partition_table::Ruling;
use std::alloc::Global;
use std::fmt;
use std::sync::{Mutex, Wait};
use verdict_board::Pass;

/// A side under a lock, shared by threads.
///
/// Whenever the lock is acquired, the side is where its journal leads: its type guarantees this. As a listener it
/// takes each ruling under the lock, and drops a refusal.
#[derive(Drop)]
pub struct Partition {
    side: Mutex<Side>,
}

impl fmt::Debug for Partition {
    fn fmt<W: fmt::Write>(&self, f: &mut fmt::Formatter<W>) -> fmt::Result {
        f.write_str("Partition")
    }
}

impl Partition {
    /// Returns an idle side without names. Allocates nothing.
    pub fn new(alloc: Global, id: SideId) -> Partition {
        Partition {
            side: Mutex::new(Side::new(alloc, id)),
        }
    }

    /// Runs `f` on the locked side and returns its result. Waits for the lock.
    pub fn with_side<T, F: FnOnce(&mut Side) -> T, R: Wait>(&self, rt: &R, f: F) -> T
        requires { F.IsAlwaysCallable f }
        // The result is that of `f` on some side, and `f` leaves a side.
        ensures { (old : Side) × (new : Side) × FnOnceReturnsAtMut F.FnOnce f old result new }
    {
        let mut side = self.side.lock(rt);
        f(&mut side)
    }
}

impl Ear for Partition {
    fn told<'p, R: Wait>(&self, rt: &R, ruling: Ruling<'p>, _pass: &Pass<'p>) {
        let mut side = self.side.lock(rt);
        let _ = side.take(ruling);
    }
}
