//! The exchange of a primary: its side, and what the exchange leaves.
ghost use Rattle.std.specs.Prelude.{◌≡◌, Option};
ghost use Rattle.c_calls.specs.Halves as half;
ghost use Rattle.c_calls.specs.Answers.{held_after, returned_number};
ghost use Rattle.c_replicas.specs.Exchanges.{Changes, Gets};

use crate::positions::{HealPosition, position_of};
use c_calls::{HEALING, Half, number_of, side_id};
use refusals::{Numbered, OUT_OF_MEMORY};
use replica::Replica;
use std::alloc::Global;

/// Returns an idle side with the table, the programs, the limit and the greatest number of the replica's half.
///
/// Returns 74 for another side than 0 or 1, and 32 if the table has more names than the limit.
pub fn side(replica: &Replica, alloc: Global, id: u32) -> Result<Box<Half>, u32>
    ensures { (before : Option half.SideAndStore) → Gets id replica.now before
        (held_after (λ made. made.value) before result) (returned_number (λ n. n) result) }
{
    let id = side_id(id)?;
    let side = match replica.side(alloc, id) {
        Ok(side) => side,
        Err(fault) => return Err(fault.number()),
    };
    let Ok(store) = replica.half().store().try_clone() else {
        return Err(OUT_OF_MEMORY);
    };
    match Box::new(alloc, Half::of(side, store)) {
        Ok(half) => Ok(half),
        Err(_) => Err(OUT_OF_MEMORY),
    }
}

/// Starts a view with what an exchange left of a side. Returns 33 if its exchange is open, and 49 and 99 as `Replica::change`.
pub fn change(replica: &mut Replica, alloc: Global, from: &HealPosition, half: &Half) -> u32
    ensures { Changes from.now half.now replica.old replica.new result }
{
    let side = half.side();
    if side.open_number().is_some() {
        return HEALING;
    }
    let (table, latest) = (side.table(), side.latest());
    number_of(&replica.change(alloc, position_of(from), table, latest))
}
