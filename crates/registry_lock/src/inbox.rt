//! The rulings that a side receives during a round.
ghost use Rattle.std.specs.Prelude.{◌≡◌, Some, IsTrue, length};
ghost use Rattle.partition_table.specs.Judged.{clash_of_verdict};
ghost use Rattle.exchange_law.specs.Sides.{has_clash, heard_clashes};
ghost use Rattle.exchange_core.specs.Shown.{shown};
ghost use Rattle.verdict_board.specs.Boards.{Pass, as_ruling};
ghost use Rattle.registry_lock.specs.Meeting.{StillSees};
ghost use Rattle.registry_lock.specs.Telling.{HasSeen, IsTold};

use crossbeam_queue::SegQueue;
use exchange_core::Side;
use judge_pool::Ear;
use partition_table::Ruling;
use std::alloc::Global;
use std::sync::Wait;
use verdict_board::{Board, Pass};

// The clashes whose rulings a side receives. Without a queue, all rulings are dropped.
#[derive(Drop)]
pub(crate) struct Inbox {
    queue: Option<SegQueue<u32>>,
}

impl Ear for Inbox {
    fn told<'p, R: Wait>(&self, rt: &R, ruling: Ruling<'p>, _pass: &Pass<'p>) {
        if let Some(queue) = &self.queue {
            let _ = queue.push(rt, ruling.k);
        }
    }
}

impl Inbox {
    // Returns an empty inbox. If the queue can't be allocated, it drops all rulings.
    pub(crate) fn new(alloc: Global) -> Inbox {
        Inbox {
            queue: SegQueue::new(alloc).ok(),
        }
    }

    // Returns an inbox that drops all rulings.
    pub(crate) fn closed() -> Inbox {
        Inbox { queue: None }
    }

    // Lets the side take the queued rulings as the pass reads them, at most one for each clash of the board. Compares the board's
    // clashes with the side's unless `is_own`: requires then that they are the side's.
    pub(crate) fn empty_into<'p, R: Wait>(
        &self,
        rt: &R,
        board: &Board<'p>,
        pass: &mut Pass<'p>,
        is_own: bool,
        side: &mut Side,
    )
        requires board { pass.old.place ≡ board.now.place }
        requires own { IsTrue is_own → heard_clashes (shown side.old) ≡ Some board.now.place.clashes }
        ensures keeps { StillSees pass.old pass.new }
        ensures taken { IsTold pass.new (length board.now.place.clashes) side.old side.new }
    {
        let is_own = is_its_own(is_own, board, side);
        for _turn in 0..board.clashes().len() {
            let Some(k) = self.next(rt) else {
                break;
            };
            take_seen(board, pass, is_own, side, k);
        }
    }

    fn next<R: Wait>(&self, rt: &R) -> Option<u32> {
        match &self.queue {
            Some(queue) => queue.pop(rt),
            None => None,
        }
    }
}

// Checks whether the board's clashes are the side's. Compares nothing if that is known.
fn is_its_own(is_known: bool, board: &Board<'_>, side: &Side) -> bool
    requires { IsTrue is_known → heard_clashes (shown side.now) ≡ Some board.now.place.clashes }
    ensures { IsTrue result → heard_clashes (shown side.now) ≡ Some board.now.place.clashes }
{
    if is_known {
        return true;
    }
    side.has_clashes(board.clashes())
}

// Lets the side take the ruling of clash k that the pass reads, if any. Drops a refusal. `is_own` is whether the side's
// clashes are those of the board, so that this ruling's needn't be compared.
fn take_seen<'p>(board: &Board<'p>, pass: &mut Pass<'p>, is_own: bool, side: &mut Side, k: u32)
    requires board { pass.old.place ≡ board.now.place }
    requires own { IsTrue is_own → heard_clashes (shown side.old) ≡ Some board.now.place.clashes }
    ensures keeps { StillSees pass.old pass.new }
    ensures taken { IsTold pass.new 1 side.old side.new }
{
    if let Some(ruling) = board.read(k, pass) {
        take_or_drop(side, ruling, is_own);
    }
}

// Lets the side take a ruling, and drops a refusal. `is_own` is whether its clash is one of the side's own.
fn take_or_drop(side: &mut Side, ruling: Ruling<'_>, is_own: bool)
    requires { IsTrue is_own → IsTrue (has_clash (shown side.old) ruling.k (clash_of_verdict ruling.verdict)) }
    ensures { (pass : Pass) → HasSeen pass (as_ruling ruling.entry) → IsTold pass 1 side.old side.new }
{
    let _ = if is_own {
        side.take_own(ruling)
    } else {
        side.take(ruling)
    };
}
