//! The attempts to finish one half.
ghost use Rattle.std.specs.Prelude.{◌≡◌, ◌⊎◌, None, Some, Ok, OnOk, OnErr, IfOk, IfErr};
ghost use Rattle.clash_record.specs.declared.side_id.SideId.{SideId};
ghost use Rattle.exchange_law.specs.Calls.{Finish};
ghost use Rattle.exchange_core.specs.Finished.{IsFinished, finished_from};
ghost use Rattle.refusals.specs.Answers.{IsAnswered};
ghost use Rattle.exchange_core.specs.Faults.{side_fault_number};
ghost use Rattle.exchange_core.specs.Refusals as due;
ghost use Rattle.exchange_core.specs.Shown.{shown, is_full, IsDone, IsUntouched};
ghost use Rattle.cluster.specs.declared.fault.HealFault.TheVariants.{OutOfMemory};
ghost use Rattle.cluster.specs.Causes.{IsCause};
ghost use Rattle.verdict_board.specs.Boards.{Pass};
ghost use Rattle.cluster.specs.Clusters as shown_as;
ghost use Rattle.cluster.specs.Healing as planned;
ghost use Rattle.cluster.specs.model.Stages.{AddsEvents, IsInRounds};

use crate::fault::HealFault;
use exchange_core::{Finished, Side, SideFault};
use std::alloc::Global;

// What a half finished, and the fault with the least number so far. It starts with `OutOfMemory`, whose number is the
// greatest.
#[derive(Drop)]
pub(crate) struct Finishing {
    pub finished: Option<Finished>,
    pub least: HealFault,
}

impl Finishing {
    // Returns the state before the first attempt.
    pub fn new() -> Finishing
        ensures none { result.finished ≡ None }
        ensures least { result.least ≡ OutOfMemory }
    {
        Finishing {
            finished: None,
            least: HealFault::OutOfMemory,
        }
    }

    // Tries to finish the half, unless it has finished.
    pub fn try_finish(&mut self, alloc: Global, side: &mut Side)
        ensures goes_on { (plan : planned.Plan) (was : shown_as.Cluster) (pass : Pass) (id : SideId)
            → IsInRounds plan was pass id self.old.finished (shown side.old)
            → IsInRounds plan was pass id self.new.finished (shown side.new) }
        ensures grown { AddsEvents side.old side.new }
        ensures stays { self.new.finished ≡ None → (self.old.finished ≡ None) × (shown side.new ≡ shown side.old) }
        ensures cause { (plan : planned.Plan) (was : shown_as.Cluster) (pass : Pass) (id : SideId)
            → IsInRounds plan was pass id self.old.finished (shown side.old) → IsCause plan was self.old.least
            → IsCause plan was self.new.least }
    {
        if self.finished.is_some() {
            return;
        }
        match finish(alloc, side) {
            Ok(finished) => self.finished = Some(finished),
            Err(fault) => self.least = self.least.least(HealFault::Side(fault)),
        }
    }
}

// Finishes the side, and shows that its outcome is lawful.
fn finish(alloc: Global, side: &mut Side) -> Result<Finished, SideFault>
    ensures answer { IsAnswered side_fault_number (due.finish_fault (is_full side.old) (shown side.old)) result }
    ensures given { IfOk result (λ finished. finished_from (shown side.old) ≡ Some finished) }
    ensures lawful { IfOk result IsFinished }
    ensures done { OnOk result (IsDone side.old Finish side.new) }
    ensures untouched { OnErr result (IsUntouched side.old side.new) }
{
    let finished = side.finish(alloc)?;
    let _rulings = finished.rulings();
    Ok(finished)
}

// Returns what both finished, A's first, or the fault with the least number.
pub(crate) fn both_finished(a: Finishing, b: Finishing) -> Result<(Finished, Finished), HealFault>
    ensures both { IfOk result (λ both. (a.finished ≡ Some both.0) × (b.finished ≡ Some both.1)) }
    ensures open { OnErr result ((a.finished ≡ None) ⊎ (b.finished ≡ None)) }
    ensures least { IfErr result (λ fault. (fault ≡ a.least) ⊎ (fault ≡ b.least)) }
{
    match (a.finished, b.finished) {
        (Some(of_a), Some(of_b)) => Ok((of_a, of_b)),
        _ => Err(a.least.least(b.least)),
    }
}
