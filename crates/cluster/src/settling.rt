//! The rounds of an exchange, and the meeting of the two halves.
ghost use Rattle.std.specs.Prelude.{◌≡◌, ◌<◌, [], All, Some, IsTrue, OnErr, IfOk, IfErr, length, vec_capacity};
ghost use Rattle.exchange_law.specs.Sides.{heard_clashes};
ghost use Rattle.exchange_core.specs.Shown.{shown};
ghost use Rattle.verdict_board.specs.Draws.{rounds};
ghost use Rattle.registry_lock.specs.Meeting as meeting;
ghost use Rattle.registry_lock.specs.Telling.{IsTold};
ghost use Rattle.cluster.specs.Clusters as shown_as;
ghost use Rattle.cluster.specs.Clusters.{cluster_of};
ghost use Rattle.cluster.specs.Healing as planned;
ghost use Rattle.cluster.specs.Healing.{plan_of, BothFit, HealsSplit, IsFailed};
ghost use Rattle.cluster.specs.Causes.{IsCause, IsEarly, ShowAsBefore};
ghost use Rattle.cluster.specs.Healings.{healing_of};
ghost use Rattle.cluster.specs.model.Stages.{halves_of, clashes_shown, AreSides, AreRested, AreTrying};
ghost use Rattle.cluster.specs.model.Stages.{AreInRounds, HaveMet, CanMeet};

use crate::cluster::Cluster;
use crate::crew::{Crew, Turn};
use crate::fault::HealFault;
use crate::finishing::{Finishing, both_finished};
use crate::halves::Halves;
use crate::healing::Healing;
use crate::plan::Plan;
use exchange_core::{Finished, Judged};
use judge_pool::{Gate, Workers};
use partition_table::ClashList;
use registry_lock::{Judging, meet, tell_round_by};
use std::alloc::{AllocError, Global};
use std::sync::Wait;
use std::thread::Threads;
use verdict_board::{Board, Pass, Seat, open};

impl Cluster {
    /// Heals the split: the halves exchange their tables, `workers` judge the clashes, and both keep the merge.
    ///
    /// First abandons an exchange that an earlier failure left open, and renews each journal that is more than half full, so
    /// that an exchange fits. If both halves finish, the split is healed: no call after that can fail.
    ///
    /// On failure, abandons each open half, unless the half rejects that, and returns the fault with the least number
    /// met: 31 or 47 if a half doesn't hold each name that it is to withdraw, or is to withdraw one twice; 35 if the
    /// number isn't above all that a half began; 37 or 42 if the two tables don't fit together; 39 if a ruling is
    /// missing; 40 if a journal is full; 90 when out of memory. A half that finished alone stays merged. The contract
    /// doesn't promise that 39, 40 and 90 come only for these reasons.
    ///
    /// Waits for the workers.
    pub fn heal<G: Gate + Sync, R: Threads + Wait + Sync>(
        &mut self,
        rt: &R,
        alloc: Global,
        plan: &Plan<'_>,
        workers: Workers,
        gate: &G,
    ) -> Result<Healing, HealFault>
        // Both halves have one table: the lawful merge of the two that they showed.
        ensures healed { IfOk result (λ healing. HealsSplit (plan_of plan.entry.now) (cluster_of self.old)
            (cluster_of self.new) (healing_of healing)) }
        // A failure leaves each half in one of four known states, and at most one half merged.
        ensures failed { OnErr result (IsFailed (plan_of plan.entry.now) (cluster_of self.old) (cluster_of self.new)) }
        // The fault has its cause in the halves before the call, or is 39, 40 or 90.
        ensures cause { IfErr result (IsCause (plan_of plan.entry.now) (cluster_of self.old)) }
        // 35, 37 and 42 change no table.
        ensures early { IfErr result (λ fault. IsEarly fault
            → ShowAsBefore (cluster_of self.old) (cluster_of self.new)) }
    {
        let crew = Crew {
            rt,
            alloc,
            workers,
            gate,
        };
        self.halves.heal(&crew, plan)
    }
}

impl Halves {
    // Abandons an open exchange, renews long journals, tries the new exchange, and abandons it after a failure.
    fn heal<G: Gate + Sync, R: Threads + Wait + Sync>(
        &mut self,
        crew: &Crew<'_, R, G>,
        plan: &Plan<'_>,
    ) -> Result<Healing, HealFault>
        ensures healed { IfOk result (λ healing. AreSides (halves_of self.old)
            → HealsSplit (plan_of plan.entry.now) (halves_of self.old) (halves_of self.new) (healing_of healing)) }
        ensures failed { OnErr result (AreSides (halves_of self.old)
            → IsFailed (plan_of plan.entry.now) (halves_of self.old) (halves_of self.new)) }
        ensures cause { IfErr result (λ fault. AreSides (halves_of self.old)
            → IsCause (plan_of plan.entry.now) (halves_of self.old) fault) }
        ensures early { IfErr result (λ fault. AreSides (halves_of self.old) → IsEarly fault
            → ShowAsBefore (halves_of self.old) (halves_of self.new)) }
    {
        self.abandon_open()?;
        self.renew_long();
        match self.exchange(crew, plan) {
            Ok(healing) => Ok(healing),
            Err(fault) => Err(self.give_up(fault)),
        }
    }

    // Abandons the open halves after this failure. Returns the fault with the least number.
    fn give_up(&mut self, fault: HealFault) -> HealFault
        ensures cause { (plan : planned.Plan) (was : shown_as.Cluster) → IsCause plan was fault
            → IsCause plan was result }
        ensures left { (plan : planned.Plan) (was : shown_as.Cluster) → AreSides was → IsFailed plan was (halves_of self.old)
            → IsFailed plan was (halves_of self.new) }
        ensures early { IsEarly result → IsEarly fault }
        ensures shown { ShowAsBefore (halves_of self.old) (halves_of self.new) }
    {
        match self.abandon_open() {
            Ok(()) => fault,
            Err(refused) => fault.least(refused),
        }
    }

    // Tries the exchange. A failure leaves an open half open.
    fn exchange<G: Gate + Sync, R: Threads + Wait + Sync>(
        &mut self,
        crew: &Crew<'_, R, G>,
        plan: &Plan<'_>,
    ) -> Result<Healing, HealFault>
        ensures healed { IfOk result (λ healing. (was : shown_as.Cluster) → AreSides was
            → AreRested was (halves_of self.old)
            → HealsSplit (plan_of plan.entry.now) was (halves_of self.new) (healing_of healing)) }
        ensures failed { OnErr result ((was : shown_as.Cluster) → AreSides was → AreRested was (halves_of self.old)
            → IsFailed (plan_of plan.entry.now) was (halves_of self.new)) }
        ensures cause { IfErr result (λ fault. (was : shown_as.Cluster) → AreSides was
            → AreRested was (halves_of self.old) → IsCause (plan_of plan.entry.now) was fault) }
        ensures early { IfErr result (λ fault. (was : shown_as.Cluster) → AreSides was
            → AreRested was (halves_of self.old) → IsEarly fault → ShowAsBefore was (halves_of self.new)) }
    {
        let withdrawn = copy(crew.alloc, plan.gone)?;
        self.open(crew.alloc, plan)?;
        let clashes = self.a.share_clashes()?;
        let (rulings, names) = self.settle(crew, plan, &clashes)?;
        Ok(Healing {
            clashes,
            rulings,
            withdrawn,
            names,
        })
    }

    // Judges the clashes, finishes both halves and lets them meet. Returns the rulings, and the number of names in the
    // one table. Allocates the room for the rulings first, so that two halves that finished don't fail to meet.
    fn settle<G: Gate + Sync, R: Threads + Wait + Sync>(
        &mut self,
        crew: &Crew<'_, R, G>,
        plan: &Plan<'_>,
        clashes: &ClashList,
    ) -> Result<(Vec<Judged>, usize), HealFault>
        requires own { heard_clashes (shown self.old.a) ≡ Some clashes.now }
        ensures healed { IfOk result (λ settled. (was : shown_as.Cluster) → AreSides was
            → AreTrying (plan_of plan.entry.now) was plan.entry.now.gone.now (halves_of self.old)
            → clashes.now ≡ clashes_shown (plan_of plan.entry.now) was → BothFit was
            → HealsSplit (plan_of plan.entry.now) was (halves_of self.new) (record {
              clashes = clashes.now;
              rulings = settled.0.items;
              withdrawn = plan.entry.now.gone.now;
              names = settled.1;
            })) }
        ensures failed { OnErr result ((was : shown_as.Cluster) → AreSides was
            → AreTrying (plan_of plan.entry.now) was plan.entry.now.gone.now (halves_of self.old)
            → clashes.now ≡ clashes_shown (plan_of plan.entry.now) was
            → IsFailed (plan_of plan.entry.now) was (halves_of self.new)) }
        ensures cause { IfErr result (λ fault. (was : shown_as.Cluster) → AreSides was
            → AreTrying (plan_of plan.entry.now) was plan.entry.now.gone.now (halves_of self.old)
            → clashes.now ≡ clashes_shown (plan_of plan.entry.now) was
            → IsCause (plan_of plan.entry.now) was fault) }
    {
        let rulings = Vec::with_capacity(crew.alloc, clashes.len())?;
        let (number, seed) = (plan.number, plan.seed);
        let (board, seats) = open(crew.alloc, number, seed, clashes, crew.workers.count())?;
        let mut pass = board.pass()?;
        let (first, second) = self.judge(crew, &board, &mut pass, seats)?;
        meet_halves(&board, &mut pass, rulings, first, second)
    }

    // Runs rounds 0 to 3 until both halves finish, by the rulings that the pass reads. Returns what they finished, A's
    // first.
    fn judge<'p, G: Gate + Sync, R: Threads + Wait + Sync>(
        &mut self,
        crew: &Crew<'_, R, G>,
        board: &Board<'p>,
        pass: &mut Pass<'p>,
        seats: Vec<Seat>,
    ) -> Result<(Finished, Finished), HealFault>
        requires pass { pass.old.place ≡ board.now.place }
        requires seats { All (λ s. s.draws ≡ board.now.draws) seats.items }
        requires own { heard_clashes (shown self.old.a) ≡ Some board.now.place.clashes }
        ensures pass { pass.new.place ≡ pass.old.place }
        ensures merged { IfOk result (λ finished. (plan : planned.Plan) (was : shown_as.Cluster)
            → AreTrying plan was plan.gone (halves_of self.old)
            → AreInRounds plan was pass.new (Some finished.0) (Some finished.1) (halves_of self.new)) }
        ensures failed { OnErr result ((plan : planned.Plan) (was : shown_as.Cluster) → AreSides was
            → AreTrying plan was plan.gone (halves_of self.old) → IsFailed plan was (halves_of self.new)) }
        ensures cause { IfErr result (λ fault. (plan : planned.Plan) (was : shown_as.Cluster)
            → AreTrying plan was plan.gone (halves_of self.old) → IsCause plan was fault) }
    {
        let mut seats = seats;
        let mut a = Finishing::new();
        let mut b = Finishing::new();
        for round in 0..4 {
            if a.finished.is_some() && b.finished.is_some() {
                break;
            }
            // Until A finishes, the board's clashes are those that A shared.
            let is_own = a.finished.is_none();
            seats = self.tell(crew, board, pass, seats, Turn { round, is_own });
            a.try_finish(crew.alloc, &mut self.a);
            b.try_finish(crew.alloc, &mut self.b);
        }
        both_finished(a, b)
    }

    // Runs a round and hands its rulings to both halves. Returns the seats. Requires that the board's clashes are A's if
    // `turn.is_own`.
    fn tell<'p, G: Gate + Sync, R: Threads + Wait + Sync>(
        &mut self,
        crew: &Crew<'_, R, G>,
        board: &Board<'p>,
        pass: &mut Pass<'p>,
        seats: Vec<Seat>,
        turn: Turn,
    ) -> Vec<Seat>
        requires pass { pass.old.place ≡ board.now.place }
        requires seats { All (λ s. s.draws ≡ board.now.draws) seats.items }
        requires round { turn.round < rounds }
        requires own { IsTrue turn.is_own → heard_clashes (shown self.old.a) ≡ Some board.now.place.clashes }
        ensures keeps { meeting.StillSees pass.old pass.new }
        ensures a { IsTold pass.new (length board.entry.now.place.clashes) self.old.a self.new.a }
        ensures b { IsTold pass.new (length board.entry.now.place.clashes) self.old.b self.new.b }
        ensures seats { All (λ s. s.draws ≡ board.entry.now.draws) result.items }
    {
        let judging = Judging {
            rt: crew.rt,
            alloc: crew.alloc,
            board,
            gate: crew.gate,
            round: turn.round,
            is_own: turn.is_own,
        };
        tell_round_by(judging, pass, seats, &mut self.a, &mut self.b).seats
    }
}

// Lets the two halves meet, and copies the rulings into these, which are empty. Returns them, and the number of names in
// the one table.
fn meet_halves<'p>(
    board: &Board<'p>,
    pass: &mut Pass<'p>,
    rulings: Vec<Judged>,
    first: Finished,
    second: Finished,
) -> Result<(Vec<Judged>, usize), HealFault>
    requires board { pass.old.place ≡ board.now.place }
    requires empty { rulings.items ≡ [] }
    ensures met { IfOk result (λ met. HaveMet board.now.place first second met.0.items met.1) }
    ensures refused { OnErr result (¬ CanMeet board.now.place pass.old (vec_capacity rulings) first second) }
{
    let mut rulings = rulings;
    rulings.extend_from_slice(first.rulings())?;
    let healed = meet(board, pass, first, second)?;
    Ok((rulings, healed.table().len()))
}

// Returns a copy of the items.
fn copy<T: Copy>(alloc: Global, items: &[T]) -> Result<Vec<T>, AllocError>
    ensures { IfOk result (λ copied. copied.items ≡ items.now) }
{
    let mut copied = Vec::with_capacity(alloc, items.len())?;
    copied.extend_from_slice(items)?;
    Ok(copied)
}
