//! An exchange up to the lists of withdrawn names.
ghost use Rattle.std.specs.Prelude.{◌≡◌, ◌≤◌, ◌+◌, [], ◌∷◌, ◌++◌, List, length, Ok, OnOk, OnErr, IfOk, IfErr, ◌⊎◌};
ghost use Rattle.clash_record.specs.declared.halves.Withdrawal.{Withdrawal};
ghost use Rattle.exchange_core.specs.Shown.{shown, calls};
ghost use Rattle.cluster.specs.Clusters as shown_as;
ghost use Rattle.cluster.specs.Healing as planned;
ghost use Rattle.cluster.specs.Healing.{plan_of, IsFailed};
ghost use Rattle.exchange_law.specs.Sides.{rested};
ghost use Rattle.cluster.specs.declared.fault.HealFault.TheVariants.{Side as OfSide};
ghost use Rattle.cluster.specs.Healing.{BothFit};
ghost use Rattle.cluster.specs.Causes.{IsSideCause, IsCause, IsEarly, ShowAsBefore};
ghost use Rattle.cluster.specs.model.Stages.{halves_of, AreSides, AddsEvents, AreRested, HaveAbandoned, AreOffers, AreTrying};
ghost use Rattle.cluster.specs.model.Stages.{AreUnlisted, AreUnheard, IsRefusalOf};

use crate::fault::HealFault;
use crate::plan::Plan;
use clash_record::{SideId, Withdrawal};
use exchange_core::{Offer, Side, SideFault};
use std::alloc::Global;

// The two halves of a cluster.
#[derive(Debug, Drop)]
pub(crate) struct Halves {
    pub a: Side,
    pub b: Side,
}

impl Halves {
    // Abandons each open exchange. A half that rejects this is unchanged.
    pub fn abandon_open(&mut self) -> Result<(), HealFault>
        ensures rested { OnOk result (HaveAbandoned (halves_of self.old) (halves_of self.new)) }
        // Halves that a failure left stay so.
        ensures left { (plan : planned.Plan) (was : shown_as.Cluster) → AreSides was
            → IsFailed plan was (halves_of self.old)
            → IsFailed plan was (halves_of self.new) }
        ensures cause { IfErr result (λ fault. (plan : planned.Plan) (was : shown_as.Cluster) → IsCause plan was fault) }
        ensures late { IfErr result (λ fault. ¬ IsEarly fault) }
        ensures shown { ShowAsBefore (halves_of self.old) (halves_of self.new) }
    {
        let _ = both(abandon_open(&mut self.a), abandon_open(&mut self.b))?;
        Ok(())
    }

    // Runs the exchange up to the rulings.
    pub fn open(&mut self, alloc: Global, plan: &Plan<'_>) -> Result<(), HealFault>
        ensures cause { IfErr result (λ fault. (was : shown_as.Cluster) → AreSides was
            → AreRested was (halves_of self.old) → IsCause (plan_of plan.entry.now) was fault) }
        ensures tried { OnOk result ((was : shown_as.Cluster) → AreSides was → AreRested was (halves_of self.old)
            → AreTrying (plan_of plan.entry.now) was plan.entry.now.gone.now (halves_of self.new)) }
        ensures failed { OnErr result ((was : shown_as.Cluster) → AreSides was → AreRested was (halves_of self.old)
            → IsFailed (plan_of plan.entry.now) was (halves_of self.new)) }
        ensures fits { OnOk result ((was : shown_as.Cluster) → AreSides was → AreRested was (halves_of self.old)
            → BothFit was) }
        ensures early { IfErr result (λ fault. (was : shown_as.Cluster) → AreSides was
            → AreRested was (halves_of self.old) → IsEarly fault → ShowAsBefore was (halves_of self.new)) }
    {
        let (of_a, of_b) = self.begin(alloc, plan)?;
        self.hear(alloc, &of_a, &of_b)?;
        self.withdraw(plan)?;
        self.exchange_lists(alloc)
    }

    // Begins the exchange on both halves. Returns the offers, A's first.
    fn begin(&mut self, alloc: Global, plan: &Plan<'_>) -> Result<(Offer, Offer), HealFault>
        ensures unlisted { OnOk result (AreUnlisted (halves_of self.new)) }
        ensures unheard { OnOk result (AreUnheard (halves_of self.new)) }
        ensures shown { (was : shown_as.Cluster) → AreSides was → AreRested was (halves_of self.old)
            → ShowAsBefore was (halves_of self.new) }
        ensures cause { IfErr result (λ fault. (was : shown_as.Cluster) → AreRested was (halves_of self.old)
            → IsCause (plan_of plan.entry.now) was fault) }
        ensures offers { IfOk result (λ offers. (was : shown_as.Cluster) → AreSides was
            → AreRested was (halves_of self.old)
            → AreOffers (plan_of plan.entry.now) was offers.0 offers.1) }
        ensures tried { OnOk result ((was : shown_as.Cluster) → AreSides was → AreRested was (halves_of self.old)
            → AreTrying (plan_of plan.entry.now) was [] (halves_of self.new)) }
        ensures failed { OnErr result ((was : shown_as.Cluster) → AreSides was → AreRested was (halves_of self.old)
            → IsFailed (plan_of plan.entry.now) was (halves_of self.new)) }
    {
        both(
            self.a.begin(alloc, plan.number, plan.seed, plan.uptimes.a),
            self.b.begin(alloc, plan.number, plan.seed, plan.uptimes.b),
        )
    }

    // Hands each half the other's offer. A half that rejects it is unchanged.
    fn hear(&mut self, alloc: Global, of_a: &Offer, of_b: &Offer) -> Result<(), HealFault>
        ensures unlisted { AreUnlisted (halves_of self.old) → AreUnlisted (halves_of self.new) }
        ensures cause { IfErr result (λ fault. (plan : planned.Plan) (was : shown_as.Cluster)
            → AreOffers plan was of_a.now of_b.now → AreTrying plan was [] (halves_of self.old)
            → IsCause plan was fault) }
        ensures heard { (plan : planned.Plan) (was : shown_as.Cluster) → AreOffers plan was of_a.now of_b.now
            → AreTrying plan was [] (halves_of self.old) → AreTrying plan was [] (halves_of self.new) }
        ensures fits { OnOk result (AreUnheard (halves_of self.old) → (plan : planned.Plan) (was : shown_as.Cluster)
            → AreOffers plan was of_a.now of_b.now → AreTrying plan was [] (halves_of self.old) → BothFit was) }
    {
        let _ = both(self.a.hear(alloc, of_b), self.b.hear(alloc, of_a))?;
        Ok(())
    }

    // Withdraws the planned names in order, each from its half. Stops at the first refusal.
    fn withdraw(&mut self, plan: &Plan<'_>) -> Result<(), HealFault>
        ensures unlisted { OnOk result (AreUnlisted (halves_of self.old) → AreUnlisted (halves_of self.new)) }
        ensures cause { IfErr result (λ fault. (was : shown_as.Cluster)
            → AreTrying (plan_of plan.entry.now) was [] (halves_of self.old) → AreUnlisted (halves_of self.old)
            → IsCause (plan_of plan.entry.now) was fault) }
        ensures withdrawn { OnOk result ((was : shown_as.Cluster)
            → AreTrying (plan_of plan.entry.now) was [] (halves_of self.old)
            → AreTrying (plan_of plan.entry.now) was plan.entry.now.gone.now (halves_of self.new)) }
        ensures failed { OnErr result ((was : shown_as.Cluster) → AreSides was
            → AreTrying (plan_of plan.entry.now) was [] (halves_of self.old)
            → IsFailed (plan_of plan.entry.now) was (halves_of self.new)) }
    {
        for withdrawal in plan.gone {
            self.withdraw_one(withdrawal)?;
        }
        Ok(())
    }

    fn withdraw_one(&mut self, withdrawal: &Withdrawal) -> Result<(), SideFault>
        ensures unlisted { AreUnlisted (halves_of self.old) → AreUnlisted (halves_of self.new) }
        ensures cause { IfErr result (λ fault. (plan : planned.Plan) (was : shown_as.Cluster) (gone rest : List Withdrawal)
            → AreTrying plan was gone (halves_of self.old) → AreUnlisted (halves_of self.old)
            → plan.gone ≡ gone ++ withdrawal.now ∷ rest → IsSideCause plan was fault) }
        ensures withdrawn { OnOk result ((plan : planned.Plan) (was : shown_as.Cluster) (gone : List Withdrawal)
            → AreTrying plan was gone (halves_of self.old)
            → AreTrying plan was (gone ++ withdrawal.now ∷ []) (halves_of self.new)) }
        ensures untouched { OnErr result (halves_of self.new ≡ halves_of self.old) }
    {
        match withdrawal.side {
            SideId::A => self.a.withdraw(&withdrawal.name),
            SideId::B => self.b.withdraw(&withdrawal.name),
        }
    }

    // Closes both lists of withdrawn names, and hands each half the other's. A half that rejects a call is unchanged.
    fn exchange_lists(&mut self, alloc: Global) -> Result<(), HealFault>
        ensures cause { IfErr result (λ fault. (plan : planned.Plan) (was : shown_as.Cluster)
            → AreTrying plan was plan.gone (halves_of self.old) → AreUnlisted (halves_of self.old)
            → IsCause plan was fault) }
        ensures listed { (plan : planned.Plan) (was : shown_as.Cluster) → AreTrying plan was plan.gone (halves_of self.old)
            → AreTrying plan was plan.gone (halves_of self.new) }
    {
        let (of_a, of_b) = both(self.a.close_list(alloc), self.b.close_list(alloc))?;
        let _ = both(self.a.hear_list(&of_b), self.b.hear_list(&of_a))?;
        Ok(())
    }
}

// Abandons the exchange of a side, if one is open.
fn abandon_open(side: &mut Side) -> Result<(), SideFault>
    ensures rested { OnOk result (shown side.new ≡ rested (shown side.old)) }
    ensures same { OnErr result (shown side.new ≡ shown side.old) }
    ensures grown { AddsEvents side.old side.new }
    ensures few { length (calls side.new) ≤ length (calls side.old) + 1 }
    ensures cause { IfErr result (λ fault. (plan : planned.Plan) (was : shown_as.Cluster)
        → IsSideCause plan was fault) }
    ensures late { IfErr result (λ fault. ¬ IsEarly (OfSide fault)) }
{
    match side.abandon() {
        Err(SideFault::NotHealing) => Ok(()),
        answer => answer,
    }
}

// Returns both values, or the fault with the lesser number.
fn both<T: Drop>(
    of_a: Result<T, SideFault>,
    of_b: Result<T, SideFault>,
) -> Result<(T, T), HealFault>
    ensures both { IfOk result (λ both. (of_a ≡ Ok both.0) × (of_b ≡ Ok both.1)) }
    ensures refused { IfErr result (λ fault. IsRefusalOf of_a fault ⊎ IsRefusalOf of_b fault) }
{
    match (of_a, of_b) {
        (Ok(a), Ok(b)) => Ok((a, b)),
        (Err(a), Err(b)) => Err(HealFault::Side(a).least(HealFault::Side(b))),
        (Err(a), Ok(_)) => Err(HealFault::Side(a)),
        (Ok(_), Err(b)) => Err(HealFault::Side(b)),
    }
}
