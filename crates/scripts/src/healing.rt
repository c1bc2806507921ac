//! The exchange of the two halves.
ghost use Rattle.std.specs.Prelude.{◌≡◌, ◌<◌, ◌≤◌, ◌-◌, ◌^◌, IfOk, IfErr};
ghost use Rattle.scripts.specs.declared.reply.Reply.TheVariants.{Refused};
ghost use Rattle.cluster.specs.Healings.{healing_of};
ghost use Rattle.scripts.specs.Machines.{machine_of};
ghost use Rattle.scripts.specs.Steps.{HealRefused, HealsAs, plan_for};

use crate::crew::Crew;
use crate::machine::Machine;
use clash_record::{Uptimes, Withdrawal};
use cluster::{Healing, Plan};
use judge_pool::Gate;
use refusals::{NumberedRefusal, refusal_of};
use std::sync::Wait;
use std::thread::Threads;

/// A split to heal.
#[derive(Clone, Copy, Debug)]
pub struct Split<'a> {
    /// The seed of the words.
    pub seed: u64,
    /// The uptimes of the two halves.
    pub uptimes: Uptimes,
    /// The names to withdraw while the exchange is open.
    pub gone: &'a [Withdrawal],
}

impl Machine {
    /// Heals the split as an exchange of the next number. A failure uses the number up.
    ///
    /// The crew's workers judge the clashes, and it waits for them. Requires fewer than 2^64 - 1 exchanges so far. Returns
    /// the refusal with the least number that the code met; no clause states which.
    pub fn heal<T: Threads + Wait + Sync + AllocGlobal, G: Gate + Sync, N>(
        &mut self,
        crew: &Crew<'_, T, G, N>,
        split: Split<'_>,
    ) -> Result<Healing, NumberedRefusal>
        requires unused { (machine_of self.old).latest < 2 ^ 64 - 1 }
        ensures healed { IfOk result (λ healing. HealsAs (plan_for (machine_of self.old) split.entry.seed split.entry.uptimes split.entry.gone.now)
            (machine_of self.old) (healing_of healing) (machine_of self.new)) }
        ensures refused { IfErr result (λ refusal. HealRefused (plan_for (machine_of self.old) split.entry.seed split.entry.uptimes split.entry.gone.now)
            (machine_of self.old) (Refused refusal) (machine_of self.new)) }
    {
        self.latest += 1;
        let plan = Plan {
            number: self.latest,
            seed: split.seed,
            uptimes: split.uptimes,
            gone: split.gone,
        };
        let (rt, alloc) = (crew.rt, crew.rt.alloc());
        let healed = self.cluster.heal(rt, alloc, &plan, crew.workers, crew.gate);
        self.agreements.restart(&self.cluster, &self.store);
        match healed {
            Ok(healing) => Ok(healing),
            Err(fault) => Err(refusal_of(&fault)),
        }
    }
}
