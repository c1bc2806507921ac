//! The outcome of a healed split.
ghost use Rattle.std.specs.Prelude.{◌≡◌};
ghost use Rattle.cluster.specs.Healings.{healing_of};

use clash_record::Withdrawal;
use exchange_core::Judged;
use partition_table::ClashList;
use std::sync::Arc;

/// The outcome of a healed split.
#[derive(Debug)]
pub struct Healing {
    pub(crate) clashes: Arc<ClashList>,
    pub(crate) rulings: Vec<Judged>,
    pub(crate) withdrawn: Vec<Withdrawal>,
    pub(crate) names: usize,
}

// Written out, so that a drop is one call in the proofs of callers.
impl Drop for Healing {
    fn drop(self) {
        let Healing {
            clashes: _,
            rulings: _,
            withdrawn: _,
            names: _,
        } = self;
    }
}

impl Healing {
    /// Returns the clashes of the two tables, in the order of names.
    pub fn clashes(&self) -> &ClashList
        ensures { result.now ≡ (healing_of self.now).clashes }
    {
        &self.clashes
    }

    /// Returns the ruling of each clash, in the order of the clashes.
    pub fn rulings(&self) -> &[Judged]
        ensures { result.now ≡ (healing_of self.now).rulings }
    {
        &self.rulings
    }

    /// Returns the names that the halves withdrew, in the order of the plan.
    pub fn withdrawn(&self) -> &[Withdrawal]
        ensures { result.now ≡ (healing_of self.now).withdrawn }
    {
        &self.withdrawn
    }

    /// Returns the number of names in the one table.
    pub fn names(&self) -> usize
        ensures { result ≡ (healing_of self.now).names }
    {
        self.names
    }
}
