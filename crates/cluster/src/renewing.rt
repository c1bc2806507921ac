//! Renewing the journals of the halves.
ghost use Rattle.std.specs.Prelude.{◌≡◌, OnOk, OnErr};
ghost use Rattle.exchange_core.specs.Refusals as due;
ghost use Rattle.refusals.specs.Answers.{IsDecidedBy};
ghost use Rattle.cluster.specs.Clusters.{standing_of, cluster_of, at, AreFresh, HasChanged, IsFresh, IsGivenUp, IsRenewed};
ghost use Rattle.cluster.specs.model.Stages.{halves_of};

use crate::cluster::Cluster;
use crate::halves::Halves;
use clash_record::SideId;
use exchange_core::{Side, SideFault};

impl Cluster {
    /// Shortens the journal of an idle half: afterwards it has at most two events more than the table has names.
    ///
    /// The table and the greatest number that the half began stay as they are. Returns 33 if a failed `heal` left an
    /// exchange of the half open. Allocates nothing.
    pub fn renew(&mut self, id: SideId) -> Result<(), SideFault>
        ensures answer { IsDecidedBy (due.renew_fault (at (cluster_of self.old) id).side) result }
        ensures renewed { OnOk result (HasChanged IsRenewed (cluster_of self.old) id (cluster_of self.new)) }
        ensures untouched { OnErr result (cluster_of self.new ≡ cluster_of self.old) }
    {
        match id {
            SideId::A => self.halves.a.renew(),
            SideId::B => self.halves.b.renew(),
        }
    }

    /// Gives the open exchange of a half up, if there is one, and renews its journal, also a full one. Afterwards the half is idle,
    /// without the names that it withdrew, and its journal has at most two events more than the table has names. Allocates
    /// nothing.
    pub fn give_up(&mut self, id: SideId)
        ensures { HasChanged IsGivenUp (cluster_of self.old) id (cluster_of self.new) }
    {
        match id {
            SideId::A => self.halves.a.give_up(),
            SideId::B => self.halves.b.give_up(),
        }
    }

    /// Renews the journal of each idle half that is more than half full. Allocates nothing.
    pub fn renew_long(&mut self)
        ensures { AreFresh (cluster_of self.old) (cluster_of self.new) }
    {
        self.halves.renew_long();
    }
}

impl Halves {
    // Renews the journal of each idle half that is more than half full.
    pub fn renew_long(&mut self)
        ensures { AreFresh (halves_of self.old) (halves_of self.new) }
    {
        renew_long(&mut self.a);
        renew_long(&mut self.b);
    }
}

// Renews the journal of an idle side that is more than half full.
fn renew_long(side: &mut Side)
    ensures { IsFresh (standing_of side.old) (standing_of side.new) }
{
    if side.open_number().is_some() || side.events() <= side.max_events() / 2 {
        return;
    }
    if side.renew().is_err() {
        unreachable!()
    }
}
