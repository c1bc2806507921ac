//! The state of a script between its lines.
ghost use Rattle.cluster.specs.Clusters.{cluster_of};
ghost use Rattle.scripts.specs.model.Agreeing.{AreAgreed, AreAgreed-prop};

use crate::agreements::Agreements;
use crate::labels::Label;
use crate::reply::Reply;
use clash_record::{Name, SideId};
use cluster::Cluster;
use partition_table::NameLimit;
use std::alloc::Global;
use upload_store::UploadStore;

/// What a script keeps from line to line: the labels, the uploaded programs, the two halves of a cluster, the programs
/// with which they are known to agree, and the number of the latest exchange.
#[derive(Debug)]
pub struct Machine {
    pub(crate) labels: Vec<Label>,
    pub(crate) store: UploadStore,
    pub(crate) cluster: Cluster,
    pub(crate) agreements: Agreements,
    pub(crate) latest: u64,
    pub ghost agreed: { AreAgreed (cluster_of cluster) store agreements } by { AreAgreed-prop (cluster_of cluster) store agreements },
}

// Written out, so that a drop is one call in the proofs of callers.
impl Drop for Machine {
    fn drop(self) {
        let Machine {
            labels: _,
            store: _,
            cluster: _,
            agreements: _,
            latest: _,
        } = self;
    }
}

impl Machine {
    ghost use Rattle.std.specs.Prelude.{◌≡◌};
    ghost use Rattle.scripts.specs.Machines.{machine_of, new_machine};
    ghost use Rattle.scripts.specs.Steps.{IsRenewedMachine, whereis_reply};

    /// Without labels, programs, names and exchanges. Each half may have as many names as `limit`. Allocates nothing.
    pub fn new(alloc: Global, limit: NameLimit) -> Machine
        ensures { machine_of result ≡ new_machine limit.names }
    {
        let store = UploadStore::new(alloc);
        let cluster = Cluster::with_limit(alloc, limit);
        let agreements = Agreements::new(alloc, &cluster, &store);
        Machine {
            labels: Vec::new(alloc),
            store,
            cluster,
            agreements,
            latest: 0,
        }
    }

    /// Renews the journal of each idle half that is more than half full, so that no line is refused for a full journal.
    /// Allocates nothing.
    pub fn renew_long(&mut self)
        ensures { IsRenewedMachine (machine_of self.old) (machine_of self.new) }
    {
        self.cluster.renew_long();
    }

    /// Who owns a name on a side, if anybody does; an open side leaves out the names that it withdrew. Allocates nothing.
    pub fn whereis(&self, side: SideId, name: &Name) -> Reply
        ensures { result ≡ whereis_reply (machine_of self.now) side name.now }
    {
        match self.cluster.side(side).whereis(name) {
            Some(registration) => Reply::Owned(registration.owner),
            None => Reply::Undefined,
        }
    }
}
