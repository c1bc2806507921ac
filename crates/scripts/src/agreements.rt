//! The programs with which the halves are known to agree.
ghost use Rattle.std.specs.Prelude.{◌≡◌, OnOk, OnErr, IfOk, Some};
ghost use Rattle.std.specs.Option.{option_map};
ghost use Rattle.std.specs.FinMap.{get};
ghost use Rattle.refusals.specs.Answers.{IsAnswered, IsDecidedBy};
ghost use Rattle.partition_table.specs.Tables.{row_for};
ghost use Rattle.exchange_law.specs.Calls as call;
ghost use Rattle.exchange_core.specs.Faults.{side_fault_number};
ghost use Rattle.exchange_core.specs.Refusals as due;
ghost use Rattle.cluster.specs.Clusters.{cluster_of, at, is_full_at, IsCalled};
ghost use Rattle.scripts.specs.model.Agreeing.{AreAgreed};

use clash_record::{Name, Registration, SideId};
use cluster::Cluster;
use exchange_core::SideFault;
use partition_table::Agreement;
use std::alloc::Global;
use upload_store::UploadStore;

// The agreement of each half's table with the store.
#[derive(Debug, Drop)]
pub(crate) struct Agreements {
    pub a: Agreement,
    pub b: Agreement,
}

impl Agreements {
    // Returns agreements in which no program is known yet. Allocates nothing.
    pub fn new(alloc: Global, cluster: &Cluster, store: &UploadStore) -> Agreements
        ensures { AreAgreed (cluster_of cluster.now) store.now result }
    {
        Agreements {
            a: Agreement::new(alloc, cluster.side(SideId::A).table(), store),
            b: Agreement::new(alloc, cluster.side(SideId::B).table(), store),
        }
    }

    // Forgets the programs, and begins anew with this cluster and this store. Allocates nothing.
    pub fn restart(&mut self, cluster: &Cluster, store: &UploadStore)
        ensures { AreAgreed (cluster_of cluster.now) store.now self.new }
    {
        self.a.restart(cluster.side(SideId::A).table(), store);
        self.b.restart(cluster.side(SideId::B).table(), store);
    }

    // Registers the name on a half of the cluster like `Cluster::register`, and compares no code of a known program.
    pub fn register(
        &mut self,
        cluster: &mut Cluster,
        id: SideId,
        name: Name,
        registration: Registration,
        store: &UploadStore,
    ) -> Result<(), SideFault>
        requires { AreAgreed (cluster_of cluster.old) store.now self.old }
        ensures answer { let standing = at (cluster_of cluster.old) id in
            IsAnswered side_fault_number (due.register_fault standing.limit (is_full_at standing) standing.side name registration store.now) result }
        ensures done { OnOk result (IsCalled (cluster_of cluster.old) id
            (call.Register name (row_for store.now registration))
            (cluster_of cluster.new)) }
        ensures untouched { OnErr result (cluster_of cluster.new ≡ cluster_of cluster.old) }
        ensures agreed { AreAgreed (cluster_of cluster.new) store.now self.new }
    {
        match id {
            SideId::A => cluster.register_agreed(id, name, registration, store, &mut self.a),
            SideId::B => cluster.register_agreed(id, name, registration, store, &mut self.b),
        }
    }

    // Unregisters the name from a half of the cluster like `Cluster::unregister`, and keeps what is known.
    pub fn unregister(
        &mut self,
        cluster: &mut Cluster,
        id: SideId,
        name: &Name,
        store: &UploadStore,
    ) -> Result<Registration, SideFault>
        requires { AreAgreed (cluster_of cluster.old) store.now self.old }
        ensures answer { let standing = at (cluster_of cluster.old) id in
            IsDecidedBy (due.unregister_fault (is_full_at standing) standing.side name.now) result }
        ensures done { OnOk result (IsCalled (cluster_of cluster.old) id
            (call.Unregister name.now) (cluster_of cluster.new)) }
        ensures untouched { OnErr result (cluster_of cluster.new ≡ cluster_of cluster.old) }
        ensures agreed { AreAgreed (cluster_of cluster.new) store.now self.new }
    {
        let registration = cluster.unregister(id, name)?;
        match id {
            SideId::A => self.a.follow_removal(name, cluster.side(id).table()),
            SideId::B => self.b.follow_removal(name, cluster.side(id).table()),
        }
        Ok(registration)
    }
}
