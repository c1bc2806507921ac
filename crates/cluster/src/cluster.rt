//! The two halves of a cluster.
ghost use Rattle.std.specs.Prelude.{◌≡◌};
ghost use Rattle.exchange_core.specs.Shown.{shown};
ghost use Rattle.clash_record.specs.declared.side_id.SideId.TheVariants.{A, B};

use crate::halves::Halves;
use clash_record::{Name, Registration, SideId};
use exchange_core::{Side, SideFault};
use partition_table::{Agreement, NameLimit};
use std::alloc::Global;
use upload_store::UploadStore;

/// The two halves of a cluster, as sides A and B of their exchange.
#[derive(Debug, Drop)]
pub struct Cluster {
    pub(crate) halves: Halves,
    pub ghost first: { (shown halves.a).id ≡ A },
    pub ghost second: { (shown halves.b).id ≡ B },
}

impl Cluster {
    ghost use Rattle.std.specs.Prelude.{OnOk, OnErr, IfOk, IfSome, Some, Err};
    ghost use Rattle.std.specs.Option.{option_map};
    ghost use Rattle.std.specs.FinMap.{get};
    ghost use Rattle.partition_table.specs.Tables.{max_names, row_for};
    ghost use Rattle.exchange_law.specs.Calls as call;
    ghost use Rattle.refusals.specs.Answers.{IsAnswered, IsDecidedBy};
    ghost use Rattle.exchange_core.specs.Faults.{side_fault_number};
    ghost use Rattle.exchange_core.specs.Refusals as due;
    ghost use Rattle.cluster.specs.Clusters.{standing_of, cluster_of, new_cluster, at, is_full_at, IsCalled};

    /// Returns two idle halves without names, each of which may have 4,096. Allocates nothing.
    pub fn new(alloc: Global) -> Cluster
        ensures { cluster_of result ≡ new_cluster max_names }
    {
        Cluster::with_limit(alloc, NameLimit::default())
    }

    /// Returns two idle halves without names, each of which may have as many as `limit`. Allocates nothing.
    pub fn with_limit(alloc: Global, limit: NameLimit) -> Cluster
        ensures { cluster_of result ≡ new_cluster limit.names }
    {
        let halves = Halves {
            a: Side::with_limit(alloc, SideId::A, limit),
            b: Side::with_limit(alloc, SideId::B, limit),
        };
        Cluster { halves }
    }

    /// Returns one of the halves.
    pub fn side(&self, id: SideId) -> &Side
        ensures { standing_of result.now ≡ at (cluster_of self.entry.now) id }
    {
        match id {
            SideId::A => &self.halves.a,
            SideId::B => &self.halves.b,
        }
    }

    /// Registers the name on an idle half, and keeps the store's program that the registration names.
    ///
    /// Rejects with the least number that applies: 30 for a registered name, 32 for a full table, 33 for an open
    /// exchange, 40 for a full journal, 41 for an unknown program, and 42 for other code under the program's id.
    /// Returns 90 when out of memory.
    pub fn register(
        &mut self,
        id: SideId,
        name: Name,
        registration: Registration,
        store: &UploadStore,
    ) -> Result<(), SideFault>
        ensures answer { let standing = at (cluster_of self.old) id in
            IsAnswered side_fault_number (due.register_fault standing.limit (is_full_at standing) standing.side name registration store.now) result }
        // Each refusal comes also when out of memory.
        ensures refused { let standing = at (cluster_of self.old) id in
            IfSome (due.register_fault standing.limit (is_full_at standing) standing.side name registration store.now) (λ fault. result ≡ Err fault) }
        ensures done { OnOk result (IsCalled (cluster_of self.old) id
            (call.Register name (row_for store.now registration))
            (cluster_of self.new)) }
        ensures untouched { OnErr result (cluster_of self.new ≡ cluster_of self.old) }
    {
        match id {
            SideId::A => self.halves.a.register(name, registration, store),
            SideId::B => self.halves.b.register(name, registration, store),
        }
    }

    /// Registers the name like `register`, on a half whose table has this agreement with the store: compares no code of a
    /// program that the agreement knows.
    pub fn register_agreed(
        &mut self,
        id: SideId,
        name: Name,
        registration: Registration,
        store: &UploadStore,
        agreement: &mut Agreement,
    ) -> Result<(), SideFault>
        requires { agreement.old ≡ record { table = (at (cluster_of self.old) id).side.table; store = store.now } }
        ensures answer { let standing = at (cluster_of self.old) id in
            IsAnswered side_fault_number (due.register_fault standing.limit (is_full_at standing) standing.side name registration store.now) result }
        // Each refusal comes also when out of memory.
        ensures refused { let standing = at (cluster_of self.old) id in
            IfSome (due.register_fault standing.limit (is_full_at standing) standing.side name registration store.now) (λ fault. result ≡ Err fault) }
        ensures done { OnOk result (IsCalled (cluster_of self.old) id
            (call.Register name (row_for store.now registration))
            (cluster_of self.new)) }
        ensures untouched { OnErr result (cluster_of self.new ≡ cluster_of self.old) }
        ensures agreed { agreement.new ≡ record { table = (at (cluster_of self.new) id).side.table; store = store.now } }
    {
        match id {
            SideId::A => self
                .halves
                .a
                .register_agreed(name, registration, store, agreement),
            SideId::B => self
                .halves
                .b
                .register_agreed(name, registration, store, agreement),
        }
    }

    /// Unregisters the name on an idle half, and returns its registration.
    ///
    /// Rejects with the least number that applies: 31 for a name that isn't registered, 33 for an open exchange, and 40
    /// for a full journal. Needs no memory.
    pub fn unregister(&mut self, id: SideId, name: &Name) -> Result<Registration, SideFault>
        ensures answer { let standing = at (cluster_of self.old) id in
            IsDecidedBy (due.unregister_fault (is_full_at standing) standing.side name.now) result }
        ensures given { IfOk result (λ registration. option_map (λ row. row.registration)
            (get (at (cluster_of self.old) id).side.table name.now) ≡ Some registration) }
        ensures done { OnOk result (IsCalled (cluster_of self.old) id
            (call.Unregister name.now) (cluster_of self.new)) }
        ensures untouched { OnErr result (cluster_of self.new ≡ cluster_of self.old) }
    {
        match id {
            SideId::A => self.halves.a.unregister(name),
            SideId::B => self.halves.b.unregister(name),
        }
    }
}
