//! Replicas and their calls.
ghost use Rattle.std.specs.Prelude.{◌≡◌, ◌<◌, ◌≤◌, ◌+◌, if◌then◌else◌, nat_le, Some, None, Err, false, IfOk, IfSome, OnOk, OnErr, length};
ghost use Rattle.std.specs.FinMap.{len};
ghost use Rattle.refusals.specs.Answers.{IsAnswered, IsDecidedBy};
ghost use Rattle.exchange_core.specs.Shown.{shown, calls, limit_of};
ghost use Rattle.partition_table.specs.declared.fault.TableFault.TheVariants.{Full};
ghost use Rattle.replica.specs.declared.fault.ReplicaFault.TheVariants as of;
ghost use Rattle.replica.specs.declared.replica.Applied.TheVariants.{Already, Now};
ghost use Rattle.replica.specs.Faults.{replica_fault_number};
ghost use Rattle.replica.specs.Replicas as spec;
ghost use Rattle.replica.specs.Replicas.{new_replica, moved, own_view, entry_made, snapshot_of, lead_fault, change_fault, make_fault, early_make_fault, follow_fault, apply_fault, early_answer, is_repeated, left_by, Lead, Change, Make, Follow, Apply};
ghost use Rattle.replica_law.specs.Groups.{next, same_position};
ghost use Rattle.replica.specs.Halves.{edit_fault, edited};
ghost use Rattle.replica.specs.Messages.{entry_seen};

use crate::edit::Edit;
use crate::fault::ReplicaFault;
use crate::half::{Half, edit_shared};
use crate::messages::{Entry, Snapshot};
use exchange_core::{Side, SideId};
use partition_table::Table;
use replica_law::{Life, Position, View};
use std::alloc::{AllocError, Global};
use std::marker::Model;
use std::sync::Arc;

/// The effect of an entry that a replica accepts.
#[derive(Clone, Copy, Debug, PartialEq, Eq)]
pub enum Applied {
    /// It is the next of the view: its edit is carried out.
    Now,
    /// The replica has it already: nothing changes.
    Already,
}

/// A node's copy of a half, at a position. It is the primary while it is in the latest view that it started.
#[derive(Debug)]
pub struct Replica {
    life: Life,
    half: Arc<Half>,
    at: Position,
    led: u64,
}

// Written out, so that a drop is one call in the proofs of callers.
impl Drop for Replica {
    fn drop(self) {
        let Replica {
            life: _,
            half: _,
            at: _,
            led: _,
        } = self;
    }
}

impl Model for Replica {
    ghost use Rattle.std.specs.Arc.{arc_value};
    ghost use Rattle.replica.specs.Replicas.{Replica};
    ghost use Rattle.replica.specs.Codings.{coded_replica};

    ghost Value = { Replica };

    ghost coded = { coded_replica };

    ghost view = { λ r. record { life = r.life; half = arc_value r.half; at = r.at; led = r.led } };
}

impl Replica {
    /// Starts a life of a node: a replica with an empty half, at the start of its first view.
    ///
    /// A node that restarts stores an incarnation that it never had, and then starts with it. Allocates the half.
    pub fn start(alloc: Global, life: Life) -> Result<Replica, AllocError>
        ensures { IfOk result (λ replica. replica ≡ new_replica life) }
    {
        let view = View {
            primary: life,
            number: 1,
        };
        match Arc::new(alloc, Half::new(alloc)) {
            Ok(half) => Ok(Replica {
                life,
                half,
                at: Position { view, op: 0 },
                led: 1,
            }),
            Err(_) => Err(AllocError),
        }
    }

    /// Returns the life. Allocates nothing.
    pub fn life(&self) -> Life
        ensures { result ≡ self.now.life }
    {
        self.life
    }

    /// Returns the position. Allocates nothing.
    pub fn position(&self) -> Position
        ensures { result ≡ self.now.at }
    {
        self.at
    }

    /// Returns the half. Allocates nothing.
    pub fn half(&self) -> &Half
        ensures { result.now ≡ self.now.half }
    {
        &self.half
    }

    /// Returns the latest view that the replica started. Allocates nothing.
    pub fn own_view(&self) -> View
        ensures { result ≡ own_view self.now }
    {
        View {
            primary: self.life,
            number: self.led,
        }
    }

    /// Checks whether it may make entries: whether it is in the latest view that it started. Allocates nothing.
    pub fn is_primary(&self) -> bool
        ensures { result ≡ spec.is_primary self.now }
    {
        self.at.view == self.own_view()
    }

    /// Starts a view with the half as it is, and returns the view. Any replica may do so at any time.
    ///
    /// Returns 99 if no view number is left. Allocates nothing.
    pub fn lead(&mut self) -> Result<View, ReplicaFault>
        ensures answer { IsDecidedBy (lead_fault self.old) result }
        ensures view { IfOk result (λ view. view ≡ own_view self.new) }
        ensures done { OnOk result (self.new ≡ left_by self.old Lead) }
        ensures unchanged { OnErr result (self.new ≡ self.old) }
    {
        if self.led == u64::MAX {
            return Err(ReplicaFault::Exhausted);
        }
        self.led += 1;
        let view = self.own_view();
        self.at = Position { view, op: 0 };
        Ok(view)
    }

    /// Starts a view with the table that an exchange left, and returns the view. The half's greatest number stays if it is
    /// above that of the exchange.
    ///
    /// `from` is the position of the edit `Begin` that recorded the exchange's number. Returns 49 if the replica isn't there any more,
    /// so that no edit made since is lost, and 99 if no view number is left: the first of these. Returns 90 when out of
    /// memory: it copies the store and, unless its rows are shared already, the table.
    pub fn change(
        &mut self,
        alloc: Global,
        from: Position,
        table: &Table,
        latest: Option<u64>,
    ) -> Result<View, ReplicaFault>
        ensures answer { IsAnswered replica_fault_number (change_fault self.old from) result }
        // 49 and 99 come also when out of memory.
        ensures early { IfSome (change_fault self.old from) (λ fault. result ≡ Err fault) }
        ensures view { IfOk result (λ view. view ≡ own_view self.new) }
        ensures done { OnOk result (self.new ≡ left_by self.old (Change from table.now latest)) }
        ensures unchanged { OnErr result (self.new ≡ self.old) }
    {
        if self.at != from {
            return Err(ReplicaFault::Moved);
        }
        if self.led == u64::MAX {
            return Err(ReplicaFault::Exhausted);
        }
        let half = self.half.changed(table, latest)?;
        let Ok(half) = Arc::new(alloc, half) else {
            return Err(ReplicaFault::OutOfMemory);
        };
        let view = self.lead()?;
        self.half = half;
        Ok(view)
    }

    // Carries the edit out on the half, and steps to the next position.
    fn step(&mut self, edit: &Edit) -> Result<Position, ReplicaFault>
        requires { self.old.at.op < u64.MAX }
        ensures answer { IsAnswered replica_fault_number (edit_fault self.old.half edit.now) result }
        ensures position { IfOk result (λ at. at ≡ next self.old.at) }
        ensures done { OnOk result (self.new ≡ moved self.old (next self.old.at) (edited self.old.half edit.now)) }
        ensures unchanged { OnErr result (self.new ≡ self.old) }
    {
        edit_shared(&mut self.half, edit)?;
        self.at.op += 1;
        Ok(self.at)
    }

    // Carries an edit out as the primary, and returns the position of its entry.
    fn make(&mut self, edit: &Edit) -> Result<Position, ReplicaFault>
        ensures answer { IsAnswered replica_fault_number (make_fault self.old edit.now) result }
        ensures early { IfSome (early_make_fault self.old) (λ fault. result ≡ Err fault) }
        ensures position { IfOk result (λ at. at ≡ next self.old.at) }
        ensures done { OnOk result (self.new ≡ left_by self.old (Make edit.now)) }
        ensures unchanged { OnErr result (self.new ≡ self.old) }
    {
        if let Some(fault) = self.edit_refusal() {
            return Err(fault);
        }
        self.step(edit)
    }

    /// Returns the refusal that is due to any edit, whatever the half holds: 95 or 99. Allocates nothing.
    pub fn edit_refusal(&self) -> Option<ReplicaFault>
        ensures { result ≡ early_make_fault self.now }
    {
        if !self.is_primary() {
            return Some(ReplicaFault::NotPrimary);
        }
        if self.at.op == u64::MAX {
            return Some(ReplicaFault::Exhausted);
        }
        None
    }

    /// Carries an edit out as the primary, and returns the entry to send to the backups.
    ///
    /// Returns the first of these: 95 if the replica isn't the primary, 99 if no operation number is left, and what the
    /// half refuses: 30 for a registered name, 32 for a full table and for a limit below the number of names, 41 for a
    /// program that the store lacks, 42 for other code under the program's id, 31 for a name that isn't registered, 43 for a
    /// full store, 35 for a number of an exchange that isn't above every earlier one. Returns 90 when out of memory: it
    /// copies the half if a snapshot shares it.
    pub fn edit(&mut self, edit: Edit) -> Result<Entry, ReplicaFault>
        ensures answer { IsAnswered replica_fault_number (make_fault self.old edit) result }
        // 95 and 99 come also when out of memory.
        ensures early { IfSome (early_make_fault self.old) (λ fault. result ≡ Err fault) }
        ensures entry { IfOk result (λ entry. entry_seen entry ≡ entry_made self.old edit) }
        ensures done { OnOk result (self.new ≡ left_by self.old (Make edit)) }
        ensures unchanged { OnErr result (self.new ≡ self.old) }
    {
        match self.make(&edit) {
            Ok(at) => Ok(Entry { at, edit }),
            Err(fault) => Err(fault),
        }
    }

    /// Returns a snapshot, which shares the half. Copies nothing; returns an error if the half can't have one more owner.
    pub fn snapshot(&self) -> Result<Snapshot, AllocError>
        ensures { IfOk result (λ snapshot. snapshot ≡ snapshot_of self.now) }
    {
        Ok(Snapshot {
            at: self.at,
            half: self.half.clone()?,
        })
    }

    /// Takes the position and the half of a snapshot.
    ///
    /// Returns 98 for a snapshot of the latest view that the replica started. Returns 90 if the half can't have one more
    /// owner.
    pub fn follow(&mut self, snapshot: &Snapshot) -> Result<(), ReplicaFault>
        ensures answer { IsAnswered replica_fault_number (follow_fault self.old snapshot.now) result }
        ensures own_view { IfSome (follow_fault self.old snapshot.now) (λ fault. result ≡ Err fault) }
        ensures done { OnOk result (self.new ≡ left_by self.old (Follow snapshot.now)) }
        ensures unchanged { OnErr result (self.new ≡ self.old) }
    {
        if snapshot.at.view == self.own_view() {
            return Err(ReplicaFault::OwnView);
        }
        self.half = snapshot.half.clone()?;
        self.at = snapshot.at;
        Ok(())
    }

    /// Applies an entry of the view: carries its edit out if it is the next, and changes nothing if the replica has it.
    ///
    /// Returns 96 for an entry of another view, and 97 if an earlier entry is missing. What the half refuses is returned as
    /// by `edit`; an entry that a primary made is never refused. Returns 90 when out of memory: it copies the half if a
    /// snapshot shares it.
    pub fn apply(&mut self, entry: &Entry) -> Result<Applied, ReplicaFault>
        ensures answer { IsAnswered replica_fault_number (apply_fault self.old (entry_seen entry.now)) result }
        // 96, 97 and `Already` come also when out of memory.
        ensures early { IfSome (early_answer self.old (entry_seen entry.now)) (λ answer. result ≡ answer) }
        ensures how { IfOk result (λ applied. applied ≡ (if is_repeated self.old (entry_seen entry.now) then Already else Now)) }
        ensures done { OnOk result (self.new ≡ left_by self.old (Apply (entry_seen entry.now))) }
        ensures unchanged { OnErr result (self.new ≡ self.old) }
    {
        if entry.at.view != self.at.view {
            return Err(ReplicaFault::OtherView);
        }
        if entry.at.op <= self.at.op {
            return Ok(Applied::Already);
        }
        if entry.at.op - self.at.op != 1 {
            return Err(ReplicaFault::Gap);
        }
        self.step(&entry.edit)?;
        Ok(Applied::Now)
    }

    /// Returns an idle side with the half's table, its limit and its greatest number, for an exchange with the other half.
    ///
    /// Edit `Begin` with the number of the exchange before the side begins it, so that the backups have the number.
    /// `change` takes what the exchange leaves, and the position that the replica has after that edit. Copies the
    /// table, unless its rows are shared already.
    ///
    /// Returns 32 if the table has more names than the limit. Returns 90 when out of memory.
    pub fn side(&self, alloc: Global, id: SideId) -> Result<Side, ReplicaFault>
        ensures answer { IsAnswered replica_fault_number
            (if nat_le (len self.now.half.table) self.now.half.limit then None else Some (of.Table Full)) result }
        // 32 comes also when out of memory.
        ensures full { nat_le (len self.now.half.table) self.now.half.limit ≡ false → result ≡ Err (of.Table Full) }
        ensures state { IfOk result (λ side. shown side ≡ record {
          id = id;
          table = self.now.half.table;
          exchange = None;
          latest = self.now.half.latest;
        }) }
        ensures limit { IfOk result (λ side. limit_of side ≡ self.now.half.limit) }
        ensures short { IfOk result (λ side. length (calls side) ≤ len self.now.half.table + 2) }
    {
        self.half.side(alloc, id)
    }
}
