//! The merge of two tables.
ghost use Rattle.std.specs.Prelude.{◌≡◌, ◌<◌, ℕ, ◌||◌, ◌&&◌, IsTrue, Option, Some, None, IfOk, OnOk, IfSome, length, []};
ghost use Rattle.std.specs.Option.{option_map};
ghost use Rattle.std.specs.Arc.{arc_value};
ghost use Rattle.std.specs.FinMap as map;
ghost use Rattle.std.specs.BTreeSet.{contains};
ghost use Rattle.clash_record.specs.Orders.{name_cmp};
ghost use Rattle.clash_record.specs.Name.{Name};
ghost use Rattle.partition_table.specs.Compared.{IsCompared, merged_by};
ghost use Rattle.partition_table.specs.Tables.{IsTable, Row, max_names, most_names, tables_agree, fit_together, clash_names, is_in};
ghost use Rattle.partition_table.specs.Tables.{clashes, unless_gone, with_row, merge, names_without};
ghost use Rattle.refusals.specs.Answers.{IsAnswered};
ghost use Rattle.partition_table.specs.Faults.{fit_fault, table_fault_number};
ghost use Rattle.partition_table.specs.model.Merging.{IsRowOf, IsReady, holds_as};
ghost use Rattle.partition_table.specs.model.Merging.{settled, put_all, each_kept};

use crate::builder::TableBuilder;
use crate::clash::ClashList;
use crate::clashing::{Compared, HalfTable, compare_within};
use crate::fault::TableFault;
use crate::laws::{clashes_theorem, merge_theorem};
use crate::limit::NameLimit;
use crate::order::order;
use crate::paired::Paired;
use crate::shared_registration::SharedRegistration;
use crate::table::Table;
use crate::upcoming::Upcoming;
use builtin_resolvers::Verdict3;
use clash_record::{Name, Registration, ResolverId};
use std::alloc::{AllocError, Global};
use std::collections::BTreeSet;
use std::sync::Arc;
use verifier::Verified;

/// A table to merge, and the names that its side withdrew, in any order and with repetitions.
#[derive(Clone, Copy, Debug)]
pub struct ParentTable<'a> {
    pub table: &'a Table,
    pub gone: &'a [Name],
}

/// Two tables compared, with one answer for each clash, in the order of names.
#[derive(Clone, Copy, Debug)]
pub struct AnsweredClashes<'a> {
    pub compared: &'a Compared,
    pub answers: &'a [Verdict3],
}

/// The merge of two tables.
#[derive(Debug, Drop)]
pub enum MergedTable {
    /// Table A is the merge.
    A,
    /// Table B is the merge.
    B,
    /// A new table is the merge.
    New(Table),
}

/// Merges two tables by one answer for each clash, in the order of names. Requires as many answers as clashes.
///
/// Keeps each name of one table alone, equal registrations once, and the winner of each clash, if any. Then drops each
/// name whose kept registration was withdrawn by a side that holds it: `gone_a` and `gone_b` are the names that each
/// side withdrew, in any order and with repetitions; a name that a side doesn't hold has no effect.
///
/// Refusals, the least first: 37 if the tables have more than 4,096 names together, 42 if they have two codes under one
/// id. Returns 90 when out of memory: it allocates the clashes, the withdrawn names, the rows and one more owner of each
/// registration and program. Compares the tables, and then merges them like `merge_compared`.
pub fn merge(
    alloc: Global,
    a: &Table,
    b: &Table,
    answers: &[Verdict3],
    gone_a: &[Name],
    gone_b: &[Name],
) -> Result<Table, TableFault>
    requires { length answers.now ≡ length (clash_names a.now b.now) }
    ensures answer { IsAnswered table_fault_number (fit_fault max_names a.now b.now) result }
    ensures merged { IfOk result (λ table. table ≡ merge a.now b.now answers.now
        record { of_a = gone_a.now; of_b = gone_b.now }) }
{
    let half_a = HalfTable {
        table: a,
        uptime: 0,
    };
    let half_b = HalfTable {
        table: b,
        uptime: 0,
    };
    let compared = compare_within(alloc, NameLimit::default(), half_a, half_b)?;
    let parent_a = ParentTable {
        table: a,
        gone: gone_a,
    };
    let parent_b = ParentTable {
        table: b,
        gone: gone_b,
    };
    let answered = AnsweredClashes {
        compared: &compared,
        answers,
    };
    let merge = merge_compared(alloc, parent_a, parent_b, answered)?;
    Ok(merge.into_table(a, b)?)
}

/// Merges two tables, which were compared, as `merge` does. Requires that they fit together.
///
/// If no name clashes and none was withdrawn, a table that has all names is the merge, and nothing is allocated. Otherwise walks A's table
/// and the clashes once, and both tables once more if B has a name alone. Returns an error only when out of memory.
pub fn merge_compared(
    alloc: Global,
    a: ParentTable<'_>,
    b: ParentTable<'_>,
    answered: AnsweredClashes<'_>,
) -> Result<MergedTable, AllocError>
    requires fit { IsTrue (fit_together a.table.now b.table.now) }
    requires compared { (uptime_a : ℕ) × (uptime_b : ℕ)
        × IsCompared a.table.now uptime_a b.table.now uptime_b answered.compared.now }
    ensures { IfOk result (λ found. merged_by a.entry.table.now b.entry.table.now found
        ≡ merge a.entry.table.now b.entry.table.now answered.entry.answers.now
        record { of_a = a.entry.gone.now; of_b = b.entry.gone.now }) }
{
    // For the proof: the merge is defined name by name, in either order.
    a.table.rows();
    b.table.rows();
    clashes_theorem();
    merge_theorem();
    let AnsweredClashes { compared, answers } = answered;
    if compared.clashes.is_empty() && a.gone.is_empty() && b.gone.is_empty() {
        if compared.alone_b == 0 {
            return Ok(MergedTable::A);
        }
        if compared.alone_a == 0 {
            return Ok(MergedTable::B);
        }
    }
    let parents = Parents {
        a: a.table,
        b: b.table,
        gone_a: set_of(alloc, a.gone)?,
        gone_b: set_of(alloc, b.gone)?,
    };
    let mut merged = TableBuilder::with_capacity(alloc, a.table.len().max(b.table.len()))?;
    parents.put_names_of_a(&mut merged, &compared.clashes, answers)?;
    parents.put_names_of_b_alone(&mut merged, compared.alone_b)?;
    let table = merged.finish(alloc)?;
    Ok(MergedTable::New(table))
}

impl MergedTable {
    // Returns the table that the merge is. Copies it if it is one of the two.
    fn into_table(self, a: &Table, b: &Table) -> Result<Table, AllocError>
        ensures { IfOk result (λ table. table ≡ merged_by a.now b.now self) }
    {
        match self {
            MergedTable::A => a.try_clone(),
            MergedTable::B => b.try_clone(),
            MergedTable::New(table) => Ok(table),
        }
    }
}

// The two tables to merge, and the set of the names that each side withdrew.
#[derive(Drop)]
struct Parents<'a> {
    a: &'a Table,
    b: &'a Table,
    gone_a: BTreeSet<Name>,
    gone_b: BTreeSet<Name>,
}

impl<'a> Parents<'a> {
    // Puts what is kept under the names of `a`, by the clashes of the two.
    fn put_names_of_a(
        &self,
        merged: &mut TableBuilder,
        list: &'a ClashList,
        answers: &'a [Verdict3],
    ) -> Result<(), AllocError>
        requires agree { IsTrue (tables_agree self.now.a.now self.now.b.now) }
        requires tables { IsTable self.now.a.now × IsTable self.now.b.now }
        requires listed { (uptime_a : ℕ) × (uptime_b : ℕ)
            × (list.now ≡ clashes self.now.a.now uptime_a self.now.b.now uptime_b) }
        requires new { merged.old ≡ map.empty }
        ensures put { OnOk result (merged.new ≡ put_all (settled self.now.a.now self.now.b.now
            (contains name_cmp self.now.gone_a) (contains name_cmp self.now.gone_b)
            (map.keys self.now.a.now) answers.now) map.empty) }
        ensures few { OnOk result (IsReady self.now.a.now self.now.b.now [] (map.len self.now.a.now) merged.new) }
    {
        let mut upcoming = Upcoming::new(list.clashes(), answers);
        for (name, mine) in self.a.stored_rows() {
            let kept = upcoming.settle(name, mine);
            self.put(merged, name, kept)?;
        }
        Ok(())
    }

    // Puts what is kept under the names that `b` has alone, of which there are this many.
    fn put_names_of_b_alone(
        &self,
        merged: &mut TableBuilder,
        alone: usize,
    ) -> Result<(), AllocError>
        requires counted { alone ≡ length (names_without self.now.a.now (map.keys self.now.b.now)) }
        requires agree { IsTrue (tables_agree self.now.a.now self.now.b.now) }
        requires ready { IsReady self.now.a.now self.now.b.now
            (names_without self.now.a.now (map.keys self.now.b.now)) most_names merged.old }
        ensures { OnOk result (merged.new ≡ put_all (each_kept (λ name. unless_gone None (map.get self.now.b.now name)
            (contains name_cmp self.now.gone_a name) (contains name_cmp self.now.gone_b name)
            (map.get self.now.b.now name))
            (names_without self.now.a.now (map.keys self.now.b.now))) merged.old) }
    {
        if alone == 0 {
            return Ok(());
        }
        for (name, theirs, mine) in Paired::new(self.b, self.a) {
            if mine.is_some() {
                continue;
            }
            self.put(merged, name, Some(theirs))?;
        }
        Ok(())
    }

    // Puts the row that one of the two has with the registration that is kept, unless it was withdrawn.
    fn put(
        &self,
        merged: &mut TableBuilder,
        name: &Name,
        kept: Option<&SharedRegistration>,
    ) -> Result<(), AllocError>
        requires agree { IsTrue (tables_agree self.now.a.now self.now.b.now) }
        requires tables { IsTable self.now.a.now × IsTable self.now.b.now }
        requires held { IfSome kept (λ kept. (row : Row) × IsRowOf self.now.a.now self.now.b.now name.now row
            × (row.registration ≡ kept.now)) }
        requires new { map.get merged.old name.now ≡ None }
        requires room { map.len merged.old < most_names }
        requires part { (name : Name) (row : Row) → map.get merged.old name ≡ Some row
            → IsRowOf self.now.a.now self.now.b.now name row }
        ensures { OnOk result ((row : Option Row) → option_map (λ row. row.registration) row
            ≡ option_map (λ kept. kept.now) kept.entry
            → IfSome row (λ row. IsRowOf self.now.a.now self.now.b.now name.now row)
            → merged.new ≡ with_row name.now (unless_gone (map.get self.now.a.now name.now)
            (map.get self.now.b.now name.now) (contains name_cmp self.now.gone_a name.now)
            (contains name_cmp self.now.gone_b name.now) row) merged.old) }
    {
        let Some(kept) = kept else {
            return Ok(());
        };
        if self.is_withdrawn(name, kept) {
            return Ok(());
        }
        let program = self.program_for(&kept.resolver);
        merged.push_shared(name, kept.clone()?, program)
    }

    // Checks whether a side that holds the registration under the name withdrew it.
    fn is_withdrawn(&self, name: &Name, kept: &Registration) -> bool
        ensures { result ≡ ((contains name_cmp self.now.gone_a name.now
            && holds_as (map.get self.now.a.now name.now) kept.now)
            || (contains name_cmp self.now.gone_b name.now && holds_as (map.get self.now.b.now name.now) kept.now)) }
    {
        (self.gone_a.contains(name) && holds(self.a, name, kept))
            || (self.gone_b.contains(name) && holds(self.b, name, kept))
    }

    // The program that the resolver names, if one of the two keeps it. Most rows name none.
    #[inline]
    fn program_for(&self, resolver: &ResolverId) -> Option<&'a Arc<Verified>>
        requires agree { IsTrue (tables_agree self.now.a.now self.now.b.now) }
        requires tables { IsTable self.now.a.now × IsTable self.now.b.now }
        ensures { (name : Name) (row : Row) → IsRowOf self.now.a.now self.now.b.now name row
            → row.registration.resolver ≡ resolver.now → option_map (λ p. arc_value p.now) result ≡ row.code }
    {
        match resolver {
            ResolverId::Builtin(_) => None,
            ResolverId::Program(_) => self.kept_program(*resolver),
        }
    }

    // The program that the resolver names, if one of the two keeps it.
    fn kept_program(&self, resolver: ResolverId) -> Option<&'a Arc<Verified>>
        requires agree { IsTrue (tables_agree self.now.a.now self.now.b.now) }
        requires tables { IsTable self.now.a.now × IsTable self.now.b.now }
        ensures { (name : Name) (row : Row) → IsRowOf self.now.a.now self.now.b.now name row
            → row.registration.resolver ≡ resolver → option_map (λ p. arc_value p.now) result ≡ row.code }
    {
        match self.a.program_for(resolver) {
            Some(program) => Some(program),
            None => self.b.program_for(resolver),
        }
    }
}

// Checks whether the table has the name with this registration.
fn holds(table: &Table, name: &Name, registration: &Registration) -> bool
    ensures { result ≡ holds_as (map.get table.now name.now) registration.now }
{
    match table.whereis(name) {
        Some(held) => order(held, registration).is_eq(),
        None => false,
    }
}

// The set of these names.
fn set_of(alloc: Global, names: &[Name]) -> Result<BTreeSet<Name>, AllocError>
    ensures { IfOk result (λ set. (name : Name) → contains name_cmp set name ≡ is_in name names.now) }
{
    names.iter().copied().collect(alloc)
}
