//! The clashes of two tables.
ghost use Rattle.std.specs.Prelude.{◌≡◌, ◌≤◌, ◌++◌, ◌∷◌, [], List, Some, All, IfOk, OnOk, length, map};
ghost use Rattle.std.specs.Arc.{arc_value};
ghost use Rattle.std.specs.List.{filter_map};
ghost use Rattle.std.specs.Option.{option_map};
ghost use Rattle.std.specs.FinMap.{get, keys};
ghost use Rattle.refusals.specs.Answers.{IsAnswered};
ghost use Rattle.clash_record.specs.Name.{Name};
ghost use Rattle.partition_table.specs.Compared.{IsCompared};
ghost use Rattle.partition_table.specs.Faults.{fit_fault, table_fault_number};
ghost use Rattle.partition_table.specs.Tables.{IsTable, facts_of, clashes, clash_names, has_first, most_names, names_without};
ghost use Rattle.partition_table.specs.model.Coding.{IsCoded};
ghost use Rattle.partition_table.specs.model.Judging.{clash_by_name};

use crate::both::BothPrograms;
use crate::clash::{Clash, ClashList, HalfFacts, Rivals, one_more_owner};
use crate::fault::TableFault;
use crate::fitting::fit_within;
use crate::limit::NameLimit;
use crate::order::order;
use crate::paired::Paired;
use crate::shared_registration::SharedRegistration;
use crate::table::Table;
use clash_record::{Facts, Name};
use std::alloc::{AllocError, Global};
use std::cmp::Ordering;
use std::sync::Arc;

// The maximum number of clashes for which a walk has room at its start.
const FIRST_ROOM: usize = 4096;

/// The table of a half, and how long the half has been up.
#[derive(Clone, Copy, Debug)]
pub struct HalfTable<'a> {
    pub table: &'a Table,
    pub uptime: u64,
}

// Two halves: their tables, and the facts that all clashes share.
#[derive(Drop)]
struct Halves<'a> {
    a: &'a Table,
    b: &'a Table,
    facts: Arc<HalfFacts>,
}

// Returns the facts of a half.
fn facts_of(table: &Table, uptime: u64) -> Facts
    ensures { result ≡ facts_of table.now uptime }
{
    Facts {
        size: table.len() as u64,
        uptime,
    }
}

// Returns the facts of both halves, for all clashes to share.
fn share_facts(alloc: Global, a: Facts, b: Facts) -> Result<Arc<HalfFacts>, AllocError>
    ensures { IfOk result (λ facts. arc_value facts ≡ record { a = a; b = b }) }
{
    Ok(Arc::new(alloc, HalfFacts { a, b })?)
}

/// The result of a comparison of two tables.
#[derive(Debug, Drop)]
pub struct Compared {
    /// The clashes, in the order of names.
    pub clashes: Arc<ClashList>,
    /// For each clash, whether table A has its first registration.
    pub first_of_a: Vec<bool>,
    /// The number of names that table A has alone.
    pub alone_a: usize,
    /// The number of names that table B has alone.
    pub alone_b: usize,
}

/// Returns the clashes of two tables, in the order of names, with the uptime of each half.
///
/// Walks both tables once. Allocates the list and copies of both maps of programs, and adds an owner to both registrations of
/// each clash and to the program that judges it.
pub fn clashes(
    alloc: Global,
    a: &Table,
    uptime_a: u64,
    b: &Table,
    uptime_b: u64,
) -> Result<ClashList, AllocError>
    ensures clashes { IfOk result (λ list. list ≡ clashes a.now uptime_a b.now uptime_b) }
    // One for each name that clashes.
    ensures count { IfOk result (λ list. length list ≡ length (clash_names a.now b.now)) }
{
    let programs = BothPrograms::of(a, b)?;
    let walked = walk(alloc, a, uptime_a, b, uptime_b)?;
    Ok(ClashList::new(walked.found.clashes, programs))
}

/// Compares two tables that have a merge of at most `limit` names: finds their clashes, as `clashes` does, which table has
/// the first registration of each, and how many names each table has alone.
///
/// Refusals, the least first: 37 if they have more names together, 42 if they have two codes under one id. Returns 90 when
/// out of memory. Walks both tables once.
pub fn compare_within(
    alloc: Global,
    limit: NameLimit,
    half_a: HalfTable<'_>,
    half_b: HalfTable<'_>,
) -> Result<Compared, TableFault>
    ensures answer { IsAnswered table_fault_number
        (fit_fault limit.names half_a.entry.table.now half_b.entry.table.now) result }
    ensures compared { IfOk result (IsCompared half_a.entry.table.now half_a.entry.uptime
        half_b.entry.table.now half_b.entry.uptime) }
{
    let (a, b) = (half_a.table, half_b.table);
    if !a.agrees_with(b) {
        // Which of the two refusals it is depends on the number of names.
        let Err(fault) = fit_within(limit, a, b) else {
            unreachable!()
        };
        return Err(fault);
    }
    let programs = BothPrograms::of_agreeing(alloc, a, b)?;
    let walked = walk(alloc, a, half_a.uptime, b, half_b.uptime)?;
    let names = b.len() + walked.alone;
    if names > limit.names() {
        return Err(TableFault::TooManyNames);
    }
    let alone_b = names - a.len();
    Ok(walked.compared(alloc, programs, alone_b)?)
}

// What a walk over two tables finds: the clashes, and how many names the first has alone.
#[derive(Drop)]
struct Walked {
    found: Found,
    alone: usize,
}

// Clashes, and whether the first table has the first registration of each.
#[derive(Drop)]
struct Found {
    clashes: Vec<Clash>,
    first_of_a: Vec<bool>,
}

impl Walked {
    // Puts the parts of a comparison together.
    fn compared(
        self,
        alloc: Global,
        programs: BothPrograms,
        alone_b: usize,
    ) -> Result<Compared, AllocError>
        requires few { length self.found.clashes.items ≤ most_names }
        requires coded { All (IsCoded programs) self.found.clashes.items }
        ensures clashes { IfOk result (λ compared. arc_value compared.clashes ≡ self.found.clashes.items) }
        ensures first { IfOk result (λ compared. compared.first_of_a.items ≡ self.found.first_of_a.items) }
        ensures alone { IfOk result (λ compared. (compared.alone_a ≡ self.alone) × (compared.alone_b ≡ alone_b)) }
    {
        let Found {
            clashes,
            first_of_a,
        } = self.found;
        let clashes = Arc::new(alloc, ClashList::new(clashes, programs))?;
        Ok(Compared {
            clashes,
            first_of_a,
            alone_a: self.alone,
            alone_b,
        })
    }
}

// Walks both tables once.
fn walk(
    alloc: Global,
    a: &Table,
    uptime_a: u64,
    b: &Table,
    uptime_b: u64,
) -> Result<Walked, AllocError>
    ensures clashes { IfOk result (λ walked. walked.found.clashes.items ≡ clashes a.now uptime_a b.now uptime_b) }
    ensures first { IfOk result (λ walked. walked.found.first_of_a.items
        ≡ map (has_first a.now) walked.found.clashes.items) }
    ensures alone { IfOk result (λ walked. walked.alone ≡ length (names_without b.now (keys a.now))) }
    ensures kept { IfOk result (λ walked. IsTable a.now × IsTable b.now) }
{
    let of_a = facts_of(a, uptime_a);
    let of_b = facts_of(b, uptime_b);
    let facts = share_facts(alloc, of_a, of_b)?;
    let halves = Halves { a, b, facts };
    let mut found = Found::with_capacity(alloc, a.len().min(b.len()).min(FIRST_ROOM))?;
    let mut alone = 0;
    for (name, mine, other) in Paired::new(a, b) {
        let Some(other) = other else {
            alone += 1;
            continue;
        };
        found.push_clash(&halves, name, mine, other)?;
    }
    found.shrink_to_fit();
    Ok(Walked { found, alone })
}

impl Found {
    // Returns an empty list with room for as many clashes as this.
    fn with_capacity(alloc: Global, clashes: usize) -> Result<Found, AllocError>
        ensures clashes { IfOk result (λ found. found.clashes.items ≡ []) }
        ensures first { IfOk result (λ found. found.first_of_a.items ≡ []) }
    {
        Ok(Found {
            clashes: Vec::with_capacity(alloc, clashes)?,
            first_of_a: Vec::with_capacity(alloc, clashes)?,
        })
    }

    // Gives back the room that the clashes don't take.
    fn shrink_to_fit(&mut self)
        ensures clashes { self.new.clashes.items ≡ self.old.clashes.items }
        ensures first { self.new.first_of_a.items ≡ self.old.first_of_a.items }
    {
        self.clashes.shrink_to_fit();
        self.first_of_a.shrink_to_fit();
    }

    // Appends the clash of a name that both halves have, unless the registrations are equal.
    fn push_clash(
        &mut self,
        halves: &Halves<'_>,
        name: &Name,
        mine: &SharedRegistration,
        other: &SharedRegistration,
    ) -> Result<(), AllocError>
        requires mine { option_map (λ row. row.registration) (get halves.now.a.now name.now) ≡ Some mine.now }
        requires other { option_map (λ row. row.registration) (get halves.now.b.now name.now) ≡ Some other.now }
        requires first { self.old.first_of_a.items ≡ map (has_first halves.now.a.now) self.old.clashes.items }
        ensures found { OnOk result ((names : List Name)
            → let facts = arc_value halves.now.facts in
            let by_name = clash_by_name facts.a halves.now.a.now facts.b halves.now.b.now in
            self.new.clashes.items ++ filter_map by_name names
            ≡ self.old.clashes.items ++ filter_map by_name (name.now ∷ names)) }
        ensures first { OnOk result (self.new.first_of_a.items
            ≡ map (has_first halves.now.a.now) self.new.clashes.items) }
    {
        self.clashes.reserve(1)?;
        self.first_of_a.reserve(1)?;
        match order(mine, other) {
            Ordering::Less => {
                let rivals = Rivals::of(mine, other, true)?;
                let program = halves.a.program_for(mine.resolver);
                let program = one_more_owner(program)?;
                let facts = halves.facts.clone()?;
                let clash = Clash::new(*name, rivals, facts, program);
                self.clashes.push_reserved(clash);
                self.first_of_a.push_reserved(true);
            }
            Ordering::Equal => {}
            Ordering::Greater => {
                let rivals = Rivals::of(other, mine, false)?;
                let program = halves.b.program_for(other.resolver);
                let program = one_more_owner(program)?;
                let facts = halves.facts.clone()?;
                let clash = Clash::new(*name, rivals, facts, program);
                self.clashes.push_reserved(clash);
                self.first_of_a.push_reserved(false);
            }
        }
        Ok(())
    }
}
