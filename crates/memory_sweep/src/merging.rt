//! The merge of two tables.
ghost use Rattle.std.specs.Prelude.{◌≡◌, length};
ghost use Rattle.partition_table.specs.Tables.{clash_names};

use crate::comparing::is_same_table;
use crate::fault::Fault;
use crate::sweeping::{Call, Subject, sweep};
use builtin_resolvers::Verdict3;
use clash_record::{Name, ResolverId};
use fixtures::{BY_WORD, numbered_name, numbered_table, stored};
use partition_table::{Table, clashes, merge};
use std::alloc::Global;

/// Two tables, and one answer for each of their clashes.
#[derive(Drop)]
struct Pair {
    a: Table,
    b: Table,
    answers: Vec<Verdict3>,
    ghost answered: { length answers.items ≡ length (clash_names a b) },
}

impl Pair {
    fn of(alloc: Global, a: Table, b: Table) -> Result<Pair, Fault> {
        let count = clashes(alloc, &a, 0, &b, 0)?.len();
        let answers = vec![in alloc; Verdict3::First; count]?;
        Ok(Pair { a, b, answers })
    }
}

/// What is merged, the names that were withdrawn of it, and what the merge gave.
#[derive(Drop)]
struct Merging {
    pair: Pair,
    gone: [Name; 1],
    merged: Option<Table>,
}

impl Merging {
    // Returns two tables that clash in `names` names, all judged by a program.
    fn new(alloc: Global, names: u16) -> Result<Merging, Fault> {
        let gone = [numbered_name(b'n', 0)?];
        let (store, program) = stored(alloc, &BY_WORD)?;
        let resolver = ResolverId::Program(program);
        let a = numbered_table(alloc, names, 1, resolver, &store)?;
        let b = numbered_table(alloc, names, 2, resolver, &store)?;
        Ok(Merging {
            pair: Pair::of(alloc, a, b)?,
            gone,
            merged: None,
        })
    }
}

impl Subject for Merging {
    fn is_same(&self, other: &Merging) -> bool {
        self.pair.a == other.pair.a
            && self.pair.b == other.pair.b
            && is_same_table(self.merged.as_ref(), other.merged.as_ref())
    }
}

/// The merge of two tables with `names` names.
#[derive(Clone, Copy)]
struct MergeCall {
    names: u16,
}

impl Call<Merging> for MergeCall {
    fn name(&self) -> &'static str {
        "merge"
    }

    fn prepare(&self, alloc: Global) -> Result<Merging, Fault> {
        Merging::new(alloc, self.names)
    }

    fn make(&self, alloc: Global, merging: &mut Merging) -> Result<(), Fault> {
        let Pair { a, b, answers, .. } = &merging.pair;
        merging.merged = Some(merge(alloc, a, b, answers, &merging.gone, &[])?);
        Ok(())
    }
}

/// Sweeps the merge of tables with `names` names.
pub(crate) fn sweep_merging(rt: &HostRuntime, names: u16) -> Result<(), Fault> {
    sweep(rt, &MergeCall { names })
}
