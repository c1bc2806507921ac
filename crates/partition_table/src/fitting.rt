//! Checking that two tables have a merge.
ghost use Rattle.std.specs.Prelude.{◌≡◌, ◌↔◌, ◌<◌, ◌^◌, IsTrue, IsOk};
ghost use Rattle.std.specs.Option.{option_map};
ghost use Rattle.std.specs.FinMap as map;
ghost use Rattle.refusals.specs.Answers.{IsDecidedBy};
ghost use Rattle.partition_table.specs.Tables.{IsTable, fit_within, max_names, tables_agree, union_len};
ghost use Rattle.partition_table.specs.Faults.{fit_fault};

use crate::fault::TableFault;
use crate::limit::NameLimit;
use crate::paired::Paired;
use crate::table::Table;

/// Checks that two tables have a merge of at most 4,096 names. See `fit_within`.
pub fn fit(a: &Table, b: &Table) -> Result<(), TableFault>
    ensures answer { IsDecidedBy (fit_fault max_names a.now b.now) result }
    ensures fits { IsOk result ↔ IsTrue (fit_within max_names a.now b.now) }
{
    fit_within(NameLimit::default(), a, b)
}

/// Checks that two tables have a merge of at most `limit` names. Walks both tables once, and allocates nothing.
///
/// Refusals, the least first: 37 if they have more names together, 42 if they have two codes under one id.
pub fn fit_within(limit: NameLimit, a: &Table, b: &Table) -> Result<(), TableFault>
    ensures answer { IsDecidedBy (fit_fault limit.names a.now b.now) result }
    ensures fits { IsOk result ↔ IsTrue (fit_within limit.names a.now b.now) }
{
    if count_names(a, b) > limit.names() {
        return Err(TableFault::TooManyNames);
    }
    if !a.agrees_with(b) {
        return Err(TableFault::OtherCode);
    }
    Ok(())
}

// Returns the number of names that the two have together.
fn count_names(a: &Table, b: &Table) -> usize
    ensures count { result ≡ union_len a.now b.now }
{
    let mut count = a.len();
    // For the prover: at most 1,048,576 are added.
    b.len();
    for (_, _, mine) in Paired::new(b, a) {
        if mine.is_none() {
            count += 1;
        }
    }
    count
}
