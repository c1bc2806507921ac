//! The table of a side paired with the other's. A's goes first, on either side.
ghost use Rattle.std.specs.Prelude.{◌≡◌, ℕ, IsTrue, IfOk, not, nat_le};
ghost use Rattle.clash_record.specs.declared.side_id.SideId.{SideId};
ghost use Rattle.refusals.specs.Answers.{IsAnswered};
ghost use Rattle.partition_table.specs.Faults.{table_fault_number};
ghost use Rattle.exchange_core.specs.Refusals.{union_for};
ghost use Rattle.exchange_law.specs.Sides.{fit_for, merge_for};
ghost use Rattle.exchange_core.specs.model.Pairing.{fit_fault_for, merged_for, IsComparedFor};

use clash_record::SideId;
use partition_table::{
    AnsweredClashes, Compared, HalfTable, MergedTable, NameLimit, ParentTable, Table, TableFault,
    compare_within, fit_theorem, fit_within, merge_compared,
};
use std::alloc::{AllocError, Global};

// Checks whether the two tables have more names together than the limit.
pub(crate) fn has_too_many(limit: NameLimit, own: &Table, other: &Table) -> bool
    ensures { (id : SideId) → result ≡ not (nat_le (union_for id own.now other.now) limit.names) }
{
    // For the proof: the order of the two tables doesn't matter.
    fit_theorem();
    matches!(fit_within(limit, own, other), Err(TableFault::TooManyNames))
}

// Compares the two tables, unless they don't fit together.
pub(crate) fn compare(
    alloc: Global,
    limit: NameLimit,
    id: SideId,
    own: HalfTable<'_>,
    other: HalfTable<'_>,
) -> Result<Compared, TableFault>
    ensures answer { IsAnswered table_fault_number
        (fit_fault_for limit.names id own.entry.table.now other.entry.table.now) result }
    ensures compared { IfOk result (IsComparedFor id own.entry.table.now own.entry.uptime
        other.entry.table.now other.entry.uptime) }
{
    match id {
        SideId::A => compare_within(alloc, limit, own, other),
        SideId::B => compare_within(alloc, limit, other, own),
    }
}

// Returns the merge of the two tables, which were compared and fit together.
pub(crate) fn merge_own(
    alloc: Global,
    id: SideId,
    own: ParentTable<'_>,
    other: ParentTable<'_>,
    answered: AnsweredClashes<'_>,
) -> Result<MergedTable, AllocError>
    requires fit { IsTrue (fit_for id own.table.now other.table.now) }
    requires compared { (own_uptime : ℕ) × (other_uptime : ℕ)
        × IsComparedFor id own.table.now own_uptime other.table.now other_uptime answered.compared.now }
    ensures { IfOk result (λ merged. merged_for id own.entry.table.now other.entry.table.now merged
        ≡ merge_for id own.entry.table.now other.entry.table.now answered.entry.answers.now
        own.entry.gone.now other.entry.gone.now) }
{
    match id {
        SideId::A => merge_compared(alloc, own, other, answered),
        SideId::B => merge_compared(alloc, other, own, answered),
    }
}
