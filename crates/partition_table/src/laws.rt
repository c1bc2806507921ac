//! Laws of two tables: neither side is preferred, and a merge is defined name by name.
ghost use Rattle.std.specs.Prelude.{◌≡◌, ◌≤◌, ℕ, List, map, IsTrue};
ghost use Rattle.std.specs.FinMap.{len};
ghost use Rattle.builtin_resolvers.specs.declared.verdicts.Verdict3.{Verdict3};
ghost use Rattle.clash_record.specs.Name.{Name};
ghost use Rattle.partition_table.specs.Faults.{fit_fault};
ghost use Rattle.partition_table.specs.Tables.{Table, IsTable, tables_agree, fit_within, clashes, clash_names, Gone, IsMerge, merge, union_len};

/// States that whether two tables fit together, and why they don't, doesn't depend on their order, at any limit.
///
/// Does nothing at run time: its contract is the law.
pub fn fit_theorem()
    ensures together { (limit : ℕ) (a b : Table) → fit_within limit a b ≡ fit_within limit b a }
    ensures fault { (limit : ℕ) (a b : Table) → fit_fault limit a b ≡ fit_fault limit b a }
{}

/// States that the clashes of two tables don't depend on their order, nor the clashing names on the uptimes.
///
/// Does nothing at run time: its contract is the law.
pub fn clashes_theorem()
    ensures swapped { (a b : Table) (uptime_a uptime_b : ℕ)
        → clashes a uptime_a b uptime_b ≡ clashes b uptime_b a uptime_a }
    ensures names { (a b : Table) (uptime_a uptime_b : ℕ)
        → map (λ clash. clash.name) (clashes a uptime_a b uptime_b) ≡ clash_names a b }
    ensures names_swapped { (a b : Table) → clash_names a b ≡ clash_names b a }
{}

/// States that the merge has under each name what the definition gives for it, and that it doesn't depend on the order
/// of the two tables if no program has two codes.
///
/// Does nothing at run time: its contract is the law.
pub fn merge_theorem()
    ensures by_name { (a b : Table) (answers : List Verdict3) (gone : Gone)
        → IsMerge a b answers gone (merge a b answers gone) }
    ensures swapped { (a b : Table) (answers : List Verdict3) (gone_a gone_b : List Name)
        → IsTable a → IsTable b → IsTrue (tables_agree a b)
        → merge a b answers record { of_a = gone_a; of_b = gone_b }
        ≡ merge b a answers record { of_a = gone_b; of_b = gone_a } }
    // It has no more names than the two have together.
    ensures few { (a b : Table) (answers : List Verdict3) (gone : Gone)
        → len (merge a b answers gone) ≤ union_len a b }
{}
