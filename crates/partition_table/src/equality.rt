//! Equality of tables, of clashes and of their lists.
ghost use Rattle.std.specs.Prelude.{◌≡◌, IsTrue};
ghost use Rattle.std.specs.Option.{option_map};
ghost use Rattle.std.specs.Arc.{arc_value};
ghost use Rattle.std.specs.Cmp.{partial_equiv_from_equiv};
ghost use Rattle.std.specs.Cmp.Lexicographic.{pointwise};
ghost use Rattle.partition_table.specs.Tables.{IsTable, is_same_name, rows_of, same_code, same_registration, same_table, same_clash};
ghost use Rattle.partition_table.specs.laws.Sameness.{tables_equivalent, clashes_equivalent, lists_equivalent};
ghost use Rattle.partition_table.specs.model.Coding.{IdsDecide, IsDecided};
ghost use Rattle.partition_table.specs.model.Walking.{is_row};

use crate::clash::{Clash, ClashList};
use crate::order::order;
use crate::table::Table;
use clash_record::{Name, Registration};
use std::sync::Arc;
use verifier::Verified;

impl PartialEq for Table {
    ghost eq = { same_table };

    ghost laws = { partial_equiv_from_equiv tables_equivalent };

    fn eq(&self, other: &Table) -> bool {
        same_rows(self, other) && self.agrees_with(other)
    }
}

impl Eq for Table {
    ghost laws = { tables_equivalent };
}

impl PartialEq for Clash {
    ghost eq = { same_clash };

    ghost laws = { partial_equiv_from_equiv clashes_equivalent };

    fn eq(&self, other: &Clash) -> bool {
        is_same(self, other, false)
    }
}

impl Eq for Clash {
    ghost laws = { clashes_equivalent };
}

impl PartialEq for ClashList {
    ghost eq = { pointwise same_clash };

    ghost laws = { partial_equiv_from_equiv lists_equivalent };

    // Compares each program once if the tables fit, and not once for each clash.
    fn eq(&self, other: &ClashList) -> bool {
        let ids_decide = self.programs().agree_with(other.programs());
        are_same(self.clashes(), other.clashes(), ids_decide)
    }
}

impl Eq for ClashList {
    ghost laws = { lists_equivalent };
}

// Checks whether the lists are equal. Compares no code if the ids of programs decide.
fn are_same(list: &[Clash], others: &[Clash], ids_decide: bool) -> bool
    requires { IsTrue ids_decide → IdsDecide list.now others.now }
    ensures { result ≡ pointwise same_clash list.now others.now }
{
    let mut rest = others.iter();
    for mine in list {
        let Some(other) = rest.next() else {
            return false;
        };
        if !is_same(mine, other, ids_decide) {
            return false;
        }
    }
    rest.next().is_none()
}

// Checks whether two clashes are equal. Compares no code if the id of the program decides.
fn is_same(a: &Clash, b: &Clash, id_decides: bool) -> bool
    requires { IsTrue id_decides → IsDecided a.now b.now }
    ensures { result ≡ same_clash a.now b.now }
{
    same_name(a.name(), b.name())
        && same_registration(a.first(), b.first())
        && same_registration(a.second(), b.second())
        && a.of_first() == b.of_first()
        && a.of_second() == b.of_second()
        && has_same_code(a, b, id_decides)
}

// Checks whether two clashes that have the same first registration have the same code. Compares none if the id decides.
fn has_same_code(a: &Clash, b: &Clash, id_decides: bool) -> bool
    requires { IsTrue id_decides → IsDecided a.now b.now }
    ensures { IsTrue (same_registration a.now.first b.now.first) → result ≡ same_code a.now.code b.now.code }
{
    id_decides || same_program(a.program(), b.program())
}

// Checks whether two tables have the same names with the same registrations. Walks both once.
fn same_rows(table: &Table, other_table: &Table) -> bool
    ensures same { result ≡ pointwise is_row (rows_of table.now) (rows_of other_table.now) }
    ensures tables { IsTable table.now × IsTable other_table.now }
{
    let mut rest = other_table.rows();
    for (name, registration) in table.rows() {
        let Some((other_name, other)) = rest.next() else {
            return false;
        };
        if !same_name(name, other_name) || !same_registration(registration, other) {
            return false;
        }
    }
    rest.next().is_none()
}

fn same_name(a: &Name, b: &Name) -> bool
    ensures { result ≡ is_same_name a.now b.now }
{
    a.cmp(b).is_eq()
}

fn same_registration(a: &Registration, b: &Registration) -> bool
    ensures { result ≡ same_registration a.now b.now }
{
    order(a, b).is_eq()
}

fn same_program(a: Option<&Arc<Verified>>, b: Option<&Arc<Verified>>) -> bool
    ensures { result
        ≡ same_code (option_map (λ p. arc_value p.now) a.entry) (option_map (λ p. arc_value p.now) b.entry) }
{
    match (a, b) {
        (Some(a), Some(b)) => a.code() == b.code(),
        (None, None) => true,
        _ => false,
    }
}
