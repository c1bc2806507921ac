//! The orders of names, ids and registrations.
ghost use Rattle.std.specs.Cmp.{IsTotalOrder};
ghost use Rattle.std.specs.FinMap.{IsAntisymmetric};
ghost use Rattle.clash_record.specs.Orders.{id_cmp, name_cmp, registration_cmp};

/// States that the orders of names, ids and registrations are total, and that values which compare equal are equal.
///
/// Does nothing at run time: its contract is the law.
pub fn order_theorem()
    ensures names { IsTotalOrder name_cmp }
    ensures names_exact { IsAntisymmetric name_cmp }
    ensures ids { IsTotalOrder id_cmp }
    ensures ids_exact { IsAntisymmetric id_cmp }
    ensures registrations { IsTotalOrder registration_cmp }
    ensures registrations_exact { IsAntisymmetric registration_cmp }
{}
