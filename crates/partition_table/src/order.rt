//! The order of registrations, as the definitions have it.
ghost use Rattle.std.specs.Prelude.{◌≡◌};
ghost use Rattle.clash_record.specs.Orders.{registration_cmp};

use clash_record::Registration;
use std::cmp::Ordering;

// The order of two registrations. Is kept in line, since most that differ do so in their first field.
#[inline(always)]
pub(crate) fn order(a: &Registration, b: &Registration) -> Ordering
    ensures { result ≡ registration_cmp a.now b.now }
{
    a.cmp(b)
}
