//! Comparisons of values by all that callers can see.

use partition_table::Table;
use std::sync::Arc;
use verifier::Verified;

/// Whether both are missing, or both are there and the same.
pub(crate) fn is_same_option<T, F: FnOnce(&T, &T) -> bool>(
    one: Option<&T>,
    other: Option<&T>,
    is_same: F,
) -> bool
    requires { F.IsAlwaysCallable is_same }
{
    match (one, other) {
        (Some(one), Some(other)) => is_same(one, other),
        (None, None) => true,
        _ => false,
    }
}

/// Whether both tables are missing, or they are equal.
pub(crate) fn is_same_table(one: Option<&Table>, other: Option<&Table>) -> bool {
    is_same_option(one, other, |one, other| one == other)
}

/// Whether both programs are missing, or they have the same code.
pub(crate) fn is_same_program(one: Option<&Arc<Verified>>, other: Option<&Arc<Verified>>) -> bool {
    is_same_option(one, other, |one, other| one.code() == other.code())
}
