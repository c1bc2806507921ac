//! The rows of a table as C reads them.
ghost use Rattle.std.specs.Prelude.{◌≡◌, slice_get};
ghost use Rattle.std.specs.Option.{option_map};
ghost use Rattle.std.specs.Map.Iter.{deref_pair};
ghost use Rattle.c_calls.specs.Rows.{found_in, row_in, row_in_after};

use crate::answer::{INDEX_OUT_OF_RANGE, NOT_REGISTERED};
use crate::codes::{HealRegistration, HealRow, name_of, registration_code, row_code};
use clash_record::{Name, Registration};
use partition_table::{Rows, Table};

/// Looks a name up. Returns 44 for an invalid name, and 31 for one that isn't registered.
pub fn found_in(table: &Table, bytes: &[u8]) -> Result<HealRegistration, u32>
    ensures { result ≡ found_in bytes.now table.now }
{
    let name = name_of(bytes)?;
    match table.whereis(&name) {
        Some(registration) => Ok(registration_code(registration)),
        None => Err(NOT_REGISTERED),
    }
}

/// Returns row `i` in the order of names, or 92.
pub fn row_in(table: &Table, i: usize) -> Result<HealRow, u32>
    ensures { result ≡ row_in i table.now }
{
    match nth_row(table.rows(), i) {
        Some((name, registration)) => Ok(row_code(name, registration)),
        None => Err(INDEX_OUT_OF_RANGE),
    }
}

/// Returns the first row whose name is above this one. Returns 44 for an invalid name, and 92 if there is none.
pub fn row_in_after(table: &Table, bytes: &[u8]) -> Result<HealRow, u32>
    ensures { result ≡ row_in_after bytes.now table.now }
{
    let name = name_of(bytes)?;
    match table.rows_after(&name).next() {
        Some((name, registration)) => Ok(row_code(name, registration)),
        None => Err(INDEX_OUT_OF_RANGE),
    }
}

// Returns row `i` of these.
fn nth_row(rows: Rows<'_>, i: usize) -> Option<(&Name, &Registration)>
    ensures { option_map deref_pair result ≡ slice_get rows.entry i }
{
    let mut rest = rows;
    let mut left = i;
    while let Some(row) = rest.next() {
        if left == 0 {
            return Some(row);
        }
        left -= 1;
    }
    None
}
