//! Refusals, with their numbers, places and words.
use refusals::{Numbered, NumberedRefusal, Place, refusal_of};
use std::alloc::Global;
use std::fmt::Display;
use std::test::Fail;

/// Returns the number of a refusal, if there is one.
pub(crate) fn number<F: Copy + Numbered>(fault: Option<F>) -> Option<u32> {
    match fault {
        Some(fault) => Some(fault.number()),
        None => None,
    }
}

/// A refusal, its number, its place and its words.
pub(crate) type Worded<F> = (F, u32, Option<Place>, &'static str);

fn is_as_in_row<F: Display + Numbered>(alloc: Global, row: &Worded<F>) -> Result<bool, Fail> {
    let (fault, number, place, words) = row;
    let wanted = NumberedRefusal {
        number: *number,
        place: *place,
    };
    Ok(refusal_of(fault) == wanted && format!(in alloc; "{fault}")?.as_str() == *words)
}

/// Returns the words of the first refusal that has another number, another place or other words.
pub(crate) fn first_misworded<F: Display + Numbered>(
    alloc: Global,
    rows: &[Worded<F>],
) -> Result<Option<&'static str>, Fail> {
    for row in rows {
        if !is_as_in_row(alloc, row)? {
            return Ok(Some(row.3));
        }
    }
    Ok(None)
}
