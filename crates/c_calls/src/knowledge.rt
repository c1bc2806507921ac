//! The knowledge of a half about its names in an open exchange.
ghost use Rattle.std.specs.Prelude.{◌≡◌, slice_get, is_some};
ghost use Rattle.std.specs.List.{find};
ghost use Rattle.std.specs.Option.{option_map, option_and_then};
ghost use Rattle.std.specs.Map.Iter.{deref_pair};
ghost use Rattle.partition_table.specs.Tables.{rows_above};
ghost use Rattle.exchange_core.specs.Rows.{rows_left};
ghost use Rattle.exchange_core.specs.Shown.{shown};
ghost use Rattle.exchange_law.specs.Sides.{heard_clashes};
ghost use Rattle.c_calls.specs.Queries as spec;
ghost use Rattle.c_calls.specs.Queries.{is_live, live_after, live_at, withdrawn_at};

use crate::answer::INDEX_OUT_OF_RANGE;
use crate::codes::{HealName, HealRow, name_code, name_of, row_code, side_code};
use crate::half::Half;
use clash_record::{Name, Registration};
use exchange_core::{MissingPart, ShownRows, Side};
use partition_table::Rows;

/// What a side knows. Flags are 0 or 1. `number` is that of the open exchange, and `latest` the greatest that the side began; both
/// are 0 if there is none. `missing` is 0 for nothing, 1 for the other's offer, 2 for the ruling of `missing_clash`, 3 for the
/// side's own list and 4 for the other's.
#[repr(C)]
#[derive(Clone, Copy, Debug)]
pub struct HealSideState {
    pub side: u32,
    pub is_open: u32,
    pub has_heard: u32,
    pub has_closed: u32,
    pub has_heard_list: u32,
    pub missing: u32,
    pub has_begun: u32,
    pub reserved: u32,
    pub number: u64,
    pub latest: u64,
    pub missing_clash: u64,
    pub withdrawn: u64,
}

impl Half {
    /// Returns what the side knows.
    pub fn state(&self) -> HealSideState
        ensures { result ≡ spec.state_of (shown self.now.side) }
    {
        let (number, latest) = (self.side.open_number(), self.side.latest());
        let missing = self.side.missing_part();
        HealSideState {
            side: side_code(self.side.id()),
            is_open: flag(number.is_some()),
            has_heard: flag(has_heard(&self.side)),
            has_closed: flag(self.side.has_closed_list()),
            has_heard_list: flag(has_heard_list(&self.side)),
            missing: missing_code(missing),
            has_begun: flag(latest.is_some()),
            reserved: 0,
            number: number.unwrap_or(0),
            latest: latest.unwrap_or(0),
            missing_clash: missing_clash(missing),
            withdrawn: self.side.withdrawn().len() as u64,
        }
    }

    /// Returns withdrawn name `i`.
    pub fn withdrawn(&self, i: usize) -> Result<HealName, u32>
        ensures { result ≡ withdrawn_at i self.now }
    {
        match self.side.withdrawn().get(i) {
            Some(name) => Ok(name_code(name)),
            None => Err(INDEX_OUT_OF_RANGE),
        }
    }

    /// Returns row `i` of the names that aren't withdrawn.
    pub fn live(&self, i: usize) -> Result<HealRow, u32>
        ensures { result ≡ live_at i self.now }
    {
        match nth_live(self.side.rows(), i) {
            Some((name, registration)) => Ok(row_code(name, registration)),
            None => Err(INDEX_OUT_OF_RANGE),
        }
    }

    /// Returns the first row above the name whose name isn't withdrawn.
    pub fn live_after(&self, bytes: &[u8]) -> Result<HealRow, u32>
        ensures { result ≡ live_after bytes.now self.now }
    {
        let name = name_of(bytes)?;
        match self.live_above(&name) {
            Some((name, registration)) => Ok(row_code(name, registration)),
            None => Err(INDEX_OUT_OF_RANGE),
        }
    }

    // Returns the first row above the name whose name isn't withdrawn.
    fn live_above(&self, name: &Name) -> Option<(&Name, &Registration)>
        ensures { option_map deref_pair result
            ≡ find (λ row. is_live (shown self.now.side) row.0) (rows_above name.now (shown self.now.side).table) }
    {
        first_live(&self.side, self.side.table().rows_after(name))
    }
}

// Writes a flag.
fn flag(is: bool) -> u32
    ensures { result ≡ spec.flag is }
{
    if is { 1 } else { 0 }
}

// Checks whether the other's offer was heard.
fn has_heard(side: &Side) -> bool
    ensures { result ≡ is_some (heard_clashes (shown side.now)) }
{
    match side.clashes() {
        Some(_) => true,
        None => false,
    }
}

// Checks whether the other's list was heard.
fn has_heard_list(side: &Side) -> bool
    ensures { result ≡ is_some (option_and_then (λ exchange. exchange.their_list) (shown side.now).exchange) }
{
    match side.their_list() {
        Some(_) => true,
        None => false,
    }
}

// Writes the kind of a missing part.
fn missing_code(part: Option<MissingPart>) -> u32
    ensures { result ≡ spec.missing_code part }
{
    match part {
        None => 0,
        Some(MissingPart::TheirOffer) => 1,
        Some(MissingPart::Ruling(_)) => 2,
        Some(MissingPart::OwnList) => 3,
        Some(MissingPart::OtherList) => 4,
    }
}

// Returns the clash without a ruling, or 0.
fn missing_clash(part: Option<MissingPart>) -> u64
    ensures { result ≡ spec.missing_clash part }
{
    match part {
        Some(MissingPart::Ruling(k)) => k as u64,
        _ => 0,
    }
}

// Returns row `i` of these.
fn nth_live(rows: ShownRows<'_>, i: usize) -> Option<(&Name, &Registration)>
    ensures { option_map deref_pair result ≡ slice_get (rows_left rows.entry) i }
{
    let mut rest = rows;
    let mut left = i;
    while let Some(row) = rest.next() {
        if left == 0 {
            return Some(row);
        }
        left -= 1;
    }
    None
}

// Returns the first of these rows whose name the side shows.
fn first_live<'a>(side: &Side, rows: Rows<'a>) -> Option<(&'a Name, &'a Registration)>
    ensures { option_map deref_pair result ≡ find (λ row. is_live (shown side.now) row.0) rows.entry }
{
    let mut rest = rows;
    while let Some((name, registration)) = rest.next() {
        if is_live(side, name) {
            return Some((name, registration));
        }
    }
    None
}

// Checks whether the side has the name and didn't withdraw it.
fn is_live(side: &Side, name: &Name) -> bool
    ensures { result ≡ is_live (shown side.now) name.now }
{
    match side.whereis(name) {
        Some(_) => true,
        None => false,
    }
}
