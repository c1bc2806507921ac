//! Clashes that a program judges.

use crate::fault::Fault;
use clash_record::ResolverId;
use fixtures::{BY_WORD, numbered_clashes, stored};
use partition_table::ClashList;
use std::alloc::Global;

/// Returns `names` clashes of owners on two nodes, each judged by a program.
pub(crate) fn clashing(alloc: Global, names: u16) -> Result<ClashList, Fault> {
    let (store, program) = stored(alloc, &BY_WORD)?;
    Ok(numbered_clashes(alloc, names, ResolverId::Program(program), &store)?)
}
