//! memory_sweep: refuses each request for memory of each call in turn, where a library stands before `malloc` that
//! heeds the lines that it prints.
#![tactic(auto)]

mod boards;
mod callers;
mod codes;
mod comparing;
mod exchange;
mod fault;
mod merging;
mod rows;
mod sides;
mod sweeping;
mod tables;
mod without_memory;

use crate::fault::Fault;

fn main(rt: HostRuntime) -> Result<(), Fault> {
    codes::sweep_codes(&rt)?;
    tables::sweep_tables(&rt)?;
    sides::sweep_sides(&rt)?;
    boards::sweep_boards(&rt)?;
    without_memory::sweep_without_memory(&rt)
}
