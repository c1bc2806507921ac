//! The workers that judge the clashes of an exchange, and their gate.
use judge_pool::Workers;
use std::alloc::Global;

// The runtime that starts threads, the allocator, the number of workers, and the gate that each of their posts passes.
#[derive(Drop)]
pub(crate) struct Crew<'a, R, G> {
    pub rt: &'a R,
    pub alloc: Global,
    pub workers: Workers,
    pub gate: &'a G,
}

// A round, and whether the board's clashes are known to be A's.
#[derive(Clone, Copy)]
pub(crate) struct Turn {
    pub round: u32,
    pub is_own: bool,
}
