//! The steps of exchange 7, before and after both sides take its rulings.
use exchange_core::{Judged, Side};
use fixtures::{Ended, begin_both, hear_both};
use judge_pool::Workers;
use partition_table::{ClashList, Table};
use registry_lock::meet;
use std::alloc::Global;
use std::sync::Arc;
use std::test::Fail;
use verdict_board::Board;

/// The number of the exchange.
pub(crate) const NUMBER: u64 = 7;

/// The seed of its words.
pub(crate) const SEED: u64 = 0;

/// Returns this number of workers.
pub(crate) fn crew(count: u32) -> Result<Workers, Fail> {
    match Workers::new(count) {
        Some(workers) => Ok(workers),
        None => Err(Fail::from("there can't be so many workers")),
    }
}

/// Opens the exchange on both sides, and returns the clashes of their tables.
pub(crate) fn begin(alloc: Global, a: &mut Side, b: &mut Side) -> Result<ClashList, Fail> {
    let offers = begin_both(alloc, NUMBER, SEED, a, b)?;
    hear_both(alloc, a, b, &offers)?;
    Ok(offers.clashes(alloc)?)
}

/// Returns the first four rulings of each side.
pub(crate) fn rulings_of(ended: &Ended) -> [[Option<Judged>; 4]; 2] {
    [
        first_four(ended.first.rulings()),
        first_four(ended.second.rulings()),
    ]
}

fn first_four(rulings: &[Judged]) -> [Option<Judged>; 4] {
    [
        rulings.get(0).copied(),
        rulings.get(1).copied(),
        rulings.get(2).copied(),
        rulings.get(3).copied(),
    ]
}

/// Returns the one table of both sides, which meet at the board.
pub(crate) fn meet_at<'p>(ended: Ended, board: &Board<'p>) -> Result<Arc<Table>, Fail> {
    let mut pass = board.pass()?;
    let Ended { first, second } = ended;
    Ok(meet(board, &mut pass, first, second)?.into_table())
}
