//! Calls of a side.

use crate::exchange::{Exchange, Step};
use crate::fault::Fault;
use crate::sweeping::{Call, sweep};
use std::alloc::Global;

/// How many names a side has before the call. A node of its table holds 15, so that a further name needs another node.
const SIZES: [u16; 2] = [1, 15];

/// A call's name, the step that makes it, and the steps before it.
type Row = (&'static str, Step, &'static [Step]);

/// A call of a side that has `names` names.
#[derive(Clone, Copy)]
struct SideCall {
    names: u16,
    row: &'static Row,
}

impl Call<Exchange> for SideCall {
    fn name(&self) -> &'static str {
        self.row.0
    }

    fn prepare(&self, alloc: Global) -> Result<Exchange, Fault> {
        Exchange::after(alloc, self.names, self.row.2)
    }

    fn make(&self, alloc: Global, exchange: &mut Exchange) -> Result<(), Fault> {
        exchange.step(alloc, self.row.1)
    }
}

/// The calls of a side.
#[rattlefmt::skip]
const CALLS: [Row; 11] = [
    ("Side::register of a built-in", Step::RegisterBuiltin, &[]),
    ("Side::register of a program", Step::RegisterProgram, &[]),
    ("Side::unregister", Step::Unregister, &[]),
    ("Side::unregister next to an offer", Step::Unregister, &[Step::Begin, Step::Abandon]),
    ("Side::begin", Step::Begin, &[]),
    ("Side::hear", Step::Hear, &[Step::Begin]),
    ("Side::hear_list", Step::HearList, &[Step::Begin]),
    ("Side::take", Step::Take, &[Step::Begin, Step::Hear]),
    ("Side::withdraw", Step::Withdraw, &[Step::Begin]),
    ("Side::close_list", Step::CloseList, &[Step::Begin, Step::Withdraw]),
    ("Side::finish", Step::Finish, &[Step::Begin, Step::Hear, Step::TakeAll, Step::CloseList, Step::HearList]),
];

/// Sweeps the calls of a side.
pub(crate) fn sweep_sides(rt: &HostRuntime) -> Result<(), Fault> {
    for names in &SIZES {
        for row in &CALLS {
            sweep(rt, &SideCall { names: *names, row })?;
        }
    }
    Ok(())
}
