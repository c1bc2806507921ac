//! The pending states of a pass.
ghost use Rattle.std.specs.Prelude.{◌≡◌, ◌≤◌, ◌<◌, ◌^◌, length};
ghost use Rattle.abstract_value.specs.Counts.{held_in};

mod ops;

use crate::State;
use std::fmt;

/// The states of the slots that the pass has yet to visit, as a map from slots to states.
///
/// Each state is on the heap; a slot without a state takes eight bytes. It counts the states that it holds, and keeps
/// the peak of that count.
#[derive(Drop)]
pub struct Pending<D> {
    states: Vec<Option<Box<State<D>>>>,
    count: u32,
    peak: u32,
    ghost counted: { count ≡ held_in states.items },
    ghost kept: { count ≤ peak },
    ghost short: { length states.items < 2 ^ 32 },
}

/// Prints the counts alone.
impl<D> fmt::Debug for Pending<D> {
    fn fmt<W: fmt::Write>(&self, f: &mut fmt::Formatter<W>) -> fmt::Result {
        f.debug_struct("Pending")
            .field("count", &self.count)
            .field("peak", &self.peak)
            .finish_non_exhaustive()
    }
}
