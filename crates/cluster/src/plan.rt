//! The plan of an exchange.

use clash_record::{Uptimes, Withdrawal};

/// The plan of an exchange.
#[derive(Clone, Copy, Debug)]
pub struct Plan<'a> {
    /// Its number. A half rejects a number that isn't above every number it began.
    pub number: u64,
    /// The seed of the words at which clashes are judged.
    pub seed: u64,
    /// The uptime of each half.
    pub uptimes: Uptimes,
    /// The names to withdraw while it is open, in this order.
    pub gone: &'a [Withdrawal],
}
