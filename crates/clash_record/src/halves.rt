//! What an exchange takes of its two halves: their uptimes, and the names to withdraw.

use crate::names::Name;
use crate::side_id::SideId;

/// The uptime of each half. Both use the same unit, which is the caller's.
#[derive(Clone, Copy, Debug, PartialEq, Eq)]
pub struct Uptimes {
    /// The uptime of A's half.
    pub a: u64,
    /// The uptime of B's half.
    pub b: u64,
}

/// A name to withdraw from one side while an exchange is open, because its owner died.
#[derive(Clone, Copy, Debug, PartialEq, Eq)]
pub struct Withdrawal {
    /// The side that holds the name.
    pub side: SideId,
    /// The name.
    pub name: Name,
}
