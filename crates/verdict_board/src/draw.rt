//! The outcome of a draw.

/// The outcome of a draw in a round.
#[derive(Clone, Copy, Debug, PartialEq, Eq)]
pub enum Draw {
    /// The clash at this position, counted from 0. No other seat draws it in this round.
    Clash(u32),
    /// No clash is left in this round.
    Spent,
}
