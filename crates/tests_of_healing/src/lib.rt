//! Tests of healing across the crates: the draws and verdicts of a board, concurrent workers, and sides and partitions
//! that take the rulings of a round.
#![tactic(auto)]

#[cfg(test)]
mod callers;
#[cfg(test)]
mod exchanging;
#[cfg(test)]
mod partitions;
#[cfg(test)]
mod registering;
#[cfg(test)]
mod seats;
#[cfg(test)]
mod told_sides;
#[cfg(test)]
mod workers;
