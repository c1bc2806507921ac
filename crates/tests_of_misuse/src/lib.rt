//! Hostile use of the crates together: tests alone, of changed codes, of the longest run, and of two sides in a random
//! walk.
#![tactic(auto)]

#[cfg(test)]
mod dice;
#[cfg(test)]
mod longest_code;
#[cfg(test)]
mod mutated_codes;
#[cfg(test)]
mod random_walk;
#[cfg(test)]
mod walk_log;
