//! Tests of public calls: operations, codes as bytes and as listings, ranges and abstract states, the verifier, and programs on
//! contexts of several lengths.
#![tactic(auto)]

#[cfg(test)]
mod abstract_states;
#[cfg(test)]
mod assertions;
#[cfg(test)]
mod code_bytes;
#[cfg(test)]
mod context_codes;
#[cfg(test)]
mod contexts;
#[cfg(test)]
mod domain_calls;
#[cfg(test)]
mod fault_words;
#[cfg(test)]
mod listings;
#[cfg(test)]
mod operations;
#[cfg(test)]
mod peaks;
#[cfg(test)]
mod ranges;
#[cfg(test)]
mod refused_codes;
#[cfg(test)]
mod sample_codes;
#[cfg(test)]
mod scratch_runs;
#[cfg(test)]
mod signed_ranges;
#[cfg(test)]
mod verified_codes;
