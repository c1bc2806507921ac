//! Tests of answers: those to questions as worked rows, and to scripts from end to end; programs in files; lines that come one by
//! one; devices that move a few bytes a call and fail at a call; and workers that judge concurrently.
#![tactic(auto)]

#[cfg(test)]
mod asking;
#[cfg(test)]
mod codes;
#[cfg(test)]
mod devices;
#[cfg(test)]
mod failing_devices;
#[cfg(test)]
mod files;
#[cfg(test)]
mod heals;
#[cfg(test)]
mod limits;
#[cfg(test)]
mod lines;
#[cfg(test)]
mod live_input;
#[cfg(test)]
mod objects;
#[cfg(test)]
mod records;
#[cfg(test)]
mod script_devices;
#[cfg(test)]
mod uploaded_files;
#[cfg(test)]
mod workers;
