//! Reads heal's command line as a task.
#![tactic(auto)]

mod faults;
mod grammar;
mod names;
mod reading;
mod task;

pub use faults::CommandFault;
pub use names::{MAX_NAMES, Names};
pub use reading::{command, plain_words_theorem};
pub use task::Task;
