//! Scripts from end to end: lines are read, carried out and answered.
//!
//! `Machine` is the state of a script from line to line, with the effect of each command; `run_script` reads the lines.
#![tactic(auto)]

mod agreements;
mod crew;
mod editing;
mod fault;
mod files;
mod healed;
mod healing;
mod labels;
mod long_line;
mod machine;
mod narrating;
mod narrator;
mod reply;
mod running;
mod serving;
mod showing;
mod uploading;

pub use crew::Crew;
pub use healed::print_healing;
pub use healing::Split;
pub use labels::Label;
pub use machine::Machine;
pub use narrator::{Narrator, Silence};
pub use reply::{Reply, print_reply};
pub use running::{run_narrated, run_script};
