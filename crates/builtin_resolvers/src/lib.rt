//! The built-in resolvers: their verdicts and their notices.
//!
//! They follow `random_exit_name`, `random_notify_name` and `notify_all_name` of the module
//! `global` in the OTP Kernel manual. Nothing here allocates.
#![tactic(auto)]

mod notice;
mod telling;
mod verdicts;

pub use notice::{NOTICE_TEXT_LEN, Notice, Notices};
pub use telling::notices;
pub use verdicts::{Verdict3, decide};
