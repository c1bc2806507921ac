//! Writing to a device that takes any part of what it is given, and may fail.
#![tactic(auto)]

mod sending;

pub use sending::{DeviceFault, deliver, flush_after, send, send_after};
