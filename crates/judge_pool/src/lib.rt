//! Workers that draw the clashes of a board, judge them, post the verdicts, and pass on the rulings on the board.
#![tactic(auto)]

mod done;
mod healing;
mod hooks;
mod judging;
mod round;
mod scoped;
mod serving;
mod workers;

pub use done::Done;
pub use healing::{RoundDone, heal_round};
pub use hooks::{Ear, Gate, OpenGate};
pub use judging::{judge, judge_in};
pub use partition_table::word;
pub use serving::work;
pub use workers::{MAX_WORKERS, Workers};
