//! A board of verdicts: seats draw the clashes of an exchange, and passes post verdicts and read rulings.
//!
//! Drawing, posting and reading never wait.
#![tactic(auto)]

mod answers;
mod board;
mod draw;
mod draw_words;
mod given;
mod pass;
mod posted;
mod seat;
mod site;

pub use board::{Board, open};
pub use draw::Draw;
pub use pass::Pass;
pub use posted::Posted;
pub use seat::Seat;
