//! What every refusal has: a number, words, and for some a place.
#![tactic(auto)]

mod place;
mod refusal;
mod table;

pub use place::{PLACE_TEXT_LEN, Place};
pub use refusal::{
    Numbered, NumberedRefusal, OUT_OF_MEMORY, REFUSAL_TEXT_LEN, out_of_memory_line, refusal_of,
};
pub use table::{REFUSALS, words_in, words_of};
