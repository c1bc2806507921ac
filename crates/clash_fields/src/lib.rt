//! The record of a clash by its fields: read from words (a name, two registrations such as `1.10,stamp=5`, and a word), and
//! printed as text.
#![tactic(auto)]

mod reading;
mod telling;
mod words;

pub use reading::clash_of_fields;
pub use telling::record_text;
