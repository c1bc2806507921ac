//! Answers questions: judges a clash, checks a program, assembles and disassembles; and lists the refusals.
#![tactic(auto)]

mod arguments;
mod code_files;
mod details;
mod failures;
mod files;
mod listing;
mod printing;
mod question;
mod replying;
mod ruling;

pub use code_file::MAX_FILE_LEN;
pub use code_files::digits_from;
pub use failures::{Failure, InputFault};
pub use listing::{VERSION_LINE, print_refusals, print_version};
pub use printing::Answer;
pub use question::{ClashWords, Profile, Question, is_standard_input};
pub use replying::{Printed, asm_from, refuse_memory, reply_to, texts_of};
pub use ruling::{Answered, judge_one};
