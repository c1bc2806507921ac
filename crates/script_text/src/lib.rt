//! The text of scripts: the lines of an input, their commands, and the lines of the output.
#![tactic(auto)]

mod command;
mod fault;
mod input;
mod numbers;
mod parsing;
mod printing;
mod words;

pub use command::Command;
pub use fault::LineFault;
pub use input::{Found, LINE_LIMIT, LineBuffer, ReadBuffer, ReadFailed, Stop, next_line};
pub use numbers::long;
pub use parsing::{command_of, name_in, terms};
pub use printing::{
    print_clash, print_code_count, print_healed, print_notice, print_number, print_owner,
    print_owner_line, print_refusal, print_row, print_withdrawal,
};
pub use words::words_in;
