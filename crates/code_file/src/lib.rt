//! Reads code from files, and from their bytes: an object file as clang writes it for BPF, hex digits, or the bytes of the
//! code.
#![tactic(auto)]

mod digits;
mod fault;
mod fields;
mod files;
mod object;
mod reading;

pub use digits::decode_digits;
pub use fault::{CodeFileFault, FileFault};
pub use files::{MAX_FILE_LEN, code_from, code_in, digits_from, digits_in, read_whole};
pub use object::{code_in_object, one_code_theorem};
pub use reading::{one_reading_theorem, read_code_file};
