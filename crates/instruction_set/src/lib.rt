//! The instructions of RFC 9669, what each computes, and code made of them.
#![tactic(auto)]

mod code;
mod codes;
mod fields;
mod form;
mod insn;
mod machine;
mod opcode;
mod operations;
mod placed;
mod slots;

pub use code::{Code, CodeBuilder, MAX_SLOTS};
pub use fields::fields_of;
pub use form::{Form, SourceKind};
pub use insn::{AluOp, EndKind, Insn, Register, Size, Source, Test, Width};
pub use machine::{RECORD_LEN, STACK_LEN};
pub use opcode::Opcode;
pub use operations::{alu, end, movsx, neg, results_fit_theorem, test};
pub use placed::PlacedInsns;
pub use slots::{Fields, Role, Roles, SlotFields, layout_theorem};
