//! The messages of an exchange as bytes: offers and lists of withdrawn names, encoded, and decoded from untrusted bytes.
#![tactic(auto)]

mod building;
mod fault;
mod fields;
mod head;
mod names;
mod offers;
mod rows;
mod tables;
mod theorem;
mod withdrawals;

pub use fault::{Fault, FieldFault, ItemFault, MessageFault, ReadError};
// The fields of messages, for crates with messages of their own.
pub use fields::{bytes_at, count_at, header_at, header_fault, push_u32, push_u64, u32_at, u64_at};
pub use head::{MessageHead, MessageKind, peek};
pub use names::{name_at, push_name};
pub use offers::{OfferHead, decode_offer, encode_offer, spell_offer};
pub use rows::{MAX_CODE, ResolverText, RowText, place_of, push_code, push_fields, row_at};
pub use tables::{decode_table, encode_table, push_table};
pub use theorem::{one_message_theorem, one_program_theorem, one_table_theorem};
pub use withdrawals::{decode_withdrawals, encode_withdrawals, spell_withdrawals};
