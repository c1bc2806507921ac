//! Heals the name registries of two halves of a cluster after a split: all that an embedder calls.
//!
//! This crate defines nothing. It re-exports the public items of the crates below, so that an embedder depends on this
//! crate alone. docs/EMBEDDING.md shows how to use it.
//!
//! | task | items | crate |
//! |---|---|---|
//! | heal a split in one process | `Cluster`, `Plan`, `Healing`, `HealFault`, `Workers`, `Gate`, `OpenGate` | `cluster`, `judge_pool` |
//! | run one half | `Side`, `Offer`, `Withdrawals`, `ListFault`, `Finished`, `Judged`, `SideFault`, `history_theorem`, `events_theorem`, `two_halves_theorem` | `exchange_core` |
//! | send messages | `encode_offer`, `decode_offer`, `encode_withdrawals`, `decode_withdrawals`, `peek`, `MessageFault` | `exchange_codec` |
//! | judge clashes | `clashes`, `Clash`, `ClashList`, `word`, `Verdict`, `Ruling` | `partition_table` |
//! | build and merge tables | `Table`, `TableBuilder`, `NameLimit`, `Agreement`, `Rows`, `fit`, `fit_within`, `merge`, `TableFault` | `partition_table` |
//! | keep uploaded programs | `UploadStore`, `Uploaded`, `UploadFault` | `upload_store` |
//! | name and register | `name`, `Name`, `Owner`, `Registration`, `Terms`, `ResolverId`, `SideId`, `Withdrawal` | `clash_record` |
//! | notify owners | `notices`, `Notice`, `Notices`, `Verdict3`, `decide` | `builtin_resolvers` |
//! | report refusals | `Numbered`, `NumberedRefusal`, `Place`, `refusal_of`, `words_of`, `REFUSALS` | `refusals` |
//! | read, write and run programs | the module `programs` | `verifier`, `interpreter`, `assembler_text` and those below |
//! | replicate a half, and keep a log | the module `replicas` | `replica`, `replica_codec` |
//! | judge with several threads | the module `boards` | `verdict_board`, `judge_pool`, `registry_lock` |
//!
//! Limits: 4,096 names in the table of a side, or as many as its owner chooses, up to 1,048,576; 16 events in its journal for
//! each of these names; 256 programs in a store, 1,024 slots in a program, 16 workers, and two halves in an exchange. The crate has no transport and no storage: the embedder delivers
//! messages and notices.
//!
//! Each fault implements `Numbered`. `REFUSALS` has the words of each number, and docs/REFUSALS.md an example.
#![tactic(auto)]

pub mod boards;
pub mod programs;
pub mod replicas;

pub use builtin_resolvers::{Notice, Notices, Verdict3, decide, notices};
pub use clash_record::{
    BadName, Builtin, NAME_LEN, Name, Owner, ProgramId, Registration, ResolverId, SideId, Terms,
    Uptimes, Withdrawal, name,
};
pub use cluster::{Cluster, HealFault, Healing, Plan};
pub use exchange_codec::{
    FieldFault, ItemFault, MessageFault, MessageHead, MessageKind, decode_offer,
    decode_withdrawals, encode_offer, encode_withdrawals, one_message_theorem, peek,
};
pub use exchange_core::{
    Finished, Judged, ListFault, MAX_EVENTS, MissingPart, Offer, ShownRows, Side, SideFault,
    Withdrawals, events_theorem, history_theorem, one_round_theorem, two_halves_theorem,
};
pub use judge_pool::{Gate, MAX_WORKERS, OpenGate, Workers};
pub use partition_table::{
    Agreement, AnsweredClashes, Clash, ClashList, Compared, HalfTable, MAX_NAMES, MergedTable,
    NameLimit, ParentTable, Rows, Ruling, Table, TableBuilder, TableFault, Verdict, clashes,
    compare_within, fit, fit_within, merge, merge_compared, word,
};
pub use refusals::{
    Numbered, NumberedRefusal, OUT_OF_MEMORY, Place, REFUSALS, refusal_of, words_of,
};
pub use registry_lock::MeetFault;
pub use upload_store::{MAX_PROGRAMS, UploadFault, UploadStore, Uploaded};
