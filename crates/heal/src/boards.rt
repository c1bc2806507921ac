//! Boards: the clashes of an exchange, judged by several threads of one process.
//!
//! | task | items | crate |
//! |---|---|---|
//! | draw clashes, post verdicts, read rulings | `open`, `Board`, `Seat`, `Draw`, `Pass`, `Posted` | `verdict_board` |
//! | judge with workers | `heal_round`, `RoundDone`, `Workers`, `work`, `Done`, `judge`, `Gate`, `Ear` | `judge_pool` |
//! | share a side between threads | `Partition` | `registry_lock` |
//! | let two sides take the rulings, and compare their outcomes | `tell_round`, `tell_round_by`, `Judging`, `meet`, `Healed` | `registry_lock` |
//! | state that all callers see one ruling | `seen_theorem` | `registry_lock` |
//!
//! Drawing, posting and reading never wait. `heal_round` and `tell_round` wait for their workers, and `Partition` waits
//! for its lock.

pub use judge_pool::{Done, Ear, Gate, OpenGate, RoundDone, Workers, heal_round, judge, work};
pub use registry_lock::{
    Healed, Judging, Partition, meet, seen_theorem, tell_round, tell_round_by,
};
pub use verdict_board::{Board, Draw, Pass, Posted, Seat, open};
