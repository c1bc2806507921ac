//! Tables of names, their clashes, and their merge.
#![tactic(auto)]

mod agreement;
mod both;
mod builder;
mod clash;
mod clashing;
mod equality;
mod fault;
mod finder;
mod fitting;
mod judged;
mod judging;
mod laws;
mod limit;
mod merging;
mod order;
mod paired;
mod programs;
mod row_store;
mod rows;
mod shared_registration;
mod shared_rows;
mod stored_rows;
mod table;
mod upcoming;
mod verdict;

pub use agreement::Agreement;
pub use builder::TableBuilder;
pub use clash::{Clash, ClashList};
pub use clashing::{Compared, HalfTable, clashes, compare_within};
pub use fault::TableFault;
pub use finder::Finder;
pub use fitting::{fit, fit_within};
pub use judged::Judged;
pub use judging::{round_of, word};
pub use laws::{clashes_theorem, fit_theorem, merge_theorem};
pub use limit::{MAX_NAMES, NameLimit};
pub use merging::{AnsweredClashes, MergedTable, ParentTable, merge, merge_compared};
pub use rows::Rows;
pub use table::Table;
pub use verdict::{Ruling, Verdict};
