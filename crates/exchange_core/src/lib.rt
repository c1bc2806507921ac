//! One side of an exchange of tables: the calls of `exchange_law` in code, and the theorem over two processes.
#![tactic(auto)]

mod calls;
mod exchange;
mod fault;
mod finished;
mod finishing;
mod halves;
mod journal;
mod limits;
mod messages;
mod name_list;
mod pairing;
mod queries;
mod refusing;
mod renewing;
mod rounds;
mod settling;
mod shown_rows;
mod side;
mod state;
mod with_table;
mod withdrawn_names;

pub use clash_record::SideId;
pub use exchange_law::{events_theorem, history_theorem};
pub use fault::{MissingPart, SideFault};
pub use finished::Finished;
pub use halves::two_halves_theorem;
pub use limits::MAX_EVENTS;
pub use messages::{Offer, Withdrawals};
pub use partition_table::Judged;
pub use rounds::one_round_theorem;
pub use shown_rows::ShownRows;
pub use side::Side;
pub use withdrawn_names::ListFault;
