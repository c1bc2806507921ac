//! The registry as a C library. `bindings/c/heal.h` describes each call.
#![tactic(auto)]

mod exchange_exports;
mod fault_exports;
mod handle_loans;
mod head_exports;
mod log_exports;
mod message_exports;
mod message_handle;
mod outcome_exports;
mod outcome_handle;
mod process_laws;
mod program_exports;
mod program_handle;
mod record_exports;
mod refusal_exports;
mod replica_edit_exports;
mod replica_exports;
mod replica_handle;
mod sandbox_exports;
mod sandbox_handle;
mod side_exports;
mod side_handle;
mod side_query_exports;
mod version_exports;

pub use c_calls::{
    HealClash, HealEnded, HealFacts, HealName, HealNotice, HealOwner, HealRegistration, HealRow,
    HealSideState,
};
pub use c_replicas::{HealLife, HealLogFront, HealPosition, HealReplicaState};
pub use fault_exports::HealFault;
pub use head_exports::HealHead;
pub use message_exports::HealSpan;
pub use message_handle::HealBytes;
pub use outcome_handle::HealOutcome;
pub use process_laws::two_processes_theorem;
pub use program_handle::HealProgram;
pub use replica_handle::HealReplica;
pub use sandbox_handle::HealSandbox;
pub use side_handle::HealSide;
