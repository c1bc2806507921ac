//! What handles hold, borrowed. Nothing here writes a handle.
ghost use Rattle.std.specs.Prelude.{◌≡◌, Some, None, MatchOption};
ghost use Rattle.std.specs.Borrow.{sem, LendsIf};
ghost use Rattle.c_calls.specs.contracts.half.Half as half_row;
ghost use Rattle.heal_c.specs.contracts.side_handle.HealSide as side_handle;
ghost use Rattle.upload_store.specs.contracts.accepted.Upload as program_row;
ghost use Rattle.heal_c.specs.contracts.program_handle.HealProgram as program_handle;
ghost use Rattle.c_calls.specs.contracts.message.Message as message_row;
ghost use Rattle.heal_c.specs.contracts.message_handle.HealBytes as message_handle;
ghost use Rattle.c_calls.specs.contracts.outcome.Outcome as outcome_row;
ghost use Rattle.heal_c.specs.contracts.outcome_handle.HealOutcome as outcome_handle;
ghost use Rattle.replica.specs.contracts.replica.Replica as replica_row;
ghost use Rattle.heal_c.specs.contracts.replica_handle.HealReplica as replica_handle;
ghost use Rattle.bpf.specs.contracts.sandbox.Sandbox as sandbox_row;
ghost use Rattle.heal_c.specs.contracts.sandbox_handle.HealSandbox as sandbox_handle;
ghost use Rattle.heal_c.specs.Lending.{StaysLent};
ghost use Rattle.heal_c.specs.Lent.{holding_half, holding_program, holding_message, holding_outcome, holding_replica, holding_sandbox};

use crate::message_handle::HealBytes;
use crate::outcome_handle::HealOutcome;
use crate::program_handle::HealProgram;
use crate::replica_handle::HealReplica;
use crate::sandbox_handle::HealSandbox;
use crate::side_handle::HealSide;
use bpf::Sandbox;
use c_calls::{Half, Message, Outcome};
use replica::Replica;
use upload_store::Upload;

impl HealSide {
    // Borrows the side.
    pub(crate) fn held(&mut self) -> Option<&mut Half>
        ensures* writes_back { sem 𝓛 (LendsIf side_handle.the_row half_row.the_row self.entry result (holding_half self.old) self.old) }
        ensures value { MatchOption result (self.old.half ≡ None) (λ held. self.old.half ≡ Some held.now) }
    {
        let at = self.at;
        if at.is_null() {
            None
        } else {
            Some(unsafe { &mut *(at as *mut Half) })
        }
    }
}

impl HealProgram {
    // Borrows the program.
    pub(crate) fn held(&mut self) -> Option<&mut Upload>
        ensures* writes_back { sem 𝓛 (LendsIf program_handle.the_row program_row.the_row self.entry result (holding_program self.old) self.old) }
        ensures value { MatchOption result (self.old.program ≡ None) (λ held. self.old.program ≡ Some held.now) }
    {
        let at = self.at;
        if at.is_null() {
            None
        } else {
            Some(unsafe { &mut *(at as *mut Upload) })
        }
    }
}

impl HealBytes {
    // Borrows the message.
    pub(crate) fn held(&mut self) -> Option<&mut Message>
        ensures* writes_back { sem 𝓛 (LendsIf message_handle.the_row message_row.the_row self.entry result (holding_message self.old) self.old) }
        ensures value { MatchOption result (self.old.message ≡ None) (λ held. self.old.message ≡ Some held.now) }
    {
        let at = self.at;
        if at.is_null() {
            None
        } else {
            Some(unsafe { &mut *(at as *mut Message) })
        }
    }

    // Lends the bytes of the message.
    pub(crate) fn lent(&mut self) -> Option<&[u8]>
        ensures* stays { sem 𝓛 (StaysLent self.entry) }
        ensures value { MatchOption result (self.old.message ≡ None) (λ lent. self.old.message ≡ Some lent.now) }
    {
        match self.held() {
            Some(held) => Some(held.bytes()),
            None => None,
        }
    }
}

impl HealOutcome {
    // Borrows the outcome.
    pub(crate) fn held(&mut self) -> Option<&mut Outcome>
        ensures* writes_back { sem 𝓛 (LendsIf outcome_handle.the_row outcome_row.the_row self.entry result (holding_outcome self.old) self.old) }
        ensures value { MatchOption result (self.old.outcome ≡ None) (λ held. self.old.outcome ≡ Some held.now) }
    {
        let at = self.at;
        if at.is_null() {
            None
        } else {
            Some(unsafe { &mut *(at as *mut Outcome) })
        }
    }
}

impl HealReplica {
    // Borrows the replica.
    pub(crate) fn held(&mut self) -> Option<&mut Replica>
        ensures* writes_back { sem 𝓛 (LendsIf replica_handle.the_row replica_row.the_row self.entry result (holding_replica self.old) self.old) }
        ensures value { MatchOption result (self.old.replica ≡ None) (λ held. self.old.replica ≡ Some held.now) }
    {
        let at = self.at;
        if at.is_null() {
            None
        } else {
            Some(unsafe { &mut *(at as *mut Replica) })
        }
    }
}

impl HealSandbox {
    // Borrows the sandbox.
    pub(crate) fn held(&mut self) -> Option<&mut Sandbox>
        ensures* writes_back { sem 𝓛 (LendsIf sandbox_handle.the_row sandbox_row.the_row self.entry result (holding_sandbox self.old) self.old) }
        ensures value { MatchOption result (self.old.sandbox ≡ None) (λ held. self.old.sandbox ≡ Some held.now) }
    {
        let at = self.at;
        if at.is_null() {
            None
        } else {
            Some(unsafe { &mut *(at as *mut Sandbox) })
        }
    }
}
