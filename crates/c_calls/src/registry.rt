//! The calls of a half on its table and its programs.
ghost use Rattle.std.specs.Prelude.{◌≡◌};
ghost use Rattle.c_calls.specs.Sides.{IsUpload, id_in, Registers, RegistersEntry, Unregisters, UnregistersName, Renews, GaveUp, IsNewHalf, found_at, row_after, row_code_at};

use crate::answer::{NOT_REGISTERED, number_of, slot_in};
use crate::codes::{HealRegistration, HealRow, name_of, registration_code, registration_of};
use crate::half::{Half, forget};
use crate::rows::{row_in, row_in_after};
use clash_record::{Name, ProgramId, Registration, SideId};
use exchange_core::Side;
use partition_table::{Agreement, NameLimit};
use refusals::Numbered;
use std::alloc::Global;
use upload_store::{UploadFault, UploadStore};

impl Half {
    /// Returns an idle half of this limit without names and programs.
    pub fn new(alloc: Global, id: SideId, limit: NameLimit) -> Half
        ensures { IsNewHalf limit.names id result }
    {
        Half::of(Side::with_limit(alloc, id, limit), UploadStore::new(alloc))
    }

    /// Keeps a program for registrations, and writes its id and the slot of the refusal.
    #[tactic(auto, using(crate::proofs::Uploading::upload_done))]
    pub fn upload(&mut self, alloc: Global, code: &[u8], id: &mut [u8; 32], slot: &mut u32) -> u32
        ensures { IsUpload code.now self.old self.new id.old id.new result slot.new }
    {
        forget(&mut self.agreement);
        let uploaded = self.store.upload(alloc, code);
        *slot = slot_in(&uploaded);
        let bytes = id_in(&uploaded, *id);
        *id = bytes;
        number_of(&uploaded)
    }

    /// Registers a name on an idle side. Compares the code of the program that it names with the table's code under its id only
    /// if it isn't known to agree.
    pub fn register(&mut self, alloc: Global, bytes: &[u8], registration: &HealRegistration) -> u32
        ensures { Registers bytes.now registration.now self.old self.new result }
    {
        let name = match name_of(bytes) {
            Ok(name) => name,
            Err(number) => return number,
        };
        let registration = match registration_of(registration) {
            Ok(registration) => registration,
            Err(number) => return number,
        };
        self.register_entry(alloc, name, registration)
    }

    // Registers a valid name with this registration.
    fn register_entry(&mut self, alloc: Global, name: Name, registration: Registration) -> u32
        ensures { RegistersEntry (name, registration) self.old self.new result }
    {
        if self.agreement.is_none() {
            self.agreement = Some(Agreement::new(alloc, self.side.table(), &self.store));
        }
        let Some(agreement) = &mut self.agreement else {
            unreachable!()
        };
        number_of(
            &self
                .side
                .register_agreed(name, registration, &self.store, agreement),
        )
    }

    /// Unregisters a name on an idle side.
    pub fn unregister(&mut self, bytes: &[u8]) -> u32
        ensures { Unregisters bytes.now self.old self.new result }
    {
        match name_of(bytes) {
            Ok(name) => self.unregister_name(&name),
            Err(number) => number,
        }
    }

    // Unregisters a valid name. The agreement follows.
    fn unregister_name(&mut self, name: &Name) -> u32
        ensures { UnregistersName name.now self.old self.new result }
    {
        match self.side.unregister(name) {
            Ok(_) => {
                if let Some(agreement) = &mut self.agreement {
                    agreement.follow_removal(name, self.side.table());
                }
                0
            }
            Err(fault) => fault.number(),
        }
    }

    /// Starts a fresh journal on an idle side.
    pub fn renew(&mut self) -> u32
        ensures { Renews self.old self.new result }
    {
        forget(&mut self.agreement);
        number_of(&self.side.renew())
    }

    /// Gives the open exchange up, if there is one, and starts a fresh journal.
    pub fn give_up(&mut self)
        ensures { GaveUp self.old self.new }
    {
        forget(&mut self.agreement);
        self.side.give_up();
    }

    /// Looks a name up.
    pub fn whereis(&self, bytes: &[u8]) -> Result<HealRegistration, u32>
        ensures { result ≡ found_at bytes.now self.now }
    {
        let name = name_of(bytes)?;
        match self.side.whereis(&name) {
            Some(registration) => Ok(registration_code(registration)),
            None => Err(NOT_REGISTERED),
        }
    }

    /// Returns row `i` of the table.
    pub fn row(&self, i: usize) -> Result<HealRow, u32>
        ensures { result ≡ row_code_at i self.now }
    {
        row_in(self.side.table(), i)
    }

    /// Returns the first row of the table above the name.
    pub fn row_after(&self, bytes: &[u8]) -> Result<HealRow, u32>
        ensures { result ≡ row_after bytes.now self.now }
    {
        row_in_after(self.side.table(), bytes)
    }
}

// Returns the id of a kept program, or this one.
fn id_in(uploaded: &Result<ProgramId, UploadFault>, id: [u8; 32]) -> [u8; 32]
    ensures { result ≡ id_in uploaded.now id }
{
    match uploaded {
        Ok(kept) => kept.0,
        Err(_) => id,
    }
}
