//! The store.
ghost use Rattle.std.specs.Prelude.{◌≡◌, ◌≤◌, ◌↔◌, IsTrue, Ok, Err, IfOk, IfErr, IfSome, OnOk, OnErr};
ghost use Rattle.std.specs.Option.{option_map};
ghost use Rattle.std.specs.Arc.{arc_value};
ghost use Rattle.std.specs.FinMap as map;
ghost use Rattle.refusals.specs.Answers.{HasCause, IsAnswered, ReturnsOrRunsOut};
ghost use Rattle.upload_store.specs.declared.fault.UploadFault.{UploadFault};
ghost use Rattle.upload_store.specs.Programs.{IsProgram, id_of, mapped};
ghost use Rattle.upload_store.specs.Uploads.{uploaded_as, keep_fault, Fits, HasPlace, IsKept, IsRejection, IsUnaccepted, IsUploadFault, IsUploaded};
ghost use Rattle.upload_store.specs.Faults.{upload_fault_number};
ghost use Rattle.upload_store.specs.model.Keeping.{IsKeepingFault};

use crate::accepted::Upload;
use crate::fault::UploadFault;
use clash_record::ProgramId;
use insn_codec::one_reading_theorem;
use sha2::{Digest, Sha256};
use std::alloc::{AllocError, Global};
use std::collections::{BTreeMap, btree_map};
use std::marker::Model;
use std::sync::Arc;
use verifier::{Verified, read_program};

/// The most programs that a store holds.
pub const MAX_PROGRAMS: usize = 256;

/// The id of an uploaded program, and the number of its instructions.
#[derive(Clone, Copy, Debug, PartialEq, Eq)]
pub struct Uploaded {
    /// The id: the SHA-256 digest of the program's bytes.
    pub id: ProgramId,
    /// The number of instructions.
    pub len: usize,
}

/// At most 256 uploaded programs: safe code, each under the SHA-256 digest of the bytes that spell it (FIPS 180-4).
///
/// Contracts see it as the finite map from ids to code.
#[derive(Debug)]
pub struct UploadStore {
    programs: BTreeMap<ProgramId, Arc<Verified>>,
}

// Written out, so that a drop is one call in the proofs of callers.
impl Drop for UploadStore {
    fn drop(self) {
        let UploadStore { programs: _ } = self;
    }
}

impl Model for UploadStore {
    ghost use Rattle.std.specs.Arc.{arc_value};
    ghost use Rattle.upload_store.specs.Programs.{programs_by, Programs, coded_programs};
    ghost use Rattle.upload_store.specs.model.Keeping.{AreKept};

    ghost Value = { Programs };

    ghost coded = { coded_programs };

    ghost view = { λ s. programs_by arc_value s.programs.entries };

    ghost invariant = { λ s. AreKept arc_value s.programs.entries };
}

impl UploadStore {
    /// Creates a store without programs. Allocates nothing.
    pub fn new(alloc: Global) -> UploadStore
        ensures { result ≡ map.empty }
    {
        UploadStore {
            programs: BTreeMap::new(alloc),
        }
    }

    /// Returns the number of programs, at most 256. Allocates nothing.
    pub fn len(&self) -> usize
        ensures count { result ≡ map.len self.now }
        ensures few { result ≤ MAX_PROGRAMS }
    {
        self.programs.len()
    }

    /// Checks whether the store is empty. Allocates nothing.
    pub fn is_empty(&self) -> bool
        ensures { IsTrue result ↔ (map.len self.now ≡ 0) }
    {
        self.programs.is_empty()
    }

    /// Returns the program with this id, if any. Allocates nothing.
    pub fn get(&self, id: &ProgramId) -> Option<&Arc<Verified>>
        ensures code { option_map (λ program. arc_value program.now) result ≡ map.get self.now id.now }
        // It is safe code, and the bytes that spell it are accepted and have this id.
        ensures program { IfSome result (λ program. IsProgram id.now (arc_value program.now)) }
    {
        self.programs.get(id)
    }

    /// Forgets the program with this id, and returns it, if there is one. Allocates nothing.
    ///
    /// A table that has the program keeps it: what a store forgets can only not be registered any more.
    pub fn forget(&mut self, id: &ProgramId) -> Option<Arc<Verified>>
        ensures program { option_map arc_value result ≡ map.get self.old id.now }
        ensures forgotten { self.new ≡ map.remove self.old id.now }
    {
        self.programs.remove(id)
    }

    /// Iterates over the ids and their programs in the order of ids. Allocates nothing.
    pub fn programs(&self) -> btree_map::Iter<'_, ProgramId, Arc<Verified>>
        ensures { mapped arc_value result ≡ map.entries self.now }
    {
        self.programs.iter()
    }

    /// Keeps the program that these bytes spell, and returns its id: the SHA-256 digest of the bytes (FIPS 180-4).
    ///
    /// Bytes that are already kept return their id again, also in a full store. Rejects bytes that spell no code (1 to
    /// 7), code that breaks a rule of the verifier (10 to 26), an id that other code has (42) and a new program in a full
    /// store (43), with the least of these numbers. Returns 90 when out of memory: it allocates the code, the states of
    /// the verifier and one entry. A refused call changes nothing.
    pub fn upload(&mut self, alloc: Global, bytes: &[u8]) -> Result<ProgramId, UploadFault>
        // The bytes spell accepted code, the id is their digest, and the store is unchanged but for that code.
        ensures kept { IfOk result (λ id. IsKept self.old bytes.now id self.new) }
        // Accepted code that has a place is kept, unless memory runs out.
        ensures taken { Fits self.old bytes.now → ReturnsOrRunsOut upload_fault_number result (Ok (id_of bytes.now)) }
        // A refusal has its cause, and leaves the store unchanged.
        ensures refused { IfErr result (HasCause upload_fault_number (IsUploadFault self.old bytes.now)) }
        ensures unchanged { OnErr result (self.new ≡ self.old) }
        // Each cause has its refusal, unless memory runs out: a fault of the bytes, other code under their id, and a new
        // id in a full store.
        ensures reported { (f : UploadFault) → IsUploadFault self.old bytes.now f
            → ReturnsOrRunsOut upload_fault_number result (Err f) }
        // Code that the verifier doesn't accept is refused by a rule.
        ensures rejected { IsUnaccepted bytes.now → IsRejection result }
    {
        let uploaded = self.upload_program(alloc, bytes)?;
        Ok(uploaded.id)
    }

    /// Keeps a program like `upload`, and also returns the number of its instructions.
    pub fn upload_program(&mut self, alloc: Global, bytes: &[u8]) -> Result<Uploaded, UploadFault>
        // The bytes are kept as by `upload`, and the count is that of their code.
        ensures kept { IfOk result (λ uploaded. IsUploaded self.old bytes.now uploaded self.new) }
        // Accepted code that has a place is kept, unless memory runs out.
        ensures taken { (fits : Fits self.old bytes.now)
            → ReturnsOrRunsOut upload_fault_number result (Ok (uploaded_as (id_of bytes.now) fits.code)) }
        // A refusal has its cause, and leaves the store unchanged.
        ensures refused { IfErr result (HasCause upload_fault_number (IsUploadFault self.old bytes.now)) }
        ensures unchanged { OnErr result (self.new ≡ self.old) }
        // Each cause has its refusal, unless memory runs out.
        ensures reported { (f : UploadFault) → IsUploadFault self.old bytes.now f
            → ReturnsOrRunsOut upload_fault_number result (Err f) }
        // Code that the verifier doesn't accept is refused by a rule.
        ensures rejected { IsUnaccepted bytes.now → IsRejection result }
    {
        // For the proof: bytes have one reading.
        one_reading_theorem();
        let program = read_program(alloc, bytes)?;
        let id = ProgramId(Sha256::digest(bytes));
        self.keep(alloc, id, program)
    }

    // Keeps a program under its id, unless other code has the id or the store is full.
    fn keep(
        &mut self,
        alloc: Global,
        id: ProgramId,
        program: Verified,
    ) -> Result<Uploaded, UploadFault>
        requires { IsProgram id program }
        ensures answer { IfOk result (λ uploaded. uploaded ≡ uploaded_as id program) }
        ensures place { OnOk result (HasPlace self.old id program) }
        ensures kept { OnOk result (self.new ≡ map.insert self.old id program) }
        ensures refused { IfErr result (HasCause upload_fault_number (IsKeepingFault self.old id program)) }
        ensures unchanged { OnErr result (self.new ≡ self.old) }
    {
        let uploaded = Uploaded {
            id,
            len: program.code().len(),
        };
        let Ok(program) = Arc::new(alloc, program) else {
            return Err(UploadFault::OutOfMemory);
        };
        // For the proof: a store has at most 256 programs.
        let _ = &self.programs;
        self.keep_upload(&Upload { id, program })?;
        Ok(uploaded)
    }

    /// Keeps an accepted program under its id. One that is kept already changes nothing, also in a full store.
    ///
    /// Returns 42 if other code has the id, and 43 for a new program in a full store. Returns 90 when out of memory: it
    /// allocates one entry, and one more owner of the program.
    pub fn keep_upload(&mut self, upload: &Upload) -> Result<(), UploadFault>
        ensures answer { IsAnswered upload_fault_number (keep_fault self.old upload.now) result }
        // 42 and 43 come also when out of memory.
        ensures refused { IfSome (keep_fault self.old upload.now) (λ fault. result ≡ Err fault) }
        ensures kept { OnOk result (self.new ≡ map.insert self.old upload.now.id upload.now.code) }
        ensures unchanged { OnErr result (self.new ≡ self.old) }
    {
        if let Some(kept) = self.programs.get(&upload.id) {
            if kept.code() == upload.program.code() {
                return Ok(());
            }
            return Err(UploadFault::DigestClash);
        }
        if self.programs.len() >= MAX_PROGRAMS {
            return Err(UploadFault::StoreFull);
        }
        let program: Result<_, _> = upload.program.clone();
        let Ok(program) = program else {
            return Err(UploadFault::OutOfMemory);
        };
        match self.programs.insert(upload.id, program) {
            Ok(_) => Ok(()),
            Err(_) => Err(UploadFault::OutOfMemory),
        }
    }

    /// Copies the store. Allocates the entries, and one more owner of each program.
    pub fn try_clone(&self) -> Result<UploadStore, AllocError>
        ensures { IfOk result (λ store. store ≡ self.now) }
    {
        Ok(UploadStore {
            programs: self.programs.clone()?,
        })
    }
}
