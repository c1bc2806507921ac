//! Accepted programs with their ids.
ghost use Rattle.std.specs.Prelude.{◌≡◌, IfOk};
ghost use Rattle.std.specs.Arc.{arc_value};
ghost use Rattle.verifier.specs.Programs.{IsAccepted};
ghost use Rattle.upload_store.specs.Programs.{IsProgram, id_of};

use clash_record::ProgramId;
use sha2::{Digest, Sha256};
use std::alloc::{AllocError, Global};
use std::marker::Model;
use std::sync::Arc;
use verifier::Verified;

/// An accepted program, and its id: the SHA-256 digest of the bytes that spell it (FIPS 180-4).
#[derive(Debug, Drop)]
pub struct Upload {
    pub(crate) id: ProgramId,
    pub(crate) program: Arc<Verified>,
}

impl Model for Upload {
    ghost use Rattle.std.specs.Arc.{arc_value};
    ghost use Rattle.upload_store.specs.Programs.{Upload, coded_upload, IsProgram};

    ghost Value = { Upload };

    ghost coded = { coded_upload };

    ghost view = { λ u. record { id = u.id; code = arc_value u.program } };

    ghost invariant = { λ u. IsProgram u.id (arc_value u.program) };
}

impl Upload {
    /// Returns the program with the id of its bytes. Requires that the bytes spell it, as `read_program` ensures. Allocates
    /// the room that its owners share.
    pub fn new(alloc: Global, bytes: &[u8], program: Verified) -> Result<Upload, AllocError>
        requires { IsAccepted bytes.now program }
        ensures { IfOk result (λ upload. upload ≡ record { id = id_of bytes.now; code = program }) }
    {
        // For the proof: verified code is safe.
        program.code();
        let id = ProgramId(Sha256::digest(bytes));
        match Arc::new(alloc, program) {
            Ok(program) => Ok(Upload { id, program }),
            Err(_) => Err(AllocError),
        }
    }

    /// Returns the id. Allocates nothing.
    pub fn id(&self) -> ProgramId
        ensures id { result ≡ self.now.id }
        // The code is safe, and the bytes that spell it are accepted and have this id.
        ensures program { IsProgram self.now.id self.now.code }
    {
        self.id
    }

    /// Returns the program. Allocates nothing.
    pub fn program(&self) -> &Arc<Verified>
        ensures { arc_value result.now ≡ self.now.code }
    {
        &self.program
    }

    /// Returns the same program with one more owner. Copies no code.
    pub fn share(&self) -> Result<Upload, AllocError>
        ensures { IfOk result (λ upload. upload ≡ self.now) }
    {
        Ok(Upload {
            id: self.id,
            program: self.program.clone()?,
        })
    }
}
