//! Verified code.
ghost use Rattle.std.specs.Prelude.{◌≡◌};
ghost use Rattle.std.specs.List.{list_any};
ghost use Rattle.verifier.specs.Stores.{is_store};

use instruction_set::{Code, Insn};
use std::marker::Model;

/// Code that is safe for contexts of one length, from 0 to 65,535 bytes: on each of them it ends with one answer at every
/// placement, in at most as many steps as it has instructions.
///
/// Contracts see it as the list of its instructions and the length.
#[derive(Debug)]
pub struct VerifiedFor {
    code: Code,
    stores: bool,
    context_len: u16,
}

// Written out, so that a drop is one call in the proofs of callers.
impl Drop for VerifiedFor {
    fn drop(self) {
        let VerifiedFor {
            code: _,
            stores: _,
            context_len: _,
        } = self;
    }
}

impl Model for VerifiedFor {
    ghost use Rattle.verifier.specs.Stores.{CodeFor, IsRunnableFor, code_with_len};

    ghost Value = { CodeFor };

    ghost view = { λ v. code_with_len v.code v.context_len };

    ghost invariant = { λ v. IsRunnableFor v.context_len v.code v.stores };
}

impl VerifiedFor {
    ghost use Rattle.std.specs.Prelude.{◌≡◌};
    ghost use Rattle.std.specs.List.{list_any};
    ghost use Rattle.instruction_set.specs.Machine.{IsSafeFor};
    ghost use Rattle.verifier.specs.Structure.{IsStructured};
    ghost use Rattle.verifier.specs.Stores.{code_with_len, is_store};

    /// Marks code that is structured, and safe for contexts of this length, as verified.
    pub(crate) fn new(code: Code, context_len: u16) -> VerifiedFor
        requires safe { IsSafeFor context_len code }
        requires structured { IsStructured code }
        ensures { result ≡ code_with_len code context_len }
    {
        let stores = has_store(code.insns());
        VerifiedFor {
            code,
            stores,
            context_len,
        }
    }

    /// Returns the code, which is safe for contexts of its length and has no backward jump.
    pub fn code(&self) -> &Code
        ensures code { result.now ≡ self.now.code }
        ensures safe { IsSafeFor self.now.context_len self.now.code }
        ensures structured { IsStructured self.now.code }
    {
        &self.code
    }

    /// Returns the length of its contexts.
    pub fn context_len(&self) -> u16
        ensures { result ≡ self.now.context_len }
    {
        self.context_len
    }

    /// Returns whether some instruction of the code writes memory.
    pub fn stores(&self) -> bool
        ensures { result ≡ list_any is_store self.now.code }
    {
        self.stores
    }
}

/// Safe code: on each record it ends with one answer at every placement, in at most as many steps as it has
/// instructions.
///
/// Contracts see it as the list of its instructions.
#[derive(Debug)]
pub struct Verified {
    verified: VerifiedFor,
}

// Written out, so that a drop is one call in the proofs of callers.
impl Drop for Verified {
    fn drop(self) {
        let Verified { verified: _ } = self;
    }
}

impl Model for Verified {
    ghost use Rattle.std.specs.Prelude.{◌≡◌, List};
    ghost use Rattle.instruction_set.specs.declared.insn.Insn.{Insn};
    ghost use Rattle.instruction_set.specs.Machine.{record_len};

    ghost Value = { List Insn };

    ghost view = { λ v. v.verified.code };

    ghost invariant = { λ v. v.verified.context_len ≡ record_len };
}

impl Verified {
    ghost use Rattle.std.specs.Prelude.{◌≡◌};
    ghost use Rattle.std.specs.List.{list_any};
    ghost use Rattle.instruction_set.specs.Machine.{IsSafe, record_len};
    ghost use Rattle.verifier.specs.Structure.{IsStructured};
    ghost use Rattle.verifier.specs.Stores.{is_store};

    /// Marks code that was verified for contexts of the length of a record as verified for records.
    pub(crate) fn new(verified: VerifiedFor) -> Verified
        requires { verified.context_len ≡ record_len }
        ensures { result ≡ verified.code }
    {
        Verified { verified }
    }

    /// Returns the code, which is safe and has no backward jump.
    pub fn code(&self) -> &Code
        ensures code { result.now ≡ self.now }
        ensures safe { IsSafe self.now }
        ensures structured { IsStructured self.now }
    {
        self.verified.code()
    }

    /// Returns whether some instruction of the code writes memory.
    pub fn stores(&self) -> bool
        ensures { result ≡ list_any is_store self.now }
    {
        self.verified.stores()
    }
}

// Returns whether some instruction writes memory.
fn has_store(insns: &[Insn]) -> bool
    ensures { result ≡ list_any is_store insns.now }
{
    insns.iter().any(|insn| matches!(insn, Insn::Store { .. } | Insn::StoreImm { .. }))
}
