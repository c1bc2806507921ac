//! The programs that a half keeps.
ghost use Rattle.std.specs.Prelude.{◌≡◌, ℕ, List, Option, None, IfOk, IfSome, IsOk, slice_get, is_some};
ghost use Rattle.std.specs.Arc.{arc_value};
ghost use Rattle.std.specs.List.{flat_map, list_any};
ghost use Rattle.std.specs.Option.{option_map};
ghost use Rattle.std.specs.FinMap as map;
ghost use Rattle.instruction_set.specs.declared.insn.Insn.{Insn};
ghost use Rattle.insn_codec.specs.Encoding.{insn_bytes};
ghost use Rattle.c_calls.specs.Answers.{held_after, returned_number};
ghost use Rattle.c_calls.specs.Kept.{Forgets, GivesCode, HasCodeUnder, id_from, is_by, program_at};

use crate::answer::{INDEX_OUT_OF_RANGE, STILL_NAMED, UNKNOWN_PROGRAM};
use crate::half::{Half, forget};
use crate::message::{Message, boxed};
use clash_record::{ProgramId, ResolverId};
use insn_codec::encode;
use partition_table::Rows;
use refusals::OUT_OF_MEMORY;
use std::alloc::Global;
use std::collections::btree_map;
use std::sync::Arc;
use upload_store::UploadStore;
use verifier::Verified;

impl Half {
    /// Forgets a kept program that no row names, or returns 94 or 41.
    pub fn forget(&mut self, id: &[u8; 32]) -> u32
        ensures { Forgets id.now self.old self.new result }
    {
        forget(&mut self.agreement);
        let id = ProgramId(*id);
        if has_user(self.side.table().rows(), &id) {
            return STILL_NAMED;
        }
        if !is_kept(&self.store, &id) {
            return UNKNOWN_PROGRAM;
        }
        self.store.forget(&id);
        0
    }

    /// Returns the id of kept program `i`, or 92.
    pub fn program(&self, i: usize) -> Result<[u8; 32], u32>
        ensures { result ≡ program_at i self.now }
    {
        match nth_kept(&self.store, i) {
            Some(id) => Ok(id.0),
            None => Err(INDEX_OUT_OF_RANGE),
        }
    }

    /// Returns the bytes of a program that the half keeps or that a row names, or 41.
    pub fn code(&self, alloc: Global, id: &[u8; 32]) -> Result<Box<Message>, u32>
        ensures { (before : Option (List ℕ)) → GivesCode (id_from id.now) self.now before
            (held_after (λ made. made.value) before result) (returned_number (λ n. n) result) }
    {
        match self.program_with(&ProgramId(*id)) {
            Some(program) => match boxed(alloc, encode(alloc, program.code())) {
                Ok(code) => Ok(code),
                Err(_) => Err(OUT_OF_MEMORY),
            },
            None => Err(UNKNOWN_PROGRAM),
        }
    }

    // Returns the program with this id that the half keeps or that a row names.
    #[tactic(auto, using(crate::proofs::Keeping::stored, crate::proofs::Keeping::named, crate::proofs::Keeping::neither))]
    fn program_with(&self, id: &ProgramId) -> Option<&Arc<Verified>>
        ensures found { IfSome result (λ program. HasCodeUnder id.now self.now (arc_value program.now)) }
        ensures missing { result ≡ None → (code : List Insn) → HasCodeUnder id.now self.now code → ⊥ }
    {
        match self.store.get(id) {
            Some(program) => Some(program),
            None => self.side.table().program_for(ResolverId::Program(*id)),
        }
    }
}

// Checks whether the store has the program.
fn is_kept(store: &UploadStore, id: &ProgramId) -> bool
    ensures { result ≡ is_some (map.get store.now id.now) }
{
    match store.get(id) {
        Some(_) => true,
        None => false,
    }
}

// Checks whether one of these rows names the program.
fn has_user(rows: Rows<'_>, id: &ProgramId) -> bool
    ensures { result ≡ list_any (λ row. is_by id.now row.1.resolver) rows.entry }
{
    let mut rest = rows;
    while let Some((_, registration)) = rest.next() {
        if is_by(id, registration.resolver) {
            return true;
        }
    }
    false
}

// Checks whether the resolver is the program.
fn is_by(id: &ProgramId, resolver: ResolverId) -> bool
    ensures { result ≡ is_by id.now resolver }
{
    match resolver {
        ResolverId::Builtin(_) => false,
        ResolverId::Program(program) => program.cmp(id).is_eq(),
    }
}

// Returns the id of kept program `i`.
#[tactic(auto, using(crate::proofs::Keeping::id_of_mapped))]
fn nth_kept(store: &UploadStore, i: usize) -> Option<&ProgramId>
    ensures { option_map (λ id. id.now) result ≡ option_map (λ e. e.0) (slice_get (map.entries store.now) i) }
{
    nth_id(store.programs(), i)
}

// Returns the id of program `i` of these.
fn nth_id(programs: btree_map::Iter<'_, ProgramId, Arc<Verified>>, i: usize) -> Option<&ProgramId>
    ensures { option_map (λ id. id.now) result ≡ option_map (λ e. e.0) (slice_get programs.entry i) }
{
    let mut rest = programs;
    let mut left = i;
    while let Some((id, _)) = rest.next() {
        if left == 0 {
            return Some(id);
        }
        left -= 1;
    }
    None
}
