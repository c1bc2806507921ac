//! The programs that a table keeps, each under its id.
ghost use Rattle.std.specs.Prelude.{◌≡◌, ◌+◌, ◌-◌, ◌<◌, Some, IfOk, OnOk, OnErr, IfErr, IsTrue, ◌↔◌, false};
ghost use Rattle.std.specs.Option.{option_map};
ghost use Rattle.std.specs.Arc.{arc_value};
ghost use Rattle.std.specs.FinMap.{insert};
ghost use Rattle.clash_record.specs.declared.registrations.ResolverId.TheVariants.{Program};
ghost use Rattle.partition_table.specs.declared.fault.TableFault.TheVariants.{UnknownProgram};
ghost use Rattle.partition_table.specs.Faults.{is_known};
ghost use Rattle.clash_record.specs.declared.registrations.ProgramId.{ProgramId};
ghost use Rattle.partition_table.specs.Tables.{IsCodeOf, code_for, most_names};
ghost use Rattle.partition_table.specs.model.Keeping.{kept_code, rows_kept, is_of, last_of, with_code, without_code, has_room_for, programs_agree};
ghost use Rattle.partition_table.specs.model.Coding.{AreOthersOf};
ghost use Rattle.upload_store.specs.Programs.{programs_by};

use crate::fault::TableFault;
use clash_record::{ProgramId, ResolverId};
use std::alloc::{AllocError, Global};
use std::collections::BTreeMap;
use std::sync::Arc;
use upload_store::UploadStore;
use verifier::Verified;

// A program, and the number of rows that name it.
#[derive(Debug, Drop)]
pub(crate) struct Kept {
    pub(crate) program: Arc<Verified>,
    pub(crate) rows: usize,
}

impl Clone for Kept {
    ghost is_clone = { λ kept copy. (kept_code copy ≡ kept_code kept) × (copy.rows ≡ kept.rows) };

    fn clone(&self) -> Result<Kept, AllocError> {
        Ok(Kept {
            program: self.program.clone()?,
            rows: self.rows,
        })
    }
}

// Counts one more row that names the program, and keeps the program where this is the first. Is kept in line, since most rows
// name none.
#[inline(always)]
pub(crate) fn hold_program(
    programs: &mut BTreeMap<ProgramId, Kept>,
    resolver: ResolverId,
    program: Option<&Arc<Verified>>,
) -> Result<(), AllocError>
    requires room { has_room_for (programs_by kept_code programs.old.entries) resolver
        (option_map (λ p. arc_value p.now) program) }
    requires coded { IsCodeOf resolver (option_map (λ p. arc_value p.now) program) }
    requires few { (id : ProgramId) → rows_kept programs.old.entries id < most_names }
    ensures held { OnOk result (programs_by kept_code programs.new.entries
        ≡ with_code resolver (option_map (λ p. arc_value p.now) program.entry)
        (programs_by kept_code programs.old.entries)) }
    ensures counted { OnOk result ((id : ProgramId) → rows_kept programs.new.entries id
        ≡ rows_kept programs.old.entries id + is_of resolver id) }
    ensures unchanged { OnErr result (programs.new.entries ≡ programs.old.entries) }
{
    let (ResolverId::Program(id), Some(program)) = (resolver, program) else {
        return Ok(());
    };
    hold(programs, id, program)
}

// Counts one more row that names the program of this id, and keeps the program where this is the first.
fn hold(
    programs: &mut BTreeMap<ProgramId, Kept>,
    id: ProgramId,
    program: &Arc<Verified>,
) -> Result<(), AllocError>
    requires room { has_room_for (programs_by kept_code programs.old.entries) (Program id) (Some (arc_value program.now)) }
    requires few { rows_kept programs.old.entries id < most_names }
    ensures held { OnOk result (programs_by kept_code programs.new.entries
        ≡ insert (programs_by kept_code programs.old.entries) id (arc_value program.now)) }
    ensures counted { OnOk result ((q : ProgramId) → rows_kept programs.new.entries q
        ≡ rows_kept programs.old.entries q + is_of (Program id) q) }
    ensures unchanged { OnErr result (programs.new.entries ≡ programs.old.entries) }
{
    if let Some(kept) = programs.get_mut(&id) {
        kept.rows += 1;
        return Ok(());
    }
    let program = program.clone()?;
    programs.insert(id, Kept { program, rows: 1 })?;
    Ok(())
}

// Counts one row less that names the program, and takes the program out where it was the last.
pub(crate) fn release_program(programs: &mut BTreeMap<ProgramId, Kept>, resolver: ResolverId)
    ensures left { programs_by kept_code programs.new.entries
        ≡ without_code (last_of programs.old.entries resolver) (programs_by kept_code programs.old.entries) }
    ensures counted { (id : ProgramId) → rows_kept programs.new.entries id
        ≡ rows_kept programs.old.entries id - is_of resolver id }
{
    let ResolverId::Program(id) = resolver else {
        return;
    };
    let Some(kept) = programs.get_mut(&id) else {
        return;
    };
    if kept.rows > 1 {
        kept.rows -= 1;
        return;
    }
    programs.remove(&id);
}

// Checks whether no other code is kept under the id that the resolver names. Compares no code if that is known.
pub(crate) fn has_room(
    is_known: bool,
    programs: &BTreeMap<ProgramId, Kept>,
    resolver: ResolverId,
    program: Option<&Arc<Verified>>,
) -> bool
    requires known { IsTrue is_known → has_room_for (programs_by kept_code programs.now.entries) resolver
        (option_map (λ p. arc_value p.now) program) }
    requires coded { IsCodeOf resolver (option_map (λ p. arc_value p.now) program) }
    ensures { IsTrue result ↔ has_room_for (programs_by kept_code programs.now.entries) resolver
        (option_map (λ p. arc_value p.now) program.entry) }
{
    if is_known {
        return true;
    }
    match (resolver, program) {
        (ResolverId::Program(id), Some(program)) => has_room_at(programs, &id, program),
        _ => true,
    }
}

// Checks whether no other code is kept under the id.
fn has_room_at(
    programs: &BTreeMap<ProgramId, Kept>,
    id: &ProgramId,
    program: &Arc<Verified>,
) -> bool
    ensures { IsTrue result ↔ has_room_for (programs_by kept_code programs.now.entries) (Program id.now)
        (Some (arc_value program.now)) }
{
    match programs.get(id) {
        None => true,
        Some(kept) => kept.program.code() == program.code(),
    }
}

// Checks whether no program has one code here and another there.
pub(crate) fn programs_agree(
    programs: &BTreeMap<ProgramId, Kept>,
    other: &BTreeMap<ProgramId, Kept>,
) -> bool
    ensures { IsTrue result ↔ programs_agree (programs_by kept_code programs.now.entries)
        (programs_by kept_code other.now.entries) }
{
    for (id, kept) in programs {
        if !has_room_at(other, id, &kept.program) {
            return false;
        }
    }
    true
}

// Copies the programs whose ids aren't among the known ones. Allocates one more owner of each.
pub(crate) fn copy_others(
    alloc: Global,
    programs: &BTreeMap<ProgramId, Kept>,
    known: &BTreeMap<ProgramId, Kept>,
) -> Result<BTreeMap<ProgramId, Kept>, AllocError>
    ensures { IfOk result (λ others. AreOthersOf programs.now.entries known.now.entries others.entries) }
{
    let mut others = BTreeMap::new(alloc);
    for (id, kept) in programs {
        if !known.contains_key(id) {
            keep_copy(&mut others, id, kept)?;
        }
    }
    Ok(others)
}

// Keeps one more owner of the program under its id.
fn keep_copy(
    programs: &mut BTreeMap<ProgramId, Kept>,
    id: &ProgramId,
    kept: &Kept,
) -> Result<(), AllocError>
    ensures { OnOk result (programs_by kept_code programs.new.entries
        ≡ insert (programs_by kept_code programs.old.entries) id.now (kept_code kept.now)) }
{
    let copy: Kept = kept.clone()?;
    programs.insert(*id, copy)?;
    Ok(())
}

// The program in the store that the resolver names, if it names one; 41 where the store lacks it.
pub(crate) fn find_program(
    store: &UploadStore,
    resolver: ResolverId,
) -> Result<Option<&Arc<Verified>>, TableFault>
    ensures found { IfOk result (λ program. option_map (λ p. arc_value p.now) program ≡ code_for store.now resolver) }
    ensures coded { IfOk result (λ program. IsCodeOf resolver (option_map (λ p. arc_value p.now) program)) }
    ensures known { OnOk result (IsTrue (is_known store.now resolver)) }
    ensures unknown { IfErr result (λ fault. (fault ≡ UnknownProgram) × (is_known store.now resolver ≡ false)) }
{
    match resolver {
        ResolverId::Builtin(_) => Ok(None),
        ResolverId::Program(id) => match store.get(&id) {
            Some(program) => Ok(Some(program)),
            None => Err(TableFault::UnknownProgram),
        },
    }
}
