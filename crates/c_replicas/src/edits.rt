//! The edits of a primary, each with the bytes of its entry.
ghost use Rattle.std.specs.Prelude.{◌≡◌, ℕ, nat_lt, true, List, Option};
ghost use Rattle.c_calls.specs.Answers.{held_after, returned_number};
ghost use Rattle.replica.specs.declared.edit.Edit.TheVariants as edit_of;
ghost use Rattle.replica.specs.Replicas.{max_number};
ghost use Rattle.c_replicas.specs.Edits.{Makes, MakesIf, MakesLimit, made_entry, register_edit, unregister_edit};

use c_calls::{HealRegistration, INDEX_OUT_OF_RANGE, Message, boxed, name_of, registration_of};
use partition_table::NameLimit;
use refusals::{Numbered, OUT_OF_MEMORY};
use replica::{Edit, Entry, Position, Replica};
use replica_codec::encode_entry;
use std::alloc::Global;
use upload_store::Upload;

// Carries an edit out, and returns the bytes of its entry. They are written first, so that no edit is made without them.
fn edit(replica: &mut Replica, alloc: Global, edit: Edit) -> Result<Box<Message>, u32>
    ensures { (before : Option (List ℕ)) → Makes edit replica.old replica.new before
        (held_after (λ made. made.value) before result) (returned_number (λ n. n) result) }
{
    if let Some(fault) = replica.edit_refusal() {
        return Err(fault.number());
    }
    let entry = next_entry(replica, edit);
    let Ok(message) = boxed(alloc, encode_entry(alloc, &entry)) else {
        return Err(OUT_OF_MEMORY);
    };
    match replica.edit(entry.edit) {
        Ok(_) => Ok(message),
        Err(fault) => Err(fault.number()),
    }
}

// Returns the entry that the edit makes if the view has room for it.
fn next_entry(replica: &Replica, edit: Edit) -> Entry
    ensures entry { nat_lt replica.now.at.op max_number ≡ true → result ≡ made_entry replica.now edit }
    ensures edit { result.edit ≡ edit }
{
    let Position { view, op } = replica.position();
    Entry {
        at: Position {
            view,
            op: op.saturating_add(1),
        },
        edit,
    }
}

/// Registers a name, and returns the entry.
pub fn register(
    replica: &mut Replica,
    alloc: Global,
    name: &[u8],
    registration: &HealRegistration,
) -> Result<Box<Message>, u32>
    ensures { (before : Option (List ℕ)) → MakesIf (register_edit name.now registration.now) replica.old replica.new before
        (held_after (λ made. made.value) before result) (returned_number (λ n. n) result) }
{
    let name = name_of(name)?;
    let registration = registration_of(registration)?;
    edit(replica, alloc, Edit::Register(name, registration))
}

/// Unregisters a name, and returns the entry.
pub fn unregister(replica: &mut Replica, alloc: Global, name: &[u8]) -> Result<Box<Message>, u32>
    ensures { (before : Option (List ℕ)) → MakesIf (unregister_edit name.now) replica.old replica.new before
        (held_after (λ made. made.value) before result) (returned_number (λ n. n) result) }
{
    let name = name_of(name)?;
    edit(replica, alloc, Edit::Unregister(name))
}

/// Keeps an accepted program, and returns the entry.
pub fn upload(replica: &mut Replica, alloc: Global, program: &Upload) -> Result<Box<Message>, u32>
    ensures { (before : Option (List ℕ)) → Makes (edit_of.Upload program.now) replica.old replica.new before
        (held_after (λ made. made.value) before result) (returned_number (λ n. n) result) }
{
    if let Some(fault) = replica.edit_refusal() {
        return Err(fault.number());
    }
    match program.share() {
        Ok(program) => edit(replica, alloc, Edit::Upload(program)),
        Err(_) => Err(OUT_OF_MEMORY),
    }
}

/// Sets the limit of names, and returns the entry. Returns 92 for a number that is no limit.
pub fn set_limit(replica: &mut Replica, alloc: Global, names: usize) -> Result<Box<Message>, u32>
    ensures { (before : Option (List ℕ)) → MakesLimit names replica.old replica.new before
        (held_after (λ made. made.value) before result) (returned_number (λ n. n) result) }
{
    match NameLimit::new(names) {
        Some(limit) => edit(replica, alloc, Edit::Limit(limit)),
        None => Err(INDEX_OUT_OF_RANGE),
    }
}

/// Records the number of the next exchange, and returns the entry.
pub fn begin(replica: &mut Replica, alloc: Global, number: u64) -> Result<Box<Message>, u32>
    ensures { (before : Option (List ℕ)) → Makes (edit_of.Begin number) replica.old replica.new before
        (held_after (λ made. made.value) before result) (returned_number (λ n. n) result) }
{
    edit(replica, alloc, Edit::Begin(number))
}
