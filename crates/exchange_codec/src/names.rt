//! Names and sides as bytes.
ghost use Rattle.std.specs.Prelude.{◌≡◌, ◌∷◌, ◌++◌, [], IsTrue, OnOk, OnErr};
ghost use Rattle.clash_record.specs.Name.{is_name};
ghost use Rattle.exchange_codec.specs.Names.{side_byte, name_bytes, side_id_at, name_at};
ghost use Rattle.exchange_codec.specs.Reading.{Reads};
ghost use Rattle.exchange_codec.specs.Writing.{BeginsWith};

use crate::fault::{Fault, FieldFault};
use clash_record::{Name, SideId, name};
use std::alloc::AllocError;

/// The side at the front, and what follows it.
#[tactic(auto, unfolding(crate::specs::Names::side_id_at))]
pub(crate) fn side_at(bytes: &[u8]) -> Result<(SideId, &[u8]), Fault>
    ensures { Reads (λ x. (x.0, x.1.now)) result (side_id_at bytes.now) }
{
    match bytes {
        [] => Err(Fault::at(FieldFault::Cut, bytes)),
        [0, rest @ ..] => Ok((SideId::A, rest)),
        [1, rest @ ..] => Ok((SideId::B, rest)),
        [_, ..] => Err(Fault::at(FieldFault::Side, bytes)),
    }
}

/// The name at the front, and what follows it.
#[tactic(auto, unfolding(crate::specs::Names::name_at))]
pub fn name_at(bytes: &[u8]) -> Result<(Name, &[u8]), Fault>
    ensures { Reads (λ x. (x.0, x.1.now)) result (name_at bytes.now) }
{
    let [len, rest @ ..] = bytes else {
        return Err(Fault::at(FieldFault::Cut, bytes));
    };
    let len = *len as usize;
    if rest.len() < len {
        return Err(Fault::at(FieldFault::Cut, bytes));
    }
    let (front, rest) = rest.split_at(len);
    match name(front) {
        Ok(found) => Ok((found, rest)),
        Err(_) => Err(Fault::at(FieldFault::Name, bytes)),
    }
}

/// Writes a side at the end.
pub(crate) fn push_side(out: &mut Vec<u8>, side: SideId) -> Result<(), AllocError>
    ensures { OnOk result (out.new.items ≡ out.old.items ++ side_byte side ∷ []) }
{
    let byte = match side {
        SideId::A => 0,
        SideId::B => 1,
    };
    out.push(byte)?;
    Ok(())
}

/// Writes a name at the end.
#[tactic(auto, using(crate::proofs::FrontLaws::same, crate::proofs::FrontLaws::further))]
pub fn push_name(out: &mut Vec<u8>, name: &Name) -> Result<(), AllocError>
    ensures written { OnOk result (out.new.items ≡ out.old.items ++ name_bytes name.now) }
    ensures named { OnOk result (IsTrue (is_name name.now)) }
    // After a failure, the old bytes are still at the front.
    ensures front { OnErr result (BeginsWith out.new.items out.old.items) }
{
    let bytes = name.bytes();
    out.push(bytes.len() as u8)?;
    out.extend_from_slice(bytes)
}
