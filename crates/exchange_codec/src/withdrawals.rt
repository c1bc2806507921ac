//! Lists of withdrawn names as bytes.
ghost use Rattle.std.specs.Prelude.{◌≡◌, ◌≤◌, ◌++◌, [], length, IsTrue, Ok, IfOk, OnOk};
ghost use Rattle.std.specs.List.{flat_map, AllByRecursion};
ghost use Rattle.clash_record.specs.Name.{is_name};
ghost use Rattle.refusals.specs.Answers.{ReturnsOrRunsOut};
ghost use Rattle.partition_table.specs.Tables.{most_names};
ghost use Rattle.exchange_law.specs.Lists.{IsNameList};
ghost use Rattle.exchange_law.specs.Sides as sides;
ghost use Rattle.exchange_codec.specs.Faults.{message_fault_number};
ghost use Rattle.exchange_codec.specs.Reading.{Gives, many_at};
ghost use Rattle.exchange_codec.specs.Names.{name_at, name_bytes};
ghost use Rattle.exchange_codec.specs.Withdrawals.{SpellsWithdrawals, names_bytes, first_again, unless_name_again, list_at, whole_list, list_due};
ghost use Rattle.exchange_codec.specs.WithdrawalsText.{list_view};

use crate::fault::{Fault, FieldFault, ItemFault, MessageFault, ReadError};
use crate::fields::{count_at, header_at, push_u32, push_u64, u64_at};
use crate::names::{name_at, push_name, push_side, side_at};
use clash_record::{Name, SideId};
use exchange_core::{ListFault, Withdrawals};
use partition_table::NameLimit;
use std::alloc::{AllocError, Global};

// "HEALXC", version 1, kind 2.
pub(crate) const HEADER: u64 = 0x0201_4358_4C41_4548;

/// The fields of a list in a message.
#[derive(Drop)]
pub(crate) struct ListText {
    pub(crate) side: SideId,
    pub(crate) number: u64,
    pub(crate) names: Vec<Name>,
}

/// Encodes a list of withdrawn names. Fails only when out of memory.
pub fn encode_withdrawals(alloc: Global, list: &Withdrawals) -> Result<Vec<u8>, AllocError>
    ensures { IfOk result (λ bytes. SpellsWithdrawals bytes.items list.now) }
{
    spell_withdrawals(alloc, list.side(), list.number(), list.names())
}

/// Encodes the list that a side makes when it closes its list with these names. Fails only when out of memory.
///
/// For repeated names, or more than 1,048,576, the bytes spell no list.
pub fn spell_withdrawals(
    alloc: Global,
    side: SideId,
    number: u64,
    names: &[Name],
) -> Result<Vec<u8>, AllocError>
    // The bytes, whether or not they spell a list.
    ensures bytes { IfOk result (λ bytes. bytes.items
        ≡ names_bytes record { side = side; number = number; names = names.now }) }
    // Distinct names, at most 1,048,576, have a spelling.
    ensures spelled { IfOk result (λ bytes. IsNameList names.now
        → SpellsWithdrawals bytes.items record { side = side; number = number; names = names.now }) }
    // Other names have none.
    ensures listed { IfOk result (λ bytes. (list : sides.Withdrawals) → SpellsWithdrawals bytes.items list
        → IsNameList names.now) }
{
    let mut out = Vec::new(alloc);
    push_u64(&mut out, HEADER)?;
    push_side(&mut out, side)?;
    push_u64(&mut out, number)?;
    push_u32(&mut out, names.len().min(NameLimit::MAX) as u32)?;
    push_names(&mut out, names)?;
    Ok(out)
}

// Writes names at the end.
fn push_names(out: &mut Vec<u8>, names: &[Name]) -> Result<(), AllocError>
    ensures written { OnOk result (out.new.items ≡ out.old.items ++ flat_map name_bytes names.now) }
    ensures named { OnOk result (AllByRecursion (λ name. IsTrue (is_name name)) names.now) }
{
    for name in names {
        push_name(out, name)?;
    }
    Ok(())
}

/// Decodes untrusted bytes as a list of withdrawn names.
///
/// That the bytes are those that the other half sent in this exchange is the transport's duty.
///
/// Rejects the first invalid field, with its byte: 70 if the bytes end within it, 71 for another message, 72 for extra
/// bytes, 73 for more than 1,048,576 names, 74 for neither side, 75 for an invalid name and 82 for another version. If every
/// field is valid, rejects with 77 the first name that the list already has, with its index. Returns 90 when out of
/// memory.
pub fn decode_withdrawals(alloc: Global, bytes: &[u8]) -> Result<Withdrawals, MessageFault>
    // The bytes spell the list that is returned.
    ensures spelled { IfOk result (SpellsWithdrawals bytes.now) }
    // A list that the bytes spell is returned, unless memory runs out.
    ensures taken { (list : sides.Withdrawals) → SpellsWithdrawals bytes.now list
        → ReturnsOrRunsOut message_fault_number result (Ok list) }
    // The list or the fault of the bytes is returned, unless memory runs out.
    ensures exact { ReturnsOrRunsOut message_fault_number result (list_due (length bytes.now) (whole_list bytes.now)) }
{
    match all(alloc, bytes) {
        Ok(text) => listed(alloc, text),
        Err(error) => Err(error.told(bytes.len())),
    }
}

// Returns the list of the text, or 77 for the first name that it already has.
fn listed(alloc: Global, text: ListText) -> Result<Withdrawals, MessageFault>
    requires { length text.names.items ≤ most_names }
    ensures { ReturnsOrRunsOut message_fault_number result
        (unless_name_again (first_again [] 0 text.names.items) (list_view text)) }
{
    let ListText {
        side,
        number,
        names,
    } = text;
    match Withdrawals::of_names(alloc, side, number, names) {
        Ok(list) => Ok(list),
        Err(ListFault::NameAgain { at }) => Err(MessageFault::Item {
            fault: ItemFault::NameAgain,
            at,
        }),
        Err(ListFault::OutOfMemory) => Err(MessageFault::OutOfMemory),
        Err(ListFault::TooMany) => unreachable!(),
    }
}

// The text that all of the bytes spell.
#[tactic(auto, unfolding(crate::specs::Withdrawals::whole_list))]
fn all(alloc: Global, bytes: &[u8]) -> Result<ListText, ReadError>
    ensures { Gives list_view result (whole_list bytes.now) }
{
    let (text, rest) = text_at(alloc, bytes)?;
    if !rest.is_empty() {
        return Err(ReadError::Fault(Fault::at(FieldFault::Trailing, rest)));
    }
    Ok(text)
}

// The text at the front.
#[tactic(auto, unfolding(crate::specs::Withdrawals::list_at))]
fn text_at(alloc: Global, bytes: &[u8]) -> Result<(ListText, &[u8]), ReadError>
    ensures { Gives (λ x. (list_view x.0, x.1.now)) result (list_at bytes.now) }
{
    let rest = header_at(HEADER, bytes)?;
    let (side, rest) = side_at(rest)?;
    let (number, rest) = u64_at(rest)?;
    let (count, rest) = count_at(NameLimit::MAX as u32, rest)?;
    let (names, rest) = match all_names(alloc, count, rest) {
        Ok(found) => found,
        Err(error) => return Err(error),
    };
    Ok((
        ListText {
            side,
            number,
            names,
        },
        rest,
    ))
}

// Reads this many names.
fn all_names(alloc: Global, count: u32, bytes: &[u8]) -> Result<(Vec<Name>, &[u8]), ReadError>
    ensures { Gives (λ x. (x.0.items, x.1.now)) result (many_at name_at count bytes.now) }
{
    let mut names = Vec::new(alloc);
    let mut rest = bytes;
    for _ in 0..count {
        match name_at(rest) {
            Ok(found) => {
                names.push(found.0)?;
                rest = found.1;
            }
            Err(fault) => return Err(ReadError::Fault(fault)),
        }
    }
    Ok((names, rest))
}
