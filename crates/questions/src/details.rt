//! The details of a question's code: the verifier's states, or what a program saw and answered.
ghost use Rattle.std.specs.Prelude.{◌≡◌, ◌++◌, false, ℕ, List, IfOk, string_bytes};
ghost use Rattle.verifier.specs.Programs as program;
ghost use Rattle.questions.specs.Details.{IsCodeDetails, IsDetails, IsProgramDetails, IsSeen, IsSeenClash, refused_slot};

use crate::arguments::{clash_of, code_of};
use crate::failures::Failure;
use crate::printing::Answer;
use crate::question::{ClashWords, Profile, Question};
use abstract_value::{Both, Domain, Interval};
use clash_fields::record_text;
use explanation::{explain_at, explain_code};
use instruction_set::Code;
use refusals::Place;
use std::alloc::{AllocError, Global};

// Returns the slot that a refusal names, if any.
fn slot_of(said: &Answer) -> Option<u32>
    ensures { result ≡ refused_slot said.now }
{
    match said {
        Answer::Refused(refusal) => match refusal.place {
            Some(Place::Slot(slot)) => Some(slot),
            _ => None,
        },
        _ => None,
    }
}

// Returns the text of the whole code, or of the instruction at a slot.
fn code_details<D: Domain>(
    alloc: Global,
    code: &Code,
    whole: bool,
    slot: u32,
) -> Result<String, AllocError>
    ensures { IfOk result (λ text. IsCodeDetails D.ops code.now whole slot (string_bytes text)) }
{
    if whole {
        explain_code::<D>(alloc, code)
    } else {
        explain_at::<D>(alloc, code, slot as usize)
    }
}

// Returns the text of the code in these digits: of the whole code, or of the instruction at a slot, if any.
#[tactic(auto, using(crate::proofs::Decoded::decodings))]
fn program_details<D: Domain>(
    alloc: Global,
    digits: &str,
    whole: bool,
    slot: Option<u32>,
) -> Result<String, AllocError>
    ensures { IfOk result (λ text. IsProgramDetails D.ops digits.now whole slot (string_bytes text)) }
{
    if !whole && slot.is_none() {
        return Ok(String::new(alloc));
    }
    match code_of(alloc, digits) {
        Ok(code) => code_details::<D>(alloc, &code, whole, slot.unwrap_or(0)),
        Err(Failure::Refused(_)) => Ok(String::new(alloc)),
        Err(Failure::OutOfMemory) => Err(AllocError),
    }
}

// Returns the text of the record that was judged, and of the answer.
fn seen_clash(
    alloc: Global,
    clash: &ClashWords<'_>,
    answer: u64,
    steps: u32,
) -> Result<String, AllocError>
    ensures { IfOk result (λ text. IsSeenClash clash.now answer steps (string_bytes text)) }
{
    match clash_of(alloc, clash) {
        Ok(record) => {
            let fields = record_text(alloc, &record)?;
            format!(in alloc; "{fields}r0 = {answer} after {steps} steps\n")
        }
        Err(Failure::Refused(_)) => Ok(String::new(alloc)),
        Err(Failure::OutOfMemory) => Err(AllocError),
    }
}

// Returns the text of what a program saw and answered, if the question requests it.
fn seen(
    alloc: Global,
    clash: &ClashWords<'_>,
    explain: bool,
    said: &Answer,
) -> Result<String, AllocError>
    ensures { IfOk result (λ text. IsSeen clash.now explain said.now (string_bytes text)) }
{
    match said {
        Answer::Ruled { answer, steps, .. } if explain => {
            seen_clash(alloc, clash, *answer, *steps)
        }
        _ => Ok(String::new(alloc)),
    }
}

// Returns the details of a judged clash.
fn judge_details(
    alloc: Global,
    code: &str,
    clash: &ClashWords<'_>,
    explain: bool,
    said: &Answer,
) -> Result<String, AllocError>
    ensures { IfOk result (λ text. (front rest : List ℕ)
        × IsProgramDetails program.profile code.now false (refused_slot said.now) front
        × IsSeen clash.now explain said.now rest × (string_bytes text ≡ front ++ rest)) }
{
    let mut front = program_details::<verifier::Profile>(alloc, code, false, slot_of(said))?;
    let rest = seen(alloc, clash, explain, said)?;
    front.push_str(&rest)?;
    Ok(front)
}

/// Returns what the verifier knows about the code of a question: before each instruction if the question is to be
/// explained, else before the one at which the answer refuses the code. For a judged clash it is what the program saw and
/// answered.
pub fn details(alloc: Global, question: &Question<'_>, said: &Answer) -> Result<String, AllocError>
    ensures { IfOk result (λ text. IsDetails question.now said.now (string_bytes text)) }
{
    let slot = slot_of(said);
    match question {
        Question::Check {
            code,
            profile: Profile::Unsigned,
            explain,
        } => program_details::<Interval>(alloc, code, *explain, slot),
        Question::Check {
            code,
            profile: Profile::Both,
            explain,
        } => program_details::<Both>(alloc, code, *explain, slot),
        Question::Judge {
            code,
            clash,
            explain,
        } => judge_details(alloc, code, clash, *explain, said),
        Question::Asm { .. } | Question::Dis { .. } => Ok(String::new(alloc)),
    }
}
