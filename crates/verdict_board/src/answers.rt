//! The answers of the kept verdicts, one word for each clash.
ghost use Rattle.std.specs.Prelude.{◌≡◌, ◌<◌, IfOk, IfSome, Some, length, slice_get};
ghost use Rattle.partition_table.specs.Tables.{Clash};
ghost use Rattle.verdict_board.specs.model.Answers.{AnswersOf, answer_of, code_of, Tells};

use atomic_table::{Play, Shared, Table, TableRule};
use builtin_resolvers::Verdict3;
use partition_table::ClashList;
use std::alloc::{AllocError, Global};
use std::snapshot::Snapshot;

pub(crate) type AnswerTable = Table<(), Case, Case, Answered, Global>;

pub(crate) type AnswerWords = Shared<(), Case, Case, Answered>;

// The exchange whose answers the words hold.
#[derive(Drop)]
pub(crate) struct Case {
    pub seed: u64,
    pub clashes: Snapshot<ClashList>,
}

// The word of a clash is 0, or the code of a round and of the resolver's answer in that round.
pub(crate) struct Answered;

impl TableRule<(), Case, Case> for Answered {
    ghost holds = { λ case. AnswersOf case };

    ghost first = { λ case. case };
}

// The word of a clash is read.
struct Found;

impl Play<(), Case> for Found {
    ghost then = { λ step me code _. Tells me.0 step.word code };
}

// The word of a clash is written.
struct Kept;

impl Play<(), Case> for Kept {
    ghost then = { λ _ _ _ _. Unit {0} };
}

// Returns the words of an exchange, none of which holds an answer.
pub(crate) fn no_answers(
    alloc: Global,
    seed: u64,
    clashes: &ClashList,
) -> Result<AnswerTable, AllocError>
    ensures count { IfOk result (λ answers. answers.shared.table_id.words ≡ length clashes.now) }
    ensures case { IfOk result (λ answers. (answers.shared.key.seed ≡ seed)
        × (answers.shared.key.clashes.value ≡ clashes.now)) }
{
    let zeros = vec![in alloc; 0; clashes.len()]?;
    let case = Case {
        seed,
        clashes: Snapshot::of(clashes),
    };
    let (answers, _first) = Table::of_words(alloc, &zeros, &case)?;
    Ok(answers)
}

// Keeps the answer of clash k's resolver in a round.
pub(crate) fn keep_answer(answers: &AnswerWords, k: u32, round: u32, answer: Verdict3)
    requires clash { k < answers.now.table_id.words }
    requires answer { (clash : Clash) → slice_get answers.now.key.clashes.value k ≡ Some clash
        → answer ≡ answer_of answers.now.key k round clash }
{
    let _ = answers.swap_new_seat::<Kept>(k as usize, code(round, answer));
}

// Returns the answer of clash k's resolver in a round, if it is kept.
pub(crate) fn kept_answer(answers: &AnswerWords, k: u32, round: u32) -> Option<Verdict3>
    requires clash { k < answers.now.table_id.words }
    ensures { (clash : Clash) → slice_get answers.entry.now.key.clashes.value k ≡ Some clash
        → IfSome result (λ answer. answer ≡ answer_of answers.entry.now.key k round clash) }
{
    let (code, _seat) = answers.load_new_seat::<Found>(k as usize);
    answer_in(code, round)
}

// Returns the code of a round and an answer.
fn code(round: u32, answer: Verdict3) -> u64
    ensures { result ≡ code_of round answer }
{
    let number = match answer {
        Verdict3::First => 1,
        Verdict3::Second => 2,
        Verdict3::Neither => 3,
    };
    4 * u64::from(round) + number
}

// Returns the answer in the code, if it is a code of this round.
fn answer_in(code: u64, round: u32) -> Option<Verdict3>
    ensures { IfSome result (λ answer. code ≡ code_of round answer) }
{
    match code.checked_sub(4 * u64::from(round)) {
        Some(1) => Some(Verdict3::First),
        Some(2) => Some(Verdict3::Second),
        Some(3) => Some(Verdict3::Neither),
        _ => None,
    }
}
