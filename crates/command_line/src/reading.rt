//! Reads the arguments as a task.
ghost use Rattle.std.specs.Prelude.{◌≡◌, ◌∷◌, ◌&&◌, true, false, ◌||◌, [], codes, ◌⊎◌, List, ℕ, IfOk, IfErr, map, option_map, option_and_then};
ghost use Rattle.clap.specs.Words.{first_of, found_of, rows_of, subcommand_rows_of};
ghost use Rattle.command_line.specs.Asked.{AskedTask, Asks, IsForMemory, IsUsageFault, asked_task, subcommand_asked};
ghost use Rattle.command_line.specs.Asked as asked;
ghost use Rattle.std.specs.Str.{bytes_eq};
ghost use Rattle.command_line.specs.Asked.{asm, asm_asked, by_bytes, check, check_asked, clash_by, clash_named, dis, dis_asked, explain_named, judge, judge_asked, names_named, profile_named, refusals, run, run_asked, version, workers_named};
ghost use Rattle.partition_table.specs.Tables.{max_names};
ghost use Rattle.judge_pool.specs.Workers.{default_workers};
ghost use Rattle.questions.specs.declared.question.Profile.TheVariants.{Unsigned, Both};
ghost use Rattle.command_line.specs.Plain.{IsPlain};

use crate::faults::CommandFault;
use crate::grammar::heal;
use crate::names::Names;
use crate::task::Task;
use clap::ArgMatches;
use judge_pool::Workers;
use questions::{ClashWords, Profile, Question};
use std::alloc::Global;
use std::convert::AsStr;

// Returns the first value of `id`.
#[tactic(auto, using(crate::proofs::Rows::rows))]
fn value<'a>(found: &ArgMatches<'a>, id: &str) -> Option<&'a str>
    ensures { option_map (λ s. s.now) result ≡ first_of id.now (rows_of (found_of found.now)) }
{
    found.get_str(id)
}

// Returns the profile with this number, the second by default.
fn profile_of(number: Option<&str>) -> Option<Profile>
    ensures { result ≡ profile_named (option_map (λ s. s.now) number.entry) }
{
    match number {
        None | Some("2") => Some(Profile::Both),
        Some("1") => Some(Profile::Unsigned),
        Some(_) => None,
    }
}

// Checks whether the option for an explanation is given.
fn explains(given: Option<&str>) -> bool
    ensures { result ≡ explain_named (option_map (λ s. s.now) given.entry) }
{
    match given {
        None => false,
        Some(text) => text == "true",
    }
}

fn check_of<'a>(found: &ArgMatches<'a>) -> Option<Task<'a>>
    ensures { option_map asked_task result ≡ check_asked (rows_of (found_of found.now)) }
{
    let code = value(found, "CODE")?;
    let profile = profile_of(value(found, "profile"))?;
    let explain = explains(value(found, "explain"));
    Some(Task::Answer(Question::Check {
        code,
        profile,
        explain,
    }))
}

// Returns the clash of a record's bytes alone, or of its fields alone. The word is 0 by default.
fn clash_of<'a>(
    digits: Option<&'a str>,
    name: Option<&'a str>,
    first: Option<&'a str>,
    second: Option<&'a str>,
    word: Option<&'a str>,
) -> Option<ClashWords<'a>>
    ensures { option_map clash_by result ≡ clash_named (option_map (λ s. s.now) digits.entry)
        (option_map (λ s. s.now) name.entry) (option_map (λ s. s.now) first.entry)
        (option_map (λ s. s.now) second.entry) (option_map (λ s. s.now) word.entry) }
{
    match (digits, name, first, second, word) {
        (Some(digits), None, None, None, None) => Some(ClashWords::Bytes(digits)),
        (None, Some(name), Some(first), Some(second), None) => Some(ClashWords::Fields {
            name,
            first,
            second,
            word: "0",
        }),
        (None, Some(name), Some(first), Some(second), Some(word)) => Some(ClashWords::Fields {
            name,
            first,
            second,
            word,
        }),
        _ => None,
    }
}

fn judge_of<'a>(found: &ArgMatches<'a>) -> Option<Task<'a>>
    ensures { option_map asked_task result ≡ judge_asked (rows_of (found_of found.now)) }
{
    let code = value(found, "CODE")?;
    let clash = clash_of(
        value(found, "RECORDHEX"),
        value(found, "name"),
        value(found, "first"),
        value(found, "second"),
        value(found, "word"),
    )?;
    let explain = explains(value(found, "explain"));
    Some(Task::Answer(Question::Judge {
        code,
        clash,
        explain,
    }))
}

fn asm_of<'a>(found: &ArgMatches<'a>) -> Option<Task<'a>>
    ensures { option_map asked_task result ≡ asm_asked (rows_of (found_of found.now)) }
{
    let file = value(found, "FILE")?;
    Some(Task::Answer(Question::Asm { file }))
}

fn dis_of<'a>(found: &ArgMatches<'a>) -> Option<Task<'a>>
    ensures { option_map asked_task result ≡ dis_asked (rows_of (found_of found.now)) }
{
    let code = value(found, "CODE")?;
    Some(Task::Answer(Question::Dis { code }))
}

// Reads the number of workers.
fn workers_of(number: Option<&str>) -> Option<Workers>
    ensures { option_map (λ workers. workers.count) result ≡ workers_named (option_map (λ s. s.now) number.entry) }
{
    match number {
        None => Some(Workers::default()),
        Some(text) => match text.parse::<u32>() {
            Ok(count) => Workers::new(count),
            Err(_) => None,
        },
    }
}

// Reads the number of names, 4,096 by default.
fn names_of(number: Option<&str>) -> Option<Names>
    ensures { option_map (λ names. names.count) result ≡ names_named (option_map (λ s. s.now) number.entry) }
{
    match number {
        None => Names::new(4096),
        Some(text) => match text.parse::<u32>() {
            Ok(count) => Names::new(count),
            Err(_) => None,
        },
    }
}

fn run_of<'a>(found: &ArgMatches<'a>) -> Option<Task<'a>>
    ensures { option_map asked_task result ≡ run_asked (rows_of (found_of found.now)) }
{
    let file = value(found, "FILE")?;
    let workers = workers_of(value(found, "workers"))?;
    let names = names_of(value(found, "names"))?;
    let explain = explains(value(found, "explain"));
    Some(Task::Run {
        file,
        workers,
        names,
        explain,
    })
}

fn task_of<'a>(matches: &ArgMatches<'a>) -> Option<Task<'a>>
    ensures { option_map asked_task result ≡ option_and_then subcommand_asked (subcommand_rows_of matches.now) }
{
    let (name, found) = matches.subcommand()?;
    if name == "check" {
        check_of(found)
    } else if name == "judge" {
        judge_of(found)
    } else if name == "asm" {
        asm_of(found)
    } else if name == "dis" {
        dis_of(found)
    } else if name == "run" {
        run_of(found)
    } else {
        None
    }
}

// Checks whether a word is the flag for the version.
fn is_version_flag(word: &str) -> bool
    ensures { result ≡ (bytes_eq word.now (codes "--version") || bytes_eq word.now (codes "-V")) }
{
    word == "--version" || word == "-V"
}

// Checks whether the only argument after the program's name is the flag for the version.
#[tactic(auto, using(crate::proofs::FewWords::few_words))]
fn asks_version<S: AsStr>(words: &[S]) -> bool
    ensures { result ≡ asked.asks_version (map S.text words.now) }
{
    match words {
        [_, flag] => is_version_flag(flag.as_str()),
        _ => false,
    }
}

// Checks whether two words request the list of refusals.
fn is_refusals_topic(help: &str, topic: &str) -> bool
    ensures { result ≡ (bytes_eq help.now (codes "help") && bytes_eq topic.now (codes "refusals")) }
{
    help == "help" && topic == "refusals"
}

// Checks whether the arguments after the program's name request the list of refusals.
#[tactic(auto, using(crate::proofs::FewWords::few_words))]
fn asks_refusals<S: AsStr>(words: &[S]) -> bool
    ensures { result ≡ asked.asks_refusals (map S.text words.now) }
{
    match words {
        [_, help, topic] => is_refusals_topic(help.as_str(), topic.as_str()),
        _ => false,
    }
}

/// Reads the arguments as a task. The first is the program's name.
///
/// Returns the answer of `clap` for arguments that don't parse, including help and out of memory, and `NoTask` for
/// arguments that parse but give no task.
pub fn command<'a, S: AsStr>(alloc: Global, words: &'a [S]) -> Result<Task<'a>, CommandFault>
    // The task is that of the arguments.
    ensures ok { IfOk result (λ task. Asks (map S.text words.now) (asked_task task)) }
    // Arguments that give a task fail only when out of memory.
    ensures err { IfErr result (λ e. IsForMemory e ⊎ ((task : AskedTask) → Asks (map S.text words.now) task → ⊥)) }
    // Unless memory ran out, the error is the usage error of the arguments.
    ensures usage { IfErr result (λ e. IsForMemory e ⊎ IsUsageFault (map S.text words.now) e) }
{
    if asks_version(words) {
        return Ok(Task::Version);
    }
    if asks_refusals(words) {
        return Ok(Task::Refusals);
    }
    let matches = heal(alloc)?.try_get_matches_from(words)?;
    task_of(&matches).ok_or(CommandFault::NoTask)
}

/// States that an argument without a leading hyphen is taken literally, and a single hyphen as a file, and which words
/// request the version and the refusals. Does nothing at run time.
pub fn plain_words_theorem()
    ensures check { (name code : List ℕ) → IsPlain code → Asks (name ∷ codes "check" ∷ code ∷ []) (check code Both false) }
    ensures unsigned { (name code : List ℕ) → IsPlain code
        → Asks (name ∷ codes "check" ∷ code ∷ codes "--profile" ∷ codes "1" ∷ []) (check code Unsigned false) }
    ensures both { (name code : List ℕ) → IsPlain code
        → Asks (name ∷ codes "check" ∷ code ∷ codes "--profile" ∷ codes "2" ∷ []) (check code Both false) }
    ensures explained { (name code : List ℕ) → IsPlain code
        → Asks (name ∷ codes "check" ∷ code ∷ codes "--explain" ∷ []) (check code Both true) }
    ensures narrated { (name file : List ℕ) → IsPlain file
        → Asks (name ∷ codes "run" ∷ file ∷ codes "--explain" ∷ []) (run file default_workers max_names true) }
    ensures judge { (name code clash : List ℕ) → IsPlain code → IsPlain clash
        → Asks (name ∷ codes "judge" ∷ code ∷ clash ∷ []) (judge code (by_bytes clash) false) }
    ensures asm { (name file : List ℕ) → IsPlain file → Asks (name ∷ codes "asm" ∷ file ∷ []) (asm file) }
    ensures dis { (name code : List ℕ) → IsPlain code → Asks (name ∷ codes "dis" ∷ code ∷ []) (dis code) }
    ensures run { (name file : List ℕ) → IsPlain file
        → Asks (name ∷ codes "run" ∷ file ∷ []) (run file default_workers max_names false) }
    ensures workers { (name file : List ℕ) → IsPlain file
        → Asks (name ∷ codes "run" ∷ file ∷ codes "--workers" ∷ codes "16" ∷ []) (run file 16 max_names false) }
    ensures names { (name file : List ℕ) → IsPlain file
        → Asks (name ∷ codes "run" ∷ file ∷ codes "--names" ∷ codes "8192" ∷ []) (run file default_workers 8192 false) }
    ensures version { (name : List ℕ) → Asks (name ∷ codes "--version" ∷ []) version }
    ensures version_letter { (name : List ℕ) → Asks (name ∷ codes "-V" ∷ []) version }
    ensures refusals { (name : List ℕ) → Asks (name ∷ codes "help" ∷ codes "refusals" ∷ []) refusals }
    ensures asm_hyphen { (name : List ℕ) → Asks (name ∷ codes "asm" ∷ codes "-" ∷ []) (asm (codes "-")) }
    ensures run_hyphen { (name : List ℕ)
        → Asks (name ∷ codes "run" ∷ codes "-" ∷ []) (run (codes "-") default_workers max_names false) }
{}
