//! Replies to a question.
ghost use Rattle.std.specs.Prelude.{◌≡◌, ◌≢◌, None, IfOk, IfErr, codes, string_bytes};
ghost use Rattle.questions.specs.Judging.{first};
ghost use Rattle.device.specs.Sending.{AppendsFront};
ghost use Rattle.questions.specs.Lines.{IsAnswerTo, IsChecked, IsCheckedOver, IsDigitsReply, IsDisassembled, IsExplanation, IsOfBytes, IsJudged, IsPrinted, IsReply, IsTerse, AreWordsAbout, Prints, answer_unless_memory, answer_line, exit_status};
ghost use Rattle.questions.specs.declared.failures.Failure.TheVariants.{OutOfMemory};
ghost use Rattle.questions.specs.declared.printing.Answer.TheVariants.{DeviceFault};

use crate::arguments::{clash_of, code_of, program_of};
use crate::code_files::{code_file, digits_in, with_code};
use crate::details::details;
use crate::failures::Failure;
use crate::files::code_in;
use crate::printing::{Answer, answer_unless_memory, explanation, line, status};
use crate::question::{ClashWords, Profile, Question, is_standard_input};
use crate::ruling::judge_one;
use abstract_value::{Both, Domain, Interval};
use code_file::read_whole;
use device::{deliver, send};
use refusals::out_of_memory_line;
use std::alloc::{AllocError, Global};
use std::io::{ErrorKind, Input, Read, Write};
use std::rt::Files;
use std::{fs, io};

// Returns the failure to report of two: out of memory, else the refusal with the lesser number.
fn first(e: Failure, f: Failure) -> Failure
    ensures { result ≡ first e f }
{
    match (e, f) {
        (Failure::Refused(a), Failure::Refused(b)) => { if a.number <= b.number { e } else { f } }
        _ => Failure::OutOfMemory,
    }
}

// Checks a program over a domain, and counts its instructions.
#[tactic(auto, using(crate::proofs::Wrongs::hex_wrongs))]
fn check_over<D: Domain>(alloc: Global, code: &str) -> Result<Answer, Failure>
    ensures { IfOk (answer_unless_memory result) (IsCheckedOver D.ops code.now) }
{
    let program = program_of::<D>(alloc, code)?;
    Ok(Answer::Accepted {
        count: program.code().len(),
    })
}

// Checks a program over the ranges of a profile.
fn check(alloc: Global, code: &str, profile: Profile) -> Result<Answer, Failure>
    ensures { IfOk (answer_unless_memory result) (IsChecked profile code.now) }
{
    match profile {
        Profile::Unsigned => check_over::<Interval>(alloc, code),
        Profile::Both => check_over::<Both>(alloc, code),
    }
}

// Judges a clash by a program. If both texts are faulty, it reports the lesser number.
#[tactic(auto, using(crate::proofs::Wrongs::wrongs))]
fn judge(alloc: Global, code: &str, clash: &ClashWords<'_>) -> Result<Answer, Failure>
    ensures { IfOk (answer_unless_memory result) (IsJudged code.now clash.now) }
{
    match (
        program_of::<verifier::Profile>(alloc, code),
        clash_of(alloc, clash),
    ) {
        (Ok(program), Ok(clash)) => {
            let answered = judge_one(&program, &clash);
            Ok(Answer::Ruled {
                verdict: answered.verdict(),
                answer: answered.answer(),
                steps: answered.steps(),
            })
        }
        (Err(e), Ok(_)) => Err(e),
        (Ok(_), Err(f)) => Err(f),
        (Err(e), Err(f)) => Err(first(e, f)),
    }
}

// Disassembles hex digits.
#[tactic(auto, using(crate::proofs::Wrongs::hex_wrongs))]
fn dis(alloc: Global, code: &str) -> Result<Answer, Failure>
    ensures { IfOk (answer_unless_memory result) (IsDisassembled code.now) }
{
    Ok(Answer::Disassembled {
        code: code_of(alloc, code)?,
    })
}

// Converts an error of reading a file.
fn reading_fault(kind: ErrorKind) -> Result<Answer, Failure>
    ensures device { IfOk result (λ said. (said ≡ DeviceFault) × (kind ≢ ErrorKind.OutOfMemory)) }
    ensures memory { IfErr result (λ failure. (failure ≡ OutOfMemory) × (kind ≡ ErrorKind.OutOfMemory)) }
{
    if kind == ErrorKind::OutOfMemory {
        Err(Failure::OutOfMemory)
    } else {
        Ok(Answer::DeviceFault)
    }
}

/// Assembles the reader's text.
#[tactic(auto, using(crate::proofs::Readings::readings))]
pub fn asm_from<R: Read + Drop>(alloc: Global, reader: R) -> Result<Answer, Failure>
    // If the reader's bytes are known, the answer is that of all of them.
    ensures { IfOk (answer_unless_memory result) (IsOfBytes (R.remaining reader)) }
{
    let bytes = match read_whole(alloc, reader) {
        Ok(bytes) => bytes,
        Err(error) => return reading_fault(error.kind()),
    };
    Ok(Answer::Assembled {
        code: code_in(alloc, &bytes)?,
    })
}

// Assembles the text of a file or of standard input.
#[tactic(auto, using(crate::proofs::Readings::readings))]
fn asm<R: Files + Input + AllocGlobal>(rt: &R, file: &str) -> Result<Answer, Failure>
    ensures { IfOk (answer_unless_memory result) (IsOfBytes None) }
{
    if is_standard_input(file) {
        return asm_from(rt.alloc(), rt.reader());
    }
    match fs::open(rt, file) {
        Ok(file) => asm_from(rt.alloc(), file),
        Err(error) => reading_fault(error.kind()),
    }
}

// Answers a question.
fn answer_to<R: Files + Input + AllocGlobal>(
    rt: &R,
    question: &Question<'_>,
) -> Result<Answer, Failure>
    ensures { IfOk (answer_unless_memory result) (IsAnswerTo question.now) }
{
    let alloc = rt.alloc();
    match question {
        Question::Check { code, profile, .. } => check(alloc, code, *profile),
        Question::Judge { code, clash, .. } => judge(alloc, code, clash),
        Question::Asm { file } => asm(rt, file),
        Question::Dis { code } => dis(alloc, code),
    }
}

/// An answer as heal prints it.
#[derive(Debug, Drop)]
pub struct Printed {
    /// The exit status.
    pub status: u8,
    /// The text on standard output.
    pub text: String,
    /// The words on standard error.
    pub words: String,
}

/// Returns the exit status and the printed texts of an answer.
pub fn texts_of(
    alloc: Global,
    question: &Question<'_>,
    said: Result<Answer, Failure>,
) -> Result<Printed, AllocError>
    ensures { IfOk result (λ p. IsPrinted question.now (answer_unless_memory said) p.status (string_bytes p.text)
        (string_bytes p.words)) }
{
    let said = answer_unless_memory(said)?;
    Ok(Printed {
        status: status(&said),
        text: line(alloc, &said)?,
        words: words_about(alloc, question, &said)?,
    })
}

// Returns the words about an answer: its explanation, and what the verifier knows about the code.
fn words_about(alloc: Global, question: &Question<'_>, said: &Answer) -> Result<String, AllocError>
    ensures { IfOk result (λ words. AreWordsAbout question.now said.now (string_bytes words)) }
{
    let line = explanation(alloc, said)?;
    let known = details(alloc, question, said)?;
    format!(in alloc; "{line}{known}")
}

/// Prints that memory ran out, and returns the exit status for that.
pub fn refuse_memory<W: Write, E: Write>(writer: &mut W, errors: &mut E) -> u8
    ensures status { result ≡ 3 }
    ensures text { AppendsFront (W.contents writer.old) (W.contents writer.new) (codes "refused 90\n") }
    ensures words { AppendsFront (E.contents errors.old) (E.contents errors.new) (codes "heal: out of memory\n") }
{
    // A failing writer doesn't change the status.
    let _ = deliver(writer, out_of_memory_line());
    let _ = send(errors, b"heal: out of memory\n");
    3
}

// Prints an answer: its text, and then its words.
fn print_answer<W: Write, E: Write>(said: &Printed, writer: &mut W, errors: &mut E) -> u8
    ensures text { Prints (W.contents writer.old) (W.contents writer.new) (string_bytes said.now.text)
        said.now.status result }
    ensures words { AppendsFront (E.contents errors.old) (E.contents errors.new) (string_bytes said.now.words) }
{
    let sent = deliver(writer, said.text.as_bytes());
    // Failing words don't change the status.
    let _ = send(errors, said.words.as_bytes());
    match sent {
        Ok(()) => said.status,
        Err(_) => 3,
    }
}

/// Replies to a question, and returns the exit status: 0, or 2 for a refusal, or 3 when out of memory, when a file can't
/// be read or when the writer fails. Code in a file is answered like its hex digits.
///
/// The answer goes to `writer`, which is flushed; the words that explain a refusal or a fault follow on `errors`.
pub fn reply_to<R: Files + Input + AllocGlobal, W: Write, E: Write>(
    rt: &R,
    question: &Question<'_>,
    writer: &mut W,
    errors: &mut E,
) -> u8
    ensures { IsReply question.now (W.contents writer.old) (W.contents writer.new) (E.contents errors.old)
        (E.contents errors.new) result }
{
    let Some(file) = code_file(question) else {
        return reply_by_digits(rt, question, writer, errors);
    };
    match digits_in(rt, file) {
        Ok(Ok(digits)) => {
            let asked = with_code(question, digits.as_str());
            reply_by_digits(rt, &asked, writer, errors)
        }
        Ok(Err(said)) => reply_tersely(rt.alloc(), &said, writer, errors),
        Err(AllocError) => refuse_memory(writer, errors),
    }
}

// Replies to a question that has its code in hex digits.
fn reply_by_digits<R: Files + Input + AllocGlobal, W: Write, E: Write>(
    rt: &R,
    question: &Question<'_>,
    writer: &mut W,
    errors: &mut E,
) -> u8
    ensures { IsDigitsReply question.now (W.contents writer.old) (W.contents writer.new) (E.contents errors.old)
        (E.contents errors.new) result }
{
    match texts_of(rt.alloc(), question, answer_to(rt, question)) {
        Ok(said) => print_answer(&said, writer, errors),
        Err(AllocError) => refuse_memory(writer, errors),
    }
}

// Prints an answer with its explanation alone.
fn reply_tersely<W: Write, E: Write>(
    alloc: Global,
    said: &Answer,
    writer: &mut W,
    errors: &mut E,
) -> u8
    ensures { IsTerse said.now (W.contents writer.old) (W.contents writer.new) (E.contents errors.old)
        (E.contents errors.new) result }
{
    match terse(alloc, said) {
        Ok(said) => print_answer(&said, writer, errors),
        Err(AllocError) => refuse_memory(writer, errors),
    }
}

// Returns the printed texts of an answer, with its explanation alone.
fn terse(alloc: Global, said: &Answer) -> Result<Printed, AllocError>
    ensures { IfOk result (λ p. (p.status ≡ exit_status said.now) × (string_bytes p.text ≡ answer_line said.now)
        × IsExplanation said.now (string_bytes p.words)) }
{
    Ok(Printed {
        status: status(said),
        text: line(alloc, said)?,
        words: explanation(alloc, said)?,
    })
}
