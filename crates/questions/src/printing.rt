//! Answers to questions, and how they are printed.
ghost use Rattle.std.specs.Prelude.{◌≡◌, IfOk, string_bytes};
ghost use Rattle.questions.specs.Lines.{IsExplanation, explained, hex_line, answer_line, exit_status, answer_unless_memory};

use crate::failures::Failure;
use assembler_text::disassemble;
use builtin_resolvers::Verdict3;
use insn_codec::encode;
use instruction_set::Code;
use refusals::{NumberedRefusal, words_of};
use std::alloc::{AllocError, Global};

/// The answer to a question.
#[derive(Debug, Drop)]
pub enum Answer {
    /// The program is accepted, and has this number of instructions.
    Accepted {
        count: usize,
    },
    /// The verdict, the program's answer R0, and the number of executed instructions.
    Ruled {
        verdict: Verdict3,
        answer: u64,
        steps: u32,
    },
    /// The code of a text, printed as hex digits.
    Assembled {
        code: Code,
    },
    /// The code of hex digits, printed as text.
    Disassembled {
        code: Code,
    },
    /// The question is refused.
    Refused(NumberedRefusal),
    /// A file can't be read.
    DeviceFault,
}

/// Separates running out of memory from the other answers.
pub fn answer_unless_memory(said: Result<Answer, Failure>) -> Result<Answer, AllocError>
    ensures { result ≡ answer_unless_memory said }
{
    match said {
        Ok(said) => Ok(said),
        Err(Failure::Refused(refusal)) => Ok(Answer::Refused(refusal)),
        Err(Failure::OutOfMemory) => Err(AllocError),
    }
}

// Returns the bytes of code as lower-case hex digits, on one line.
fn hex_line(alloc: Global, code: &Code) -> Result<String, AllocError>
    ensures { IfOk result (λ text. string_bytes text ≡ hex_line code.now) }
{
    let bytes = encode(alloc, code)?;
    let digits = hex::encode(alloc, &bytes)?;
    format!(in alloc; "{digits}\n")
}

/// Returns the printed lines of an answer.
pub fn line(alloc: Global, said: &Answer) -> Result<String, AllocError>
    ensures { IfOk result (λ text. string_bytes text ≡ answer_line said.now) }
{
    match said {
        Answer::Accepted { count } => format!(in alloc; "accepted {count} instructions\n"),
        Answer::Ruled { verdict, steps, .. } => {
            let word = verdict.as_str();
            format!(in alloc; "{word} in {steps} steps\n")
        }
        Answer::Assembled { code } => hex_line(alloc, code),
        Answer::Disassembled { code } => disassemble(alloc, code),
        Answer::Refused(refusal) => format!(in alloc; "{refusal}\n"),
        Answer::DeviceFault => String::from_str(alloc, "device fault\n"),
    }
}

// Returns the words of a refusal, and nothing for other answers.
fn words_for(said: &Answer) -> &'static str {
    match said {
        Answer::Refused(refusal) => words_of(refusal.number),
        _ => "",
    }
}

// Returns the explanation of an answer with these words.
fn explained(alloc: Global, said: &Answer, words: &str) -> Result<String, AllocError>
    ensures { IfOk result (λ text. string_bytes text ≡ explained said.now words.now) }
{
    match said {
        Answer::Refused(refusal) => format!(in alloc; "heal: {refusal}: {words}\n"),
        Answer::DeviceFault => String::from_str(alloc, "heal: the file can't be read\n"),
        _ => Ok(String::new(alloc)),
    }
}

/// Returns the line that explains an answer to a person: a refusal with its words, or a fault. Other answers need none.
pub fn explanation(alloc: Global, said: &Answer) -> Result<String, AllocError>
    ensures { IfOk result (λ text. IsExplanation said.now (string_bytes text)) }
{
    explained(alloc, said, words_for(said))
}

/// Returns the exit status: 0, or 2 for a refusal, or 3 for a file that can't be read.
pub fn status(said: &Answer) -> u8
    ensures { result ≡ exit_status said.now }
{
    match said {
        Answer::Refused(_) => 2,
        Answer::DeviceFault => 3,
        _ => 0,
    }
}
