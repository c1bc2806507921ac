//! The code of a question in a file.
ghost use Rattle.std.specs.Prelude.{◌≡◌, None, IfOk, option_map};
ghost use Rattle.code_file.specs.Files.{file_named};
ghost use Rattle.questions.specs.CodeWords.{IsOfFile, code_file, found_digits, told_failure, told_file, with_digits};

use crate::failures::{Failure, failure_of};
use crate::printing::Answer;
use crate::question::{ClashWords, Question};
use code_file::FileFault;
use std::alloc::{AllocError, Global};
use std::io::Read;
use std::rt::Files;

// Returns the file that a word for code names, if it begins with `@`.
fn file_named(word: &str) -> Option<&str>
    ensures { option_map (λ file. file.now) result ≡ file_named word.now }
{
    word.strip_prefix('@')
}

/// Returns the file that has the code of a question, if it isn't given by digits.
pub(crate) fn code_file<'a>(question: &Question<'a>) -> Option<&'a str>
    ensures { option_map (λ file. file.now) result ≡ code_file question.now }
{
    match question {
        Question::Check { code, .. } | Question::Judge { code, .. } | Question::Dis { code } => {
            file_named(code)
        }
        Question::Asm { .. } => None,
    }
}

// Returns a clash at a shorter lifetime.
fn shorter<'a: 'b, 'b>(clash: &ClashWords<'a>) -> ClashWords<'b>
    ensures { result ≡ clash.now }
{
    match *clash {
        ClashWords::Bytes(digits) => ClashWords::Bytes(digits),
        ClashWords::Fields {
            name,
            first,
            second,
            word,
        } => ClashWords::Fields {
            name,
            first,
            second,
            word,
        },
    }
}

/// Returns the question with these digits for its code.
pub(crate) fn with_code<'a: 'b, 'b>(question: &Question<'a>, digits: &'b str) -> Question<'b>
    ensures { result ≡ with_digits digits.entry question.now }
{
    match question {
        Question::Check {
            profile,
            explain,
            ..
        } => Question::Check {
            code: digits,
            profile: *profile,
            explain: *explain,
        },
        Question::Judge { clash, explain, .. } => Question::Judge {
            code: digits,
            clash: shorter(clash),
            explain: *explain,
        },
        Question::Asm { file } => Question::Asm { file },
        Question::Dis { .. } => Question::Dis { code: digits },
    }
}

// Returns the answer of a failure, or out of memory.
fn told_failure(failure: Failure) -> Result<Result<String, Answer>, AllocError>
    ensures { result ≡ told_failure failure }
{
    match failure {
        Failure::Refused(refusal) => Ok(Err(Answer::Refused(refusal))),
        Failure::OutOfMemory => Err(AllocError),
    }
}

// Separates running out of memory from the answers for a file without digits.
fn told(found: Result<String, FileFault>) -> Result<Result<String, Answer>, AllocError>
    ensures { result ≡ told_file found }
{
    match found {
        Ok(digits) => Ok(Ok(digits)),
        Err(FileFault::Unreadable) => Ok(Err(Answer::DeviceFault)),
        Err(FileFault::TooLong) => told_failure(failure_of(&FileFault::TooLong)),
        Err(FileFault::Code(fault)) => told_failure(failure_of(&fault)),
    }
}

/// Reads a reader to its end as a file with code, and returns the code in hex digits, or else the answer with the fault.
pub fn digits_from<R: Read + Drop>(
    alloc: Global,
    reader: R,
) -> Result<Result<String, Answer>, AllocError>
    // If the reader's bytes are known, these are the digits, or the answer, of all of them.
    ensures { IfOk result (λ found. IsOfFile (R.remaining reader) (found_digits found)) }
{
    told(code_file::digits_from(alloc, reader))
}

/// Returns the code in a file in hex digits, or else the answer with the fault.
pub(crate) fn digits_in<R: Files + AllocGlobal>(
    rt: &R,
    file: &str,
) -> Result<Result<String, Answer>, AllocError>
    ensures { IfOk result (λ found. IsOfFile None (found_digits found)) }
{
    told(code_file::digits_in(rt, file))
}
