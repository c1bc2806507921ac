//! From the words of the command line to the output and the status.
ghost use Rattle.std.specs.Prelude.{◌≡◌, ◌⊎◌, IfOk, IfErr, map};
ghost use Rattle.std.specs.IoError.{error_kind};
ghost use Rattle.std.specs.String.{string_bytes};
ghost use Rattle.command_line.specs.Asked.{IsForMemory};
ghost use Rattle.heal_main.specs.Answering.{AnswersWords, IsUnread};

use crate::obeying::obey;
use command_line::{CommandFault, command};
use scripts::Narrator;
use std::convert::AsStr;
use std::io;
use std::io::{Input, Write};
use std::rt::Files;
use std::sync::Wait;
use std::thread::Threads;

/// Prints a usage error and returns its status. A device failure changes nothing.
fn refuse<E: Write>(fault: &CommandFault, errors: &mut E) -> u8
    ensures memory { IsForMemory fault.now → result ≡ 3 }
    ensures either { ((result ≡ 1) × (IsForMemory fault.now → ⊥)) ⊎ ((result ≡ 3) × IsForMemory fault.now) }
{
    let _ = write!(errors, "{fault}");
    fault.status()
}

/// Carries out the request of the words, and returns the program's status.
fn answer_words<
    R: Files + Input + Threads + Wait + Sync + AllocGlobal,
    S: AsStr,
    O: Write,
    E: Write,
    N: Narrator,
>(rt: &R, words: &[S], output: &mut O, errors: &mut E, narrator: &N) -> u8
    ensures { AnswersWords (map S.text words.now) (O.contents output.old) (O.contents output.new) (E.contents errors.old)
        (E.contents errors.new) result }
{
    match command(rt.alloc(), words) {
        Ok(task) => obey(rt, &task, output, errors, narrator),
        Err(fault) => refuse(&fault, errors),
    }
}

/// Like `answer_words`, for words that may be unreadable. A usage error is printed as an error, with status 1 and no
/// output; out of memory while the words are read is status 3.
pub fn answer<
    R: Files + Input + Threads + Wait + Sync + AllocGlobal,
    O: Write,
    E: Write,
    N: Narrator,
>(rt: &R, words: io::Result<Vec<String>>, output: &mut O, errors: &mut E, narrator: &N) -> u8
    ensures answered { IfOk words (λ words. AnswersWords (map string_bytes words.items) (O.contents output.old)
        (O.contents output.new) (E.contents errors.old) (E.contents errors.new) result) }
    ensures unread { IfErr words (λ error. IsUnread (error_kind error) (O.contents output.old) (O.contents output.new)
        result) }
{
    match words {
        Ok(words) => answer_words(rt, words.as_slice(), output, errors, narrator),
        Err(error) => refuse(&CommandFault::from(error), errors),
    }
}
