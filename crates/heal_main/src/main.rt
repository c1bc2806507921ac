//! heal: heals splits of a cluster's names, judges clashes by untrusted code, and reads and writes such code.
#![tactic(auto)]

ghost use Rattle.std.specs.Prelude.{None};

mod answering;
mod obeying;
mod person;

use answering::answer;
use cluster::Healing;
use person::{code_details, print_refusal_words};
use refusals::{NumberedRefusal, words_of};
use scripts::{Machine, Narrator};
use std::io;
use std::io::{BufWriter, ErrorKind, Write};
use std::process::ExitCode;

/// Standard error, to which texts are written.
#[derive(Drop)]
struct StandardError<'a> {
    rt: &'a HostRuntime,
}

impl Write for StandardError<'_> {
    ghost contents = { λ _. None };

    fn write(&mut self, buf: &[u8]) -> io::Result<usize> {
        match str::from_utf8(buf) {
            Ok(text) => {
                eprint!(self.rt; "{text}")?;
                Ok(buf.len())
            }
            Err(_) => Err(io::Error::from(ErrorKind::InvalidData)),
        }
    }

    fn flush(&mut self) -> io::Result<()> {
        Ok(())
    }
}

/// Reports refused lines and healings on standard error. A failing device changes nothing.
impl Narrator for StandardError<'_> {
    fn listens(&self) -> bool {
        true
    }

    fn hear_refusal(&self, line: u64, refusal: NumberedRefusal) {
        let mut errors = StandardError { rt: self.rt };
        let words = words_of(refusal.number);
        let _ = print_refusal_words(Ok(()), &mut errors, line, refusal, words);
    }

    fn hear_code(&self, word: &[u8], refusal: NumberedRefusal) {
        if let Some(details) = code_details(self.rt.alloc(), word, refusal) {
            let _ = eprint!(self.rt; "{details}");
        }
    }

    fn hear_healing(&self, machine: &Machine, healing: &Healing) {
        let mut errors = StandardError { rt: self.rt };
        let _ = machine.narrate(Ok(()), &mut errors, healing);
    }
}

/// The words of the command line.
fn words(rt: &HostRuntime) -> io::Result<Vec<String>> {
    Ok(std::env::args(rt)?.collect(rt.alloc())?)
}

// Answers the words. What goes out is gathered first, where there is memory for that.
fn main(rt: HostRuntime) -> ExitCode {
    let words = words(&rt);
    let mut errors = StandardError { rt: &rt };
    let narrator = StandardError { rt: &rt };
    let status = match BufWriter::new(rt.alloc(), io::writer(&rt)) {
        Ok(mut output) => answer(&rt, words, &mut output, &mut errors, &narrator),
        Err(_) => answer(&rt, words, &mut io::writer(&rt), &mut errors, &narrator),
    };
    ExitCode::from(status)
}
