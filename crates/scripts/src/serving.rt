//! A line and its answer.
ghost use Rattle.std.specs.Prelude.{◌≡◌, ◌<◌, ◌-◌, ◌^◌, ℕ, List, Option, IfOk};
ghost use Rattle.device.specs.Sending.{FlushesOn, Sends};
ghost use Rattle.script_text.specs.Lines.{Short};
ghost use Rattle.script_text.specs.Reading.{seen_line};
ghost use Rattle.script_text.specs.Commands.{asked};
ghost use Rattle.script_text.specs.Asking.{Heal, Upload};
ghost use Rattle.scripts.specs.Machines.{machine_of};
ghost use Rattle.scripts.specs.Replies.{reply_text, reply_status};
ghost use Rattle.scripts.specs.model.Progress.{SendsNext, Serves, ServesLine, ServesAsked};

use crate::crew::Crew;
use crate::healed::print_healing;
use crate::healing::Split;
use crate::long_line::LineTooLong;
use crate::machine::Machine;
use crate::narrator::Narrator;
use crate::reply::{Reply, print_reply};
use cluster::Healing;
use device::{DeviceFault, flush_after};
use judge_pool::Gate;
use script_text::{Command, LineBuffer, command_of};
use std::io::Write;
use std::rt::Files;
use std::sync::Wait;
use std::thread::Threads;

// A line of the input: its bytes, and whether it is too long for them.
#[derive(Clone, Copy)]
pub(crate) struct ReadLine<'a> {
    pub line: &'a LineBuffer,
    pub is_long: bool,
}

// Carries out the line of this number and writes its answer. Returns the status of the line.
pub(crate) fn serve<
    T: Files + Threads + Wait + Sync + AllocGlobal,
    G: Gate + Sync,
    N: Narrator,
    W: Write,
>(
    crew: &Crew<'_, T, G, N>,
    machine: &mut Machine,
    writer: &mut W,
    number: u64,
    read: ReadLine<'_>,
) -> Result<u8, DeviceFault>
    requires { (machine_of machine.old).latest < 2 ^ 64 - 1 }
    ensures { Serves (machine_of machine.old) (machine_of machine.new) (seen_line read.entry.is_long read.entry.line.now) number
        (W.contents writer.old) (W.contents writer.new) result }
{
    machine.renew_long();
    if read.is_long {
        return say(crew.narrator, writer, number, &Reply::refused(&LineTooLong));
    }
    answer(crew, machine, writer, number, read.line.as_slice())
}

// Carries out a line that fits on a machine whose long journals are renewed, and writes its answer.
fn answer<T: Files + Threads + Wait + Sync + AllocGlobal, G: Gate + Sync, N: Narrator, W: Write>(
    crew: &Crew<'_, T, G, N>,
    machine: &mut Machine,
    writer: &mut W,
    number: u64,
    line: &[u8],
) -> Result<u8, DeviceFault>
    requires { (machine_of machine.old).latest < 2 ^ 64 - 1 }
    ensures { ServesLine (machine_of machine.old) (machine_of machine.new) (Short line.now) number
        (W.contents writer.old) (W.contents writer.new) result }
{
    match command_of(crew.rt.alloc(), line) {
        Err(fault) => say(crew.narrator, writer, number, &Reply::refused(&fault)),
        Ok(None) => say(crew.narrator, writer, number, &Reply::Silent),
        Ok(Some(command)) => obey(crew, machine, writer, number, &command),
    }
}

// Carries out a command and writes its answer.
fn obey<T: Files + Threads + Wait + Sync + AllocGlobal, G: Gate + Sync, N: Narrator, W: Write>(
    crew: &Crew<'_, T, G, N>,
    machine: &mut Machine,
    writer: &mut W,
    number: u64,
    command: &Command<'_>,
) -> Result<u8, DeviceFault>
    requires { (machine_of machine.old).latest < 2 ^ 64 - 1 }
    ensures { ServesAsked (machine_of machine.old) (machine_of machine.new) (asked command.now) number
        (W.contents writer.old) (W.contents writer.new) result }
{
    let narrator = crew.narrator;
    match command {
        Command::Upload { label, code } => {
            upload(crew, machine, writer, number, Uploading { label, code })
        }
        Command::Register {
            side,
            name,
            terms,
            resolver,
        } => say(
            narrator,
            writer,
            number,
            &machine.register(*side, *name, *terms, resolver),
        ),
        Command::Unregister { side, name } => {
            say(narrator, writer, number, &machine.unregister(*side, name))
        }
        Command::Whereis { side, name } => {
            say(narrator, writer, number, &machine.whereis(*side, name))
        }
        Command::Show { side } => with_status(machine.print_rows(Ok(()), writer, *side), 0),
        Command::Heal {
            seed,
            uptimes,
            gone,
        } => {
            let split = Split {
                seed: *seed,
                uptimes: *uptimes,
                gone,
            };
            heal(crew, machine, writer, number, split)
        }
    }
}

// A program that is uploaded: its label, and the word that has its code or names its file.
#[derive(Clone, Copy)]
struct Uploading<'a> {
    label: &'a [u8],
    code: &'a [u8],
}

// Stores a program and writes the answer. Passes refused code to the narrator.
fn upload<T: Files + Threads + Wait + Sync + AllocGlobal, G: Gate + Sync, N: Narrator, W: Write>(
    crew: &Crew<'_, T, G, N>,
    machine: &mut Machine,
    writer: &mut W,
    number: u64,
    program: Uploading<'_>,
) -> Result<u8, DeviceFault>
    ensures { ServesAsked (machine_of machine.old) (machine_of machine.new) (Upload program.entry.label.now program.entry.code.now) number
        (W.contents writer.old) (W.contents writer.new) result }
{
    let reply = machine.upload_word(crew.rt, program.label, program.code);
    let said = say(crew.narrator, writer, number, &reply);
    tell_code(crew.narrator, program.code, &reply);
    said
}

// Heals the split and writes the outcome.
fn heal<T: Files + Threads + Wait + Sync + AllocGlobal, G: Gate + Sync, N: Narrator, W: Write>(
    crew: &Crew<'_, T, G, N>,
    machine: &mut Machine,
    writer: &mut W,
    number: u64,
    split: Split<'_>,
) -> Result<u8, DeviceFault>
    requires { (machine_of machine.old).latest < 2 ^ 64 - 1 }
    ensures { ServesAsked (machine_of machine.old) (machine_of machine.new) (Heal split.entry.seed split.entry.uptimes split.entry.gone.now) number
        (W.contents writer.old) (W.contents writer.new) result }
{
    match machine.heal(crew, split) {
        Ok(healing) => {
            let sent = print_healing(Ok(()), writer, &healing);
            with_status(
                tell_healing(crew.narrator, sent, writer, machine, &healing),
                0,
            )
        }
        Err(refusal) => say(crew.narrator, writer, number, &Reply::Refused(refusal)),
    }
}

// Writes a reply, and passes a refusal to the narrator. Returns its status.
fn say<N: Narrator, W: Write>(
    narrator: &N,
    writer: &mut W,
    number: u64,
    reply: &Reply,
) -> Result<u8, DeviceFault>
    ensures sends { SendsNext (W.contents writer.old) (W.contents writer.new) (reply_text number reply.now) result }
    ensures status { IfOk result (λ status. status ≡ reply_status reply.now) }
{
    let sent = print_reply(Ok(()), writer, number, reply);
    with_status(
        tell_reply(narrator, sent, writer, number, reply),
        reply.status(),
    )
}

// Tells the narrator of a refusal, once the answer is flushed.
fn tell_reply<N: Narrator, W: Write>(
    narrator: &N,
    sent: Result<(), DeviceFault>,
    writer: &mut W,
    number: u64,
    reply: &Reply,
) -> Result<(), DeviceFault>
    ensures { FlushesOn sent (W.contents writer.old) (W.contents writer.new) result }
{
    match reply {
        Reply::Refused(refusal) if narrator.listens() => {
            let sent = flush_after(sent, writer);
            narrator.hear_refusal(number, *refusal);
            sent
        }
        _ => sent,
    }
}

// Tells the narrator of refused code.
fn tell_code<N: Narrator>(narrator: &N, word: &[u8], reply: &Reply) {
    match reply {
        Reply::Refused(refusal) if narrator.listens() => narrator.hear_code(word, *refusal),
        _ => {}
    }
}

// Tells the narrator of a healing, once the answer is flushed.
fn tell_healing<N: Narrator, W: Write>(
    narrator: &N,
    sent: Result<(), DeviceFault>,
    writer: &mut W,
    machine: &Machine,
    healing: &Healing,
) -> Result<(), DeviceFault>
    ensures { FlushesOn sent (W.contents writer.old) (W.contents writer.new) result }
{
    if !narrator.listens() {
        return sent;
    }
    let sent = flush_after(sent, writer);
    narrator.hear_healing(machine, healing);
    sent
}

// What was sent, with a status.
fn with_status(sent: Result<(), DeviceFault>, status: u8) -> Result<u8, DeviceFault>
    ensures sent { (old new : Option (List ℕ)) (text : List ℕ) → Sends old new text sent → Sends old new text result }
    ensures status { IfOk result (λ answered. answered ≡ status) }
{
    sent.map(|()| status)
}
