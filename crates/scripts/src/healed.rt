//! Printing the outcome of a healing.
ghost use Rattle.std.specs.Prelude.{◌≡◌, ◌++◌};
ghost use Rattle.std.specs.List.{flat_map};
ghost use Rattle.device.specs.Sending.{SendsOn};
ghost use Rattle.builtin_resolvers.specs.Telling.{notices_of};
ghost use Rattle.cluster.specs.Healings.{healing_of};
ghost use Rattle.scripts.specs.Healed.{each_text, clash_notices, gone_text, healing_text};
ghost use Rattle.scripts.specs.model.Forms.{judged_in, notice_in, ruling_in};

use crate::labels::Label;
use crate::narrating::{narrate_notice, narrate_ruling};
use builtin_resolvers::{Notice, Verdict3, notices};
use clash_record::{Name, ResolverId, Withdrawal};
use cluster::Healing;
use device::DeviceFault;
use exchange_core::Judged;
use partition_table::{Clash, ClashList};
use script_text::{print_clash, print_healed, print_notice, print_withdrawal};
use std::io::Write;

// The form in which a healing is printed.
#[derive(Clone, Copy)]
pub(crate) enum Form<'a> {
    Answer,
    // Words for a person, in which programs have these labels.
    Narration(&'a [Label]),
}

/// Prints the clashes in their order, each with its notices, then the withdrawn names, and then the number of names in
/// the one table.
pub fn print_healing<W: Write>(
    sent: Result<(), DeviceFault>,
    writer: &mut W,
    healing: &Healing,
) -> Result<(), DeviceFault>
    ensures { SendsOn sent (W.contents writer.old) (W.contents writer.new) (healing_text (healing_of healing.now))
        result }
{
    let mut sent = print_clashes(
        sent,
        writer,
        Form::Answer,
        healing.clashes(),
        healing.rulings(),
    );
    sent = print_gone(sent, writer, healing.withdrawn());
    print_healed(sent, writer, healing.names())
}

// Prints the clashes, each with its ruling.
pub(crate) fn print_clashes<W: Write>(
    sent: Result<(), DeviceFault>,
    writer: &mut W,
    form: Form<'_>,
    clashes: &ClashList,
    rulings: &[Judged],
) -> Result<(), DeviceFault>
    ensures { SendsOn sent (W.contents writer.old) (W.contents writer.new)
        (each_text (judged_in form.entry) clashes.now rulings.now) result }
{
    let mut sent = sent;
    for (clash, judged) in clashes.iter().zip(rulings) {
        sent = print_judged(sent, writer, form, clash, *judged);
    }
    sent
}

// Prints a clash with its ruling and its notices.
fn print_judged<W: Write>(
    sent: Result<(), DeviceFault>,
    writer: &mut W,
    form: Form<'_>,
    clash: &Clash,
    judged: Judged,
) -> Result<(), DeviceFault>
    ensures { SendsOn sent (W.contents writer.old) (W.contents writer.new) (judged_in form.entry clash.now judged)
        result }
{
    let sent = print_ruling(sent, writer, form, clash, judged);
    print_notices(sent, writer, form, clash, judged.answer)
}

// Prints a clash with its ruling.
fn print_ruling<W: Write>(
    sent: Result<(), DeviceFault>,
    writer: &mut W,
    form: Form<'_>,
    clash: &Clash,
    judged: Judged,
) -> Result<(), DeviceFault>
    ensures { SendsOn sent (W.contents writer.old) (W.contents writer.new) (ruling_in form.entry clash.now judged)
        result }
{
    match form {
        Form::Answer => print_clash(sent, writer, clash.name(), judged.answer, judged.word),
        Form::Narration(labels) => narrate_ruling(sent, writer, labels, clash, judged),
    }
}

// Prints the notices of this verdict.
fn print_notices<W: Write>(
    sent: Result<(), DeviceFault>,
    writer: &mut W,
    form: Form<'_>,
    clash: &Clash,
    verdict: Verdict3,
) -> Result<(), DeviceFault>
    ensures { SendsOn sent (W.contents writer.old) (W.contents writer.new)
        (flat_map (notice_in form.entry clash.now.name) (clash_notices clash.now.first.resolver clash.now verdict))
        result }
{
    let ResolverId::Builtin(builtin) = clash.resolver() else {
        return sent;
    };
    let name = clash.name();
    let (first, second) = (clash.first().owner, clash.second().owner);
    let told = notices(builtin, name, first, second, verdict);
    let mut sent = sent;
    for notice in told.as_slice() {
        sent = print_told(sent, writer, form, name, notice);
    }
    sent
}

// Prints a notice.
fn print_told<W: Write>(
    sent: Result<(), DeviceFault>,
    writer: &mut W,
    form: Form<'_>,
    name: &Name,
    notice: &Notice,
) -> Result<(), DeviceFault>
    ensures { SendsOn sent (W.contents writer.old) (W.contents writer.new) (notice_in form.entry name.now notice.now)
        result }
{
    match form {
        Form::Answer => print_notice(sent, writer, notice),
        Form::Narration(_) => narrate_notice(sent, writer, name, notice),
    }
}

// Prints the withdrawn names.
fn print_gone<W: Write>(
    sent: Result<(), DeviceFault>,
    writer: &mut W,
    gone: &[Withdrawal],
) -> Result<(), DeviceFault>
    ensures { SendsOn sent (W.contents writer.old) (W.contents writer.new) (gone_text gone.now) result }
{
    let mut sent = sent;
    for withdrawal in gone {
        sent = print_withdrawal(sent, writer, withdrawal.side, &withdrawal.name);
    }
    sent
}
