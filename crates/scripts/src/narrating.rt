//! The words that narrate a healing to a person.
ghost use Rattle.std.specs.Prelude.{◌≡◌, ◌++◌, codes};
ghost use Rattle.std.specs.Fmt.{decimal};
ghost use Rattle.device.specs.Sending.{SendsOn};
ghost use Rattle.cluster.specs.Healings.{healing_of};
ghost use Rattle.scripts.specs.Healed.{each_text};
ghost use Rattle.scripts.specs.Machines.{machine_of};
ghost use Rattle.scripts.specs.Narrated.{keeper_words, narration, notice_words, owners_words, registration_words, verdict_words};

use crate::healed::{Form, print_clashes};
use crate::labels::{Label, resolver_text};
use crate::machine::Machine;
use builtin_resolvers::{Notice, Verdict3};
use clash_record::{Name, Registration};
use cluster::Healing;
use device::{DeviceFault, send_after};
use exchange_core::Judged;
use partition_table::Clash;
use script_text::{print_notice, print_number, print_owner};
use std::io::Write;

impl Machine {
    /// Narrates the clashes of a healing in their order: the two registrations, the answer of the resolver at its word,
    /// who keeps the name, and the notices. Allocates nothing.
    pub fn narrate<W: Write>(
        &self,
        sent: Result<(), DeviceFault>,
        writer: &mut W,
        healing: &Healing,
    ) -> Result<(), DeviceFault>
        ensures { SendsOn sent (W.contents writer.old) (W.contents writer.new) (each_text
            (narration (machine_of self.now).labels) (healing_of healing.now).clashes (healing_of healing.now).rulings)
            result }
    {
        print_clashes(
            sent,
            writer,
            Form::Narration(&self.labels),
            healing.clashes(),
            healing.rulings(),
        )
    }
}

// Narrates a clash with its ruling.
pub(crate) fn narrate_ruling<W: Write>(
    sent: Result<(), DeviceFault>,
    writer: &mut W,
    labels: &[Label],
    clash: &Clash,
    judged: Judged,
) -> Result<(), DeviceFault>
    ensures { SendsOn sent (W.contents writer.old) (W.contents writer.new)
        (owners_words clash.now ++ verdict_words labels.now clash.now judged) result }
{
    let sent = narrate_owners(sent, writer, clash);
    narrate_verdict(sent, writer, labels, clash, judged)
}

// Narrates the two registrations of a clash.
fn narrate_owners<W: Write>(
    sent: Result<(), DeviceFault>,
    writer: &mut W,
    clash: &Clash,
) -> Result<(), DeviceFault>
    ensures { SendsOn sent (W.contents writer.old) (W.contents writer.new) (owners_words clash.now) result }
{
    let mut sent = send_after(sent, writer, clash.name().bytes());
    sent = send_after(sent, writer, b": the first is ");
    sent = narrate_registration(sent, writer, clash.first());
    sent = send_after(sent, writer, b", the second is ");
    sent = narrate_registration(sent, writer, clash.second());
    send_after(sent, writer, b"\n")
}

// Narrates a registration: its owner, stamp and weight.
fn narrate_registration<W: Write>(
    sent: Result<(), DeviceFault>,
    writer: &mut W,
    registration: &Registration,
) -> Result<(), DeviceFault>
    ensures { SendsOn sent (W.contents writer.old) (W.contents writer.new) (registration_words registration.now)
        result }
{
    let mut sent = print_owner(sent, writer, registration.owner);
    sent = send_after(sent, writer, b" (stamp ");
    sent = print_number(sent, writer, registration.stamp);
    sent = send_after(sent, writer, b", weight ");
    sent = print_number(sent, writer, registration.weight);
    send_after(sent, writer, b")")
}

// Narrates the answer of a clash's resolver, and who keeps the name.
fn narrate_verdict<W: Write>(
    sent: Result<(), DeviceFault>,
    writer: &mut W,
    labels: &[Label],
    clash: &Clash,
    judged: Judged,
) -> Result<(), DeviceFault>
    ensures { SendsOn sent (W.contents writer.old) (W.contents writer.new) (verdict_words labels.now clash.now judged)
        result }
{
    let resolver = clash.resolver();
    let mut sent = send_after(sent, writer, clash.name().bytes());
    sent = send_after(sent, writer, b": ");
    sent = send_after(sent, writer, resolver_text(labels, &resolver));
    sent = send_after(sent, writer, b" answers at word ");
    sent = print_number(sent, writer, judged.word);
    send_after(sent, writer, keeper_words(judged.answer))
}

// Returns who keeps the name.
fn keeper_words(verdict: Verdict3) -> &'static [u8]
    ensures { result.now ≡ keeper_words verdict }
{
    match verdict {
        Verdict3::First => b" that the first keeps the name\n",
        Verdict3::Second => b" that the second keeps the name\n",
        Verdict3::Neither => b" that nobody keeps the name\n",
    }
}

// Narrates a notice.
pub(crate) fn narrate_notice<W: Write>(
    sent: Result<(), DeviceFault>,
    writer: &mut W,
    name: &Name,
    notice: &Notice,
) -> Result<(), DeviceFault>
    ensures { SendsOn sent (W.contents writer.old) (W.contents writer.new) (notice_words name.now notice.now) result }
{
    let mut sent = send_after(sent, writer, name.bytes());
    sent = send_after(sent, writer, b": notice ");
    print_notice(sent, writer, notice)
}
