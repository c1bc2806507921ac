//! Words about a script for the person at standard error.
ghost use Rattle.std.specs.Prelude.{◌≡◌, ◌++◌, codes};
ghost use Rattle.device.specs.Sending.{SendsOn};
ghost use Rattle.heal_main.specs.Words.{refusal_words};

use cluster::Healing;
use device::{DeviceFault, send_after};
use explanation::explain_at;
use insn_codec::decode;
use refusals::{NumberedRefusal, Place};
use script_text::print_number;
use scripts::{Machine, Narrator};
use std::alloc::Global;
use std::io::Write;
use verifier::Profile;

/// Prints the refusal of a line with its words.
pub(crate) fn print_refusal_words<W: Write>(
    sent: Result<(), DeviceFault>,
    writer: &mut W,
    line: u64,
    refusal: NumberedRefusal,
    words: &str,
) -> Result<(), DeviceFault>
    ensures { SendsOn sent (W.contents writer.old) (W.contents writer.new) (refusal_words line refusal words.now)
        result }
{
    let mut sent = send_after(sent, writer, b"heal: line ");
    sent = print_number(sent, writer, line);
    sent = send_after(sent, writer, b": ");
    sent = send_after(sent, writer, refusal.text().as_str().as_bytes());
    sent = send_after(sent, writer, b": ");
    sent = send_after(sent, writer, words.as_bytes());
    send_after(sent, writer, b"\n")
}

/// Returns what the verifier knows before the instruction that an upload's refusal names, in words.
///
/// The upload's word has the code in hex digits. Returns `None` for a word that names a file.
pub(crate) fn code_details(alloc: Global, word: &[u8], refusal: NumberedRefusal) -> Option<String> {
    let Some(Place::Slot(slot)) = refusal.place else {
        return None;
    };
    let bytes = hex::decode(alloc, word).ok()?;
    let code = decode(alloc, &bytes).ok()?;
    explain_at::<Profile>(alloc, &code, slot as usize).ok()
}

/// A narrator that hears of healings only on request.
#[derive(Clone, Copy, Debug)]
pub(crate) struct Listener<'a, N> {
    pub narrator: &'a N,
    pub explain: bool,
}

impl<'a, N: Narrator> Narrator for Listener<'a, N> {
    fn listens(&self) -> bool {
        self.narrator.listens()
    }

    fn hear_refusal(&self, line: u64, refusal: NumberedRefusal) {
        self.narrator.hear_refusal(line, refusal);
    }

    fn hear_code(&self, word: &[u8], refusal: NumberedRefusal) {
        self.narrator.hear_code(word, refusal);
    }

    fn hear_healing(&self, machine: &Machine, healing: &Healing) {
        if self.explain {
            self.narrator.hear_healing(machine, healing);
        }
    }
}
