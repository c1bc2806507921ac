//! The lines that scripts print.
ghost use Rattle.std.specs.Prelude.{◌≡◌, ◌+◌, ◌≤◌, ◌∷◌, ◌++◌, length, drop, codes};
ghost use Rattle.std.specs.Fmt.{decimal};
ghost use Rattle.device.specs.Sending.{SendsOn};
ghost use Rattle.clash_record.specs.Texts.{owner_text, side_text};
ghost use Rattle.script_text.specs.Printed.{numbers_text, owner_line, uploaded_line, row_line, clash_line, notice_line};
ghost use Rattle.script_text.specs.Printed.{withdrawal_line, healed_line, refusal_line};

use builtin_resolvers::{Notice, Verdict3};
use clash_record::{Name, Owner, Registration, SideId};
use device::{DeviceFault, send_after};
use itoa::{Buffer, write_digits};
use refusals::NumberedRefusal;
use std::io::Write;

// The maximum length of ` word `, a word and a line feed in bytes.
const WORD_LEN: usize = 27;

// The maximum length of a stamp and a weight with spaces around each in bytes.
const FIGURES_LEN: usize = 43;

/// Prints the label of an uploaded program and its number of instructions.
pub fn print_code_count<W: Write>(
    sent: Result<(), DeviceFault>,
    writer: &mut W,
    label: &[u8],
    count: usize,
) -> Result<(), DeviceFault>
    ensures { SendsOn sent (W.contents writer.old) (W.contents writer.new) (uploaded_line label.now count) result }
{
    let mut sent = send_after(sent, writer, b"uploaded ");
    sent = send_after(sent, writer, label);
    sent = send_after(sent, writer, b" ");
    sent = print_number(sent, writer, count as u64);
    send_after(sent, writer, b" instructions\n")
}

/// Prints an owner on a line.
pub fn print_owner_line<W: Write>(
    sent: Result<(), DeviceFault>,
    writer: &mut W,
    owner: Owner,
) -> Result<(), DeviceFault>
    ensures { SendsOn sent (W.contents writer.old) (W.contents writer.new) (owner_line owner) result }
{
    let sent = print_owner(sent, writer, owner);
    send_after(sent, writer, b"\n")
}

/// Prints a row of a table: the name, its registration and the word of its resolver.
pub fn print_row<W: Write>(
    sent: Result<(), DeviceFault>,
    writer: &mut W,
    name: &Name,
    registration: &Registration,
    resolver: &[u8],
) -> Result<(), DeviceFault>
    ensures { SendsOn sent (W.contents writer.old) (W.contents writer.new)
        (row_line name.now registration.now resolver.now) result }
{
    let mut sent = send_after(sent, writer, name.bytes());
    sent = print_figures(sent, writer, registration);
    sent = send_after(sent, writer, resolver);
    send_after(sent, writer, b"\n")
}

/// Prints the verdict of a clash and its word.
#[tactic(auto, using(crate::proofs::Pieces::digits_at_most))]
pub fn print_clash<W: Write>(
    sent: Result<(), DeviceFault>,
    writer: &mut W,
    name: &Name,
    verdict: Verdict3,
    word: u64,
) -> Result<(), DeviceFault>
    ensures { SendsOn sent (W.contents writer.old) (W.contents writer.new) (clash_line name.now verdict word) result }
{
    let mut text = [b'\n'; WORD_LEN];
    let number = write_digits(word, &mut text, WORD_LEN - 1);
    let start = put_text(&mut text, number, b" word ");
    let mut sent = send_after(sent, writer, name.bytes());
    sent = send_after(sent, writer, b" ");
    sent = send_after(sent, writer, verdict.as_str().as_bytes());
    send_after(sent, writer, &text[start..])
}

/// Prints a notice to an owner on a line.
pub fn print_notice<W: Write>(
    sent: Result<(), DeviceFault>,
    writer: &mut W,
    notice: &Notice,
) -> Result<(), DeviceFault>
    ensures { SendsOn sent (W.contents writer.old) (W.contents writer.new) (notice_line notice.now) result }
{
    let sent = send_after(sent, writer, notice.text().as_str().as_bytes());
    send_after(sent, writer, b"\n")
}

/// Prints that a name was withdrawn on a side.
pub fn print_withdrawal<W: Write>(
    sent: Result<(), DeviceFault>,
    writer: &mut W,
    side: SideId,
    name: &Name,
) -> Result<(), DeviceFault>
    ensures { SendsOn sent (W.contents writer.old) (W.contents writer.new) (withdrawal_line side name.now) result }
{
    let mut sent = send_after(sent, writer, b"withdrew ");
    sent = send_after(sent, writer, side.as_str().as_bytes());
    sent = send_after(sent, writer, b" ");
    sent = send_after(sent, writer, name.bytes());
    send_after(sent, writer, b"\n")
}

/// Prints the number of names after a healing.
pub fn print_healed<W: Write>(
    sent: Result<(), DeviceFault>,
    writer: &mut W,
    count: usize,
) -> Result<(), DeviceFault>
    ensures { SendsOn sent (W.contents writer.old) (W.contents writer.new) (healed_line count) result }
{
    let mut sent = send_after(sent, writer, b"healed ");
    sent = print_number(sent, writer, count as u64);
    send_after(sent, writer, b" names\n")
}

/// Prints that the line with this number was refused.
pub fn print_refusal<W: Write>(
    sent: Result<(), DeviceFault>,
    writer: &mut W,
    line: u64,
    refusal: NumberedRefusal,
) -> Result<(), DeviceFault>
    ensures { SendsOn sent (W.contents writer.old) (W.contents writer.new) (refusal_line line refusal) result }
{
    let mut sent = send_after(sent, writer, b"line ");
    sent = print_number(sent, writer, line);
    sent = send_after(sent, writer, b": ");
    sent = send_after(sent, writer, refusal.text().as_str().as_bytes());
    send_after(sent, writer, b"\n")
}

// Prints the owner, the stamp and the weight of a registration, with spaces around each.
fn print_figures<W: Write>(
    sent: Result<(), DeviceFault>,
    writer: &mut W,
    registration: &Registration,
) -> Result<(), DeviceFault>
    ensures { SendsOn sent (W.contents writer.old) (W.contents writer.new)
        (codes " " ++ (owner_text registration.now.owner ++ (numbers_text registration.now ++ codes " "))) result }
{
    let mut text = [b' '; FIGURES_LEN];
    let weight = put_number(&mut text, FIGURES_LEN - 1, b' ', registration.weight);
    let stamp = put_number(&mut text, weight, b' ', registration.stamp);
    let mut sent = send_after(sent, writer, b" ");
    sent = print_owner(sent, writer, registration.owner);
    send_after(sent, writer, &text[stamp..])
}

// Writes a byte and then a number, so that they end at `end`. Returns where they start.
#[tactic(auto, using(crate::proofs::Pieces::digits_at_most))]
fn put_number(text: &mut [u8], end: usize, byte: u8, number: u64) -> usize
    requires { (21 ≤ end) × (end ≤ length text.old) }
    ensures bounds { (result ≤ end) × (end ≤ result + 21) }
    ensures written { drop result text.new ≡ byte ∷ (decimal number ++ drop end text.old) }
{
    let start = write_digits(number, text, end) - 1;
    text[start] = byte;
    start
}

// Writes a text, so that it ends at `end`. Returns where it starts.
fn put_text(text: &mut [u8], end: usize, part: &[u8]) -> usize
    requires { (length part.now ≤ end) × (end ≤ length text.old) }
    ensures start { result + length part.now ≡ end }
    ensures written { drop result text.new ≡ part.now ++ drop end text.old }
{
    let start = end - part.len();
    text[start..end].copy_from_slice(part);
    start
}

/// Prints an owner.
pub fn print_owner<W: Write>(
    sent: Result<(), DeviceFault>,
    writer: &mut W,
    owner: Owner,
) -> Result<(), DeviceFault>
    ensures { SendsOn sent (W.contents writer.old) (W.contents writer.new) (owner_text owner) result }
{
    send_after(sent, writer, owner.text().as_str().as_bytes())
}

/// Prints a number in decimal digits.
pub fn print_number<W: Write>(
    sent: Result<(), DeviceFault>,
    writer: &mut W,
    number: u64,
) -> Result<(), DeviceFault>
    ensures { SendsOn sent (W.contents writer.old) (W.contents writer.new) (decimal number) result }
{
    let mut buffer = Buffer::new();
    send_after(sent, writer, buffer.format(number).as_bytes())
}
