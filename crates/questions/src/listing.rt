//! The version, and the list of refusals.
ghost use Rattle.std.specs.Prelude.{◌≡◌, IfOk, string_bytes};
ghost use Rattle.std.specs.List.{flat_map};
ghost use Rattle.questions.specs.Lines.{IsListing, Lists, Prints, refusal_row, version_line};
ghost use Rattle.refusals.specs.declared.table.TheConstants.{REFUSALS};

use device::deliver;
use refusals::{REFUSALS, out_of_memory_line};
use std::alloc::{AllocError, Global};
use std::io::Write;

/// The line for the version, which is that of the file VERSION.
pub const VERSION_LINE: &'static [u8] = b"heal 0.1.0\n";

/// Prints the version, and returns the exit status: 0, or 3 if the writer fails.
pub fn print_version<W: Write>(writer: &mut W) -> u8
    ensures { Prints (W.contents writer.old) (W.contents writer.new) version_line 0 result }
{
    match deliver(writer, VERSION_LINE) {
        Ok(()) => 0,
        Err(_) => 3,
    }
}

// Returns the rows of a table of refusals, one per line.
fn rows_text(alloc: Global, refusals: &[(u32, &'static str)]) -> Result<String, AllocError>
    ensures { IfOk result (λ text. string_bytes text ≡ flat_map (λ row. refusal_row row.0 row.1.now) refusals.now) }
{
    let mut text = String::new(alloc);
    for (number, words) in refusals {
        let row = format!(in alloc; "{number} {words}\n")?;
        text.push_str(&row)?;
    }
    Ok(text)
}

// Prints a table of refusals.
fn print_table<W: Write>(alloc: Global, refusals: &[(u32, &'static str)], writer: &mut W) -> u8
    ensures { Lists (flat_map (λ row. refusal_row row.0 row.1.now) refusals.now) (W.contents writer.old)
        (W.contents writer.new) result }
{
    match rows_text(alloc, refusals) {
        Ok(text) => match deliver(writer, text.as_bytes()) {
            Ok(()) => 0,
            Err(_) => 3,
        },
        Err(AllocError) => {
            let _ = deliver(writer, out_of_memory_line());
            3
        }
    }
}

// Returns the table of refusals.
fn all_refusals() -> &'static [(u32, &'static str)]
    ensures { flat_map (λ row. refusal_row row.0 row.1.now) result.now
        ≡ flat_map (λ row. refusal_row row.0 row.1.now) REFUSALS }
{
    &REFUSALS
}

/// Prints each refusal with its words, and returns the exit status: 0, or 3 if the writer fails or memory runs out.
pub fn print_refusals<W: Write>(alloc: Global, writer: &mut W) -> u8
    ensures { IsListing (W.contents writer.old) (W.contents writer.new) result }
{
    print_table(alloc, all_refusals(), writer)
}
