//! The words of refusals.
ghost use Rattle.std.specs.Prelude.{◌≡◌, length};
ghost use Rattle.heal_c.specs.Words.{as_bytes, words_in, words_of_refusal, copied};
ghost use Rattle.refusals.specs.declared.table.TheConstants.{REFUSALS};

use refusals::{REFUSALS, words_in};

/// Copies the words of a refusal, and returns the number of their bytes. Copies nothing if they have more bytes than
/// `words` has.
#[unsafe(no_mangle)]
pub extern "C" fn heal_refusal_words(number: u32, words: &mut [u8]) -> usize
    ensures length { result ≡ length (words_of_refusal number) }
    ensures words { words.new ≡ copied (words_of_refusal number) words.old }
{
    let text = words_of(number).as_bytes();
    if text.len() <= words.len() {
        words[..text.len()].copy_from_slice(text);
    }
    text.len()
}

// Returns the words of a refusal.
fn words_of(number: u32) -> &'static str
    ensures { result.now ≡ words_of_refusal number }
{
    words_for(all_refusals(), number)
}

// Returns the table of refusals.
fn all_refusals() -> &'static [(u32, &'static str)]
    ensures { as_bytes (λ text. text.now) result.now ≡ as_bytes (λ text. text.now) REFUSALS }
{
    &REFUSALS
}

// Returns the words of a number in a table.
fn words_for(refusals: &[(u32, &'static str)], number: u32) -> &'static str
    ensures { result.now ≡ words_in (as_bytes (λ text. text.now) refusals.now) number }
{
    words_in(refusals, number)
}
