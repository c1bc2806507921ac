//! The words of a line.
ghost use Rattle.std.specs.Prelude.{◌≡◌, ◌≢◌, ◌≤◌, ◌<◌, ◌⊎◌, ℕ, true, false, List, [], ◌∷◌, ◌++◌, length, map, take, drop, MatchOption, IfOk};
ghost use Rattle.std.specs.List.{list_all};
ghost use Rattle.script_text.specs.Words.{words_of, parts_of, is_printable};
ghost use Rattle.script_text.specs.model.Parts.{joined, StartsNoSpace};

use std::alloc::{AllocError, Global};

// As many words as follow `register`.
pub(crate) const REGISTER_WORDS: usize = 7;

// The number of bytes that are searched for a space at once: more than most lines have.
const BLOCK: usize = 64;

/// Returns the words of a text, which spaces separate. Allocates the list of them.
pub fn words_in(alloc: Global, text: &[u8]) -> Result<Vec<&[u8]>, AllocError>
    ensures { IfOk result (λ words. map (λ word. word.now) words.items ≡ words_of text.now) }
{
    let mut words = Vec::with_capacity(alloc, REGISTER_WORDS)?;
    let mut rest = text;
    while let Some((word, more)) = split_word(rest) {
        words.push(word)?;
        rest = more;
    }
    Ok(words)
}

// Puts the words of a text into `words` and returns whether it has as many. Allocates nothing. Is kept out of line, so
// that it stays one loop.
#[inline(never)]
pub(crate) fn fill_words<'a>(text: &'a [u8], words: &mut [&'a [u8]]) -> bool
    ensures all { result ≡ true → map (λ word. word.now) words.new ≡ words_of text.now }
    ensures other { result ≡ false → length (words_of text.now) ≢ length words.old }
    ensures len { length words.new ≡ length words.old }
{
    let mut rest = text;
    for at in 0..words.len() {
        let Some((word, more)) = split_word(rest) else {
            return false;
        };
        words[at] = word;
        rest = more;
    }
    split_word(rest).is_none()
}

// The first word and what follows it. Is kept in line, since a call takes longer than most words.
#[inline(always)]
pub(crate) fn split_word(text: &[u8]) -> Option<(&[u8], &[u8])>
    ensures parts { MatchOption result (words_of text.now ≡ [])
        (λ r. (words_of text.now ≡ r.0.now ∷ words_of r.1.now) × (0 < length r.0.now)) }
    ensures shorter { MatchOption result (Unit {0}) (λ r. length r.1.now < length text.now) }
{
    let text = skip_spaces(text);
    if text.is_empty() {
        return None;
    }
    Some(text.split_at(word_end(text)))
}

// Checks whether all bytes are printable characters of ASCII. Reads them all, so that many are tested at once.
pub(crate) fn is_printable(text: &[u8]) -> bool
    ensures { result ≡ list_all is_printable text.now }
{
    let mut all = true;
    for byte in text {
        all &= (b' '..=b'~').contains(byte);
    }
    all
}

// The text from its first byte that is no space on.
fn skip_spaces(text: &[u8]) -> &[u8]
    ensures words { words_of result.now ≡ words_of text.now }
    ensures start { StartsNoSpace result.now }
    ensures shorter { length result.now ≤ length text.now }
{
    let mut rest = text;
    while let [b' ', more @ ..] = rest {
        rest = more;
    }
    rest
}

// Where the first space stands, or the end. Most texts are shorter than a block.
#[inline(always)]
fn word_end(text: &[u8]) -> usize
    ensures bound { result ≤ length text.now }
    ensures joined { parts_of text.now ≡ joined (take result text.now) (parts_of (drop result text.now)) }
    ensures space { drop result text.now ≡ [] ⊎ ((more : List ℕ) × (drop result text.now ≡ 32 ∷ more)) }
{
    if text.len() < BLOCK {
        first_space(text)
    } else {
        end_by_blocks(text)
    }
}

// Like `word_end`. Skips whole blocks first.
fn end_by_blocks(text: &[u8]) -> usize
    ensures bound { result ≤ length text.now }
    ensures joined { parts_of text.now ≡ joined (take result text.now) (parts_of (drop result text.now)) }
    ensures space { drop result text.now ≡ [] ⊎ ((more : List ℕ) × (drop result text.now ≡ 32 ∷ more)) }
{
    let mut at = 0;
    while text.len() - at >= BLOCK && !has_space(&text[at..at + BLOCK]) {
        at += BLOCK;
    }
    at + first_space(&text[at..])
}

// Checks whether there is a space. Reads all bytes, so that many are tested at once.
fn has_space(bytes: &[u8]) -> bool
    ensures { result ≡ false → (rest : List ℕ) → parts_of (bytes.now ++ rest) ≡ joined bytes.now (parts_of rest) }
{
    let mut found = false;
    for byte in bytes {
        found |= *byte == b' ';
    }
    found
}

// Like `word_end`, byte by byte.
fn first_space(text: &[u8]) -> usize
    ensures bound { result ≤ length text.now }
    ensures joined { parts_of text.now ≡ joined (take result text.now) (parts_of (drop result text.now)) }
    ensures space { drop result text.now ≡ [] ⊎ ((more : List ℕ) × (drop result text.now ≡ 32 ∷ more)) }
{
    for (i, byte) in text.iter().enumerate() {
        if *byte == b' ' {
            return i;
        }
    }
    text.len()
}
