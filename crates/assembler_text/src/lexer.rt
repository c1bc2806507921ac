//! Splits text into lines, comments, blanks and words.
ghost use Rattle.std.specs.Prelude.{◌≡◌, ◌≤◌, length, take, drop, map};
ghost use Rattle.std.specs.List.{prefix_len};
ghost use Rattle.assembler_text.specs.Words.{is_of_class};
ghost use Rattle.assembler_text.specs.model.Words.{front, rest, lookup};

/// The class of the characters of a piece of text.
#[derive(Clone, Copy, Debug, PartialEq, Eq)]
pub enum Class {
    /// Spaces and tabs.
    Blank,
    /// Characters of a mnemonic: all but blanks.
    Mnemonic,
    /// Characters of an operand: all but blanks and commas.
    Operand,
    /// Characters before a closing bracket: all but `]`.
    Bracketed,
    /// Characters before a sign: all but `+` and `-`.
    Base,
    /// Characters before a comment: all but `;`.
    Instruction,
    /// Characters of a line: all but LF.
    Line,
}

fn is_of_class(class: Class, byte: u8) -> bool
    ensures { result ≡ is_of_class class byte }
{
    let is_blank = byte == b' ' || byte == b'\t';
    match class {
        Class::Blank => is_blank,
        Class::Mnemonic => !is_blank,
        Class::Operand => !is_blank && byte != b',',
        Class::Bracketed => byte != b']',
        Class::Base => byte != b'+' && byte != b'-',
        Class::Instruction => byte != b';',
        Class::Line => byte != b'\n',
    }
}

fn run_len(class: Class, text: &[u8]) -> usize
    ensures value { result ≡ prefix_len (is_of_class class) text.now }
    ensures within { result ≤ length text.now }
{
    let mut len = 0;
    while len < text.len() && is_of_class(class, text[len]) {
        len += 1;
    }
    len
}

/// Splits a text at the first character that isn't of the class.
pub fn split(class: Class, text: &[u8]) -> (&[u8], &[u8])
    ensures front { result.0.now ≡ front class text.now }
    ensures rest { result.1.now ≡ rest class text.now }
{
    let len = run_len(class, text);
    text.split_at(len)
}

/// Returns the text without its leading blanks.
pub fn skip_blanks(text: &[u8]) -> &[u8]
    ensures { result.now ≡ rest Class.Blank text.now }
{
    split(Class::Blank, text).1
}

/// Looks up a name in a table.
pub fn lookup<T: Copy>(mut table: &[(&[u8], T)], name: &[u8]) -> Option<T>
    ensures { result ≡ lookup (map (λ e. (e.0.now, e.1)) table.entry.now) name.now }
{
    while let [entry, rest @ ..] = table {
        if entry.0 == name {
            return Some(entry.1);
        }
        table = rest;
    }
    None
}
