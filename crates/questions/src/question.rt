//! Questions that heal answers.
ghost use Rattle.std.specs.Prelude.{◌≡◌, ◌↔◌, IsTrue, codes};

/// The ranges over which code is verified.
#[derive(Clone, Copy, Debug, PartialEq, Eq)]
pub enum Profile {
    /// Ranges of words in their own order alone.
    Unsigned,
    /// Ranges in that order and in the order of signed numbers.
    Both,
}

/// The record of a clash as it is given.
#[derive(Clone, Copy, Debug, PartialEq, Eq)]
pub enum ClashWords<'a> {
    /// Its bytes in hex digits.
    Bytes(&'a str),
    /// Its fields: the name, the two registrations and the word.
    Fields {
        name: &'a str,
        first: &'a str,
        second: &'a str,
        word: &'a str,
    },
}

/// A request that heal answers on a few lines. Code is a word of hex digits, or `@` and the file that has it.
#[derive(Clone, Copy, Debug, PartialEq, Eq)]
pub enum Question<'a> {
    /// Checks whether code is accepted over these ranges. With `explain`, also explains what the verifier knows before each
    /// instruction.
    Check {
        code: &'a str,
        profile: Profile,
        explain: bool,
    },
    /// Judges the clash of a record by code. With `explain`, also explains what the code reads and answers.
    Judge {
        code: &'a str,
        clash: ClashWords<'a>,
        explain: bool,
    },
    /// Reads a file, or standard input for `-`, as the text of code, and prints the code in hex digits.
    Asm {
        file: &'a str,
    },
    /// Prints code as text.
    Dis {
        code: &'a str,
    },
}

/// Checks whether the name of a file means standard input: whether it is `-`.
pub fn is_standard_input(file: &str) -> bool
    ensures { IsTrue result ↔ (file.now ≡ codes "-") }
{
    file == "-"
}
