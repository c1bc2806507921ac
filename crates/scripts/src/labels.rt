//! The labels of uploaded programs, and the words for resolvers.
ghost use Rattle.std.specs.Prelude.{◌≡◌, if◌then◌else◌, not, ◌&&◌, is_none, [], Some, None};
ghost use Rattle.std.specs.List.{find, list_any};
ghost use Rattle.std.specs.Option.{option_map};
ghost use Rattle.clash_record.specs.Texts.{builtin_of};
ghost use Rattle.clash_record.specs.declared.registrations.ResolverId.TheVariants as by;
ghost use Rattle.scripts.specs.Machines as machines;
ghost use Rattle.scripts.specs.Machines.{is_program, labelled, shown_resolver};
ghost use Rattle.scripts.specs.Steps.{is_free};

use clash_record::{Builtin, Name, ProgramId, ResolverId, name};

/// A word that names an uploaded program: 1 to 32 visible characters of ASCII, as a name has.
#[derive(Clone, Copy, Debug)]
pub struct Label {
    /// The word.
    pub text: Name,
    /// The program that it names.
    pub program: ProgramId,
}

impl Label {
    // Checks whether it is this word.
    fn is(&self, word: &[u8]) -> bool
        ensures { result ≡ labelled word.now self.now }
    {
        self.text.bytes() == word
    }

    // Checks whether it names this program.
    fn names(&self, program: &ProgramId) -> bool
        ensures { result ≡ is_program program.now self.now }
    {
        self.program.cmp(program).is_eq()
    }
}

// The word as a further label. It is none where it isn't 1 to 32 visible characters of ASCII, is in use, or is the
// word for a resolver that is built in.
pub(crate) fn free_label(labels: &[Label], word: &[u8]) -> Option<Name>
    ensures { result ≡ (if is_free labels.now word.now then Some word.now else None) }
{
    match name(word) {
        Ok(text) if is_unused(labels, word) => Some(text),
        _ => None,
    }
}

// Checks whether the word is neither for a resolver that is built in nor a label.
fn is_unused(labels: &[Label], word: &[u8]) -> bool
    ensures { result ≡ (is_none (builtin_of word.now) && not (list_any (labelled word.now) labels.now)) }
{
    Builtin::of_word(word).is_none() && !is_label(labels, word)
}

// Checks whether the word is a label.
fn is_label(labels: &[Label], word: &[u8]) -> bool
    ensures { result ≡ list_any (labelled word.now) labels.now }
{
    labels.iter().any(|label| label.is(word))
}

// The resolver that a word names: one that is built in, or a program by its label.
pub(crate) fn resolver_of(labels: &[Label], word: &[u8]) -> Option<ResolverId>
    ensures { result ≡ machines.resolver_named labels.now word.now }
{
    if let Some(builtin) = Builtin::of_word(word) {
        return Some(ResolverId::Builtin(builtin));
    }
    match label_of(labels, word) {
        Some(label) => Some(ResolverId::Program(label.program)),
        None => None,
    }
}

// The label that is this word.
fn label_of<'a>(labels: &'a [Label], word: &[u8]) -> Option<&'a Label>
    ensures { option_map (λ label. label.now) result ≡ find (labelled word.now) labels.now }
{
    labels.iter().find(|label| label.is(word))
}

// How a resolver is called: a program by its first label.
pub(crate) fn resolver_text<'a>(labels: &'a [Label], resolver: &ResolverId) -> &'a [u8]
    ensures { result.now ≡ machines.shown_resolver labels.now resolver.now }
{
    match resolver {
        ResolverId::Builtin(builtin) => builtin.as_str().as_bytes(),
        ResolverId::Program(program) => label_text(labels, program),
    }
}

// The first label of a program.
fn first_label<'a>(labels: &'a [Label], program: &ProgramId) -> Option<&'a Label>
    ensures { option_map (λ label. label.now) result ≡ find (is_program program.now) labels.now }
{
    labels.iter().find(|label| label.names(program))
}

// Returns the name of a program.
fn label_text<'a>(labels: &'a [Label], program: &ProgramId) -> &'a [u8]
    ensures { result.now ≡ machines.shown_resolver labels.now (by.Program program.now) }
{
    match first_label(labels, program) {
        Some(label) => label.text.bytes(),
        None => b"",
    }
}
