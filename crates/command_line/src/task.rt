//! The tasks of heal.
use crate::names::Names;
use judge_pool::Workers;
use questions::Question;

/// A task of heal.
#[derive(Clone, Copy, Debug, PartialEq, Eq)]
pub enum Task<'a> {
    /// Answers a question.
    Answer(Question<'a>),
    /// Carries out the script in a file, or on standard input for `-`, with this number of workers, on halves that may have
    /// this number of names. With `explain`, also narrates each healing.
    Run {
        file: &'a str,
        workers: Workers,
        names: Names,
        explain: bool,
    },
    /// Prints the version.
    Version,
    /// Lists the refusals with their words.
    Refusals,
}
