//! Words about a script for a person.
use crate::machine::Machine;
use cluster::Healing;
use refusals::NumberedRefusal;

/// Hears what a script does, beyond its output.
pub trait Narrator {
    /// Returns whether it listens. If not, the script calls nothing else of it.
    fn listens(&self) -> bool;

    /// Hears that the line of this number is refused.
    fn hear_refusal(&self, line: u64, refusal: NumberedRefusal);

    /// Hears that an upload is refused, of code that this word has: hex digits, or `@` and a file. Follows `hear_refusal`.
    fn hear_code(&self, word: &[u8], refusal: NumberedRefusal);

    /// Hears of a healing, after its lines are written.
    fn hear_healing(&self, machine: &Machine, healing: &Healing);
}

/// A narrator that doesn't listen.
#[derive(Clone, Copy, Debug)]
pub struct Silence;

impl Narrator for Silence {
    fn listens(&self) -> bool {
        false
    }

    fn hear_refusal(&self, _line: u64, _refusal: NumberedRefusal) {}

    fn hear_code(&self, _word: &[u8], _refusal: NumberedRefusal) {}

    fn hear_healing(&self, _machine: &Machine, _healing: &Healing) {}
}
