//! The words of a registration.
ghost use Rattle.std.specs.Prelude.{◌≡◌, length, map, option_map};
ghost use Rattle.clash_fields.specs.Fields as fields;
ghost use Rattle.clash_fields.specs.Fields.{bare, half_by};
ghost use Rattle.clash_fields.specs.model.Views.{right_words, words_by};

use clash_record::{Builtin, Contender, Facts, ResolverId};
use script_text::{LineFault, long, terms};

// The words of a registration, and of the size and the uptime of the half that holds it.
#[derive(Clone, Copy, Debug)]
pub(crate) struct HalfWords<'a> {
    pub(crate) owner: &'a [u8],
    pub(crate) stamp: &'a [u8],
    pub(crate) weight: &'a [u8],
    pub(crate) extra: &'a [u8],
    pub(crate) size: &'a [u8],
    pub(crate) uptime: &'a [u8],
}

impl<'a> HalfWords<'a> {
    // Returns the words of an owner alone: the rest are zeros.
    pub(crate) fn bare(owner: &'a [u8]) -> HalfWords<'a>
        ensures { words_by result ≡ bare owner.entry.now }
    {
        HalfWords {
            owner,
            stamp: b"0",
            weight: b"0",
            extra: b"-",
            size: b"0",
            uptime: b"0",
        }
    }

    // Sets the value of a part such as `stamp=5`.
    pub(crate) fn with_part(self, part: &'a [u8]) -> Result<HalfWords<'a>, LineFault>
        ensures { right_words result ≡ fields.with_part (words_by self.entry) part.entry.now }
    {
        if let Some(stamp) = value_of(b"stamp=", part) {
            Ok(HalfWords { stamp, ..self })
        } else if let Some(weight) = value_of(b"weight=", part) {
            Ok(HalfWords { weight, ..self })
        } else if let Some(extra) = value_of(b"extra=", part) {
            Ok(HalfWords { extra, ..self })
        } else if let Some(size) = value_of(b"size=", part) {
            Ok(HalfWords { size, ..self })
        } else if let Some(uptime) = value_of(b"uptime=", part) {
            Ok(HalfWords { uptime, ..self })
        } else {
            Err(LineFault::Word)
        }
    }

    // Reads the words as a script reads them.
    pub(crate) fn read(&self) -> Result<Contender, LineFault>
        ensures { result ≡ half_by (words_by self.now) }
    {
        let terms = terms(self.owner, self.stamp, self.weight, self.extra)?;
        let registration = terms.with_resolver(ResolverId::Builtin(Builtin::Exit));
        let size = long(self.size)?;
        let uptime = long(self.uptime)?;
        let facts = Facts { size, uptime };
        Ok(Contender {
            registration,
            facts,
        })
    }
}

// Returns what follows this key.
fn value_of<'a>(key: &[u8], part: &'a [u8]) -> Option<&'a [u8]>
    ensures { option_map (λ value. value.now) result ≡ fields.value_of key.now part.now }
{
    part.strip_prefix(key)
}
