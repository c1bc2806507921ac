//! Records of clashes.
ghost use Rattle.std.specs.Prelude.{◌≡◌};
ghost use Rattle.c_calls.specs.Answers.{GivesDue};
ghost use Rattle.heal_c.specs.Records as spec;

use c_calls::{HealFacts, HealRegistration, facts_of, name_of, registration_of};
use clash_record::{ClashRecord, record};

/// Writes the record of a clash of two registrations of a name at a word.
///
/// Returns 44 for an invalid name, and 76 for an unknown kind of resolver.
#[unsafe(no_mangle)]
pub extern "C" fn heal_record(
    name: &[u8],
    first: &HealRegistration,
    second: &HealRegistration,
    word: u64,
    of_first: &HealFacts,
    of_second: &HealFacts,
    record: &mut [u8; 160],
) -> u32
    ensures { GivesDue (spec.record_for name.now first.now second.now word of_first.now of_second.now)
        (λ bytes. «record».new ≡ bytes) («record».new ≡ «record».old) result }
{
    let first = GivenContender {
        registration: first,
        facts: of_first,
    };
    let second = GivenContender {
        registration: second,
        facts: of_second,
    };
    match record_for(name, first, second, word) {
        Ok(made) => {
            *record = *made.bytes();
            0
        }
        Err(number) => number,
    }
}

// A registration, and the facts of the half that holds it, as C passes them.
#[derive(Clone, Copy)]
struct GivenContender<'a> {
    registration: &'a HealRegistration,
    facts: &'a HealFacts,
}

// Builds the record, or returns 44 or 76.
fn record_for(
    bytes: &[u8],
    first: GivenContender<'_>,
    second: GivenContender<'_>,
    word: u64,
) -> Result<ClashRecord, u32>
    ensures { result ≡ spec.record_for bytes.now first.entry.registration.now second.entry.registration.now word
        first.entry.facts.now second.entry.facts.now }
{
    let name = name_of(bytes)?;
    let of_first = registration_of(first.registration)?;
    let of_second = registration_of(second.registration)?;
    Ok(record(
        &name,
        &of_first,
        &of_second,
        word,
        facts_of(first.facts),
        facts_of(second.facts),
    ))
}
