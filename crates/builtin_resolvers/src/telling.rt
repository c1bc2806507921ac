//! The notices of built-in resolvers.
ghost use Rattle.std.specs.Prelude.{◌≡◌};
ghost use Rattle.builtin_resolvers.specs.Telling.{notices_of};

use crate::notice::{Notice, Notices};
use crate::verdicts::Verdict3;
use clash_record::{Builtin, Name, Owner};

/// Returns the notices of a built-in resolver's verdict on a clash of these two owners.
///
/// A verdict that the resolver never returns brings no notice.
pub fn notices(
    resolver: Builtin,
    name: &Name,
    first: Owner,
    second: Owner,
    verdict: Verdict3,
) -> Notices
    ensures { result ≡ notices_of resolver name.now first second verdict }
{
    match (resolver, verdict) {
        (Builtin::Exit, Verdict3::First) => Notices::one(Notice::Exit(second)),
        (Builtin::Exit, Verdict3::Second) => Notices::one(Notice::Exit(first)),
        (Builtin::Notify, Verdict3::First) => Notices::one(Notice::Conflict(*name, second)),
        (Builtin::Notify, Verdict3::Second) => Notices::one(Notice::Conflict(*name, first)),
        (Builtin::NotifyAll, Verdict3::Neither) => Notices::two(
            Notice::ConflictWith(*name, first, second),
            Notice::ConflictWith(*name, second, first),
        ),
        _ => Notices::none(),
    }
}
