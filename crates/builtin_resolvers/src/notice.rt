//! Notices, and the at most two of them that a verdict brings.
ghost use Rattle.std.specs.Prelude.{◌≡◌, ◌≤◌, ◌↔◌, [], ◌∷◌, ◌++◌, length, codes, IsTrue, Some};
ghost use Rattle.clash_record.specs.Texts.{owner_text};
ghost use Rattle.builtin_resolvers.specs.Texts.{notice_text};

use arrayvec::ArrayString;
use clash_record::{NAME_LEN, Name, OWNER_TEXT_LEN, Owner};
use std::fmt;
use std::marker::Model;

/// A notice to an owner about a clash.
#[derive(Clone, Copy, Debug, PartialEq, Eq)]
pub enum Notice {
    /// This owner exits.
    Exit(Owner),
    /// This owner no longer holds the name.
    Conflict(Name, Owner),
    /// This owner no longer holds the name, and neither does the other.
    ConflictWith(Name, Owner, Owner),
}

/// The most bytes of a notice's text: that of two owners, a name and the words between.
pub const NOTICE_TEXT_LEN: usize = 2 * OWNER_TEXT_LEN + NAME_LEN + 20;

impl Notice {
    /// Returns its text, as `exit 1.10`, `conflict web to 1.10` or `conflict web to 1.10 other 2.11`.
    pub fn text(&self) -> ArrayString<NOTICE_TEXT_LEN>
        ensures { result.bytes ≡ notice_text self.now }
    {
        match self {
            Notice::Exit(owner) => {
                let mut text = ArrayString::new();
                text.push_str("exit ");
                text.push_str(owner.text().as_str());
                text
            }
            Notice::Conflict(name, owner) => conflict_text(name, *owner),
            Notice::ConflictWith(name, owner, other) => {
                let mut text = conflict_text(name, *owner);
                text.push_str(" other ");
                text.push_str(other.text().as_str());
                text
            }
        }
    }
}

// Returns the text that a conflict begins with.
fn conflict_text(name: &Name, owner: Owner) -> ArrayString<NOTICE_TEXT_LEN>
    ensures text { result.bytes ≡ codes "conflict " ++ name.now ++ codes " to " ++ owner_text owner }
    ensures short { length result.bytes ≤ 66 }
{
    let mut text = ArrayString::new();
    text.push_str("conflict ");
    text.push_str(name.as_str());
    text.push_str(" to ");
    text.push_str(owner.text().as_str());
    text
}

impl fmt::Display for Notice {
    ghost output = { λ notice. Some (notice_text notice) };

    fn fmt<W: fmt::Write>(&self, f: &mut fmt::Formatter<W>) -> fmt::Result {
        f.write_str(self.text().as_str())
    }
}

/// The notices of one verdict, at most two. Contracts see them as a list.
#[derive(Debug, Drop)]
pub struct Notices {
    held: Held,
}

#[derive(Debug, Drop)]
enum Held {
    Nothing,
    One([Notice; 1]),
    Two([Notice; 2]),
}

impl Model for Notices {
    ghost use Rattle.std.specs.Prelude.{List};
    ghost use Rattle.builtin_resolvers.specs.declared.notice.Notice.{Notice};

    ghost Value = { List Notice };

    ghost use Rattle.builtin_resolvers.specs.Notices.{held_notices};

    ghost view = { λ n. held_notices n.held };
}

impl Notices {
    /// Returns the notices in their order.
    pub fn as_slice(&self) -> &[Notice]
        ensures value { result.now ≡ self.now }
        ensures few { length result.now ≤ 2 }
    {
        match &self.held {
            Held::Nothing => &[],
            Held::One(notices) => notices,
            Held::Two(notices) => notices,
        }
    }

    /// Returns the number of notices.
    pub fn len(&self) -> usize
        ensures { result ≡ length self.now }
    {
        self.as_slice().len()
    }

    /// Checks whether the list is empty.
    pub fn is_empty(&self) -> bool
        ensures { IsTrue result ↔ (self.now ≡ []) }
    {
        self.as_slice().is_empty()
    }

    pub(crate) fn none() -> Notices
        ensures { result ≡ [] }
    {
        Notices {
            held: Held::Nothing,
        }
    }

    pub(crate) fn one(notice: Notice) -> Notices
        ensures { result ≡ notice ∷ [] }
    {
        Notices {
            held: Held::One([notice]),
        }
    }

    pub(crate) fn two(first: Notice, second: Notice) -> Notices
        ensures { result ≡ first ∷ second ∷ [] }
    {
        Notices {
            held: Held::Two([first, second]),
        }
    }
}
