//! Registrations of names.
ghost use Rattle.std.specs.Prelude.{◌≡◌, ◌↔◌, IsTrue, Some};
ghost use Rattle.std.specs.declared.cmp.Ordering.TheVariants.{Less};
ghost use Rattle.clash_record.specs.Registrations.{registration_on, registration_terms};
ghost use Rattle.clash_record.specs.Texts.{builtin_of, builtin_text, owner_text};

use arrayvec::ArrayString;
use itoa::Buffer;
use std::fmt;

/// The most bytes of an owner's text: two numbers of ten digits, and a dot between.
pub const OWNER_TEXT_LEN: usize = 21;

/// The owner of a name: a serial number on a node.
#[derive(Clone, Copy, Debug, PartialEq, Eq, PartialOrd, Ord)]
pub struct Owner {
    /// The node.
    pub node: u32,
    /// The number on that node.
    pub serial: u32,
}

impl Owner {
    /// Returns its text, as `1.10`: the node and the serial number in decimal digits.
    pub fn text(self) -> ArrayString<OWNER_TEXT_LEN>
        ensures { result.bytes ≡ owner_text self }
    {
        let mut digits = Buffer::new();
        let mut text = ArrayString::new();
        text.push_str(digits.format(self.node));
        text.push_str(".");
        text.push_str(digits.format(self.serial));
        text
    }
}

impl fmt::Display for Owner {
    ghost output = { λ owner. Some (owner_text owner) };

    fn fmt<W: fmt::Write>(&self, f: &mut fmt::Formatter<W>) -> fmt::Result {
        f.write_str(self.text().as_str())
    }
}

/// The id of an uploaded program: the SHA-256 of its bytes.
#[derive(Clone, Copy, Debug, PartialEq, Eq, PartialOrd, Ord)]
pub struct ProgramId(pub [u8; 32]);

impl fmt::Display for ProgramId {
    ghost use Rattle.hex.specs.Hex.{encode_lower};

    ghost output = { λ id. Some (encode_lower id.0) };

    fn fmt<W: fmt::Write>(&self, f: &mut fmt::Formatter<W>) -> fmt::Result {
        let mut digits = [0; 64];
        hex::encode_to_slice(self.0, &mut digits).map_err(|_| fmt::Error)?;
        f.write_str(str::from_utf8(&digits).map_err(|_| fmt::Error)?)
    }
}

/// A resolver without a program.
#[derive(Clone, Copy, Debug, PartialEq, Eq, PartialOrd, Ord)]
pub enum Builtin {
    /// One of the two owners keeps the name, and the other exits.
    Exit,
    /// One of the two owners keeps the name, and the other is notified.
    Notify,
    /// Neither keeps the name, and both are notified.
    NotifyAll,
}

impl Builtin {
    /// Returns its word: `exit`, `notify` or `notify-all`.
    pub fn as_str(self) -> &'static str
        ensures { result.now ≡ builtin_text self }
    {
        match self {
            Builtin::Exit => "exit",
            Builtin::Notify => "notify",
            Builtin::NotifyAll => "notify-all",
        }
    }

    /// Returns the built-in resolver of this word, if any.
    pub fn of_word(word: &[u8]) -> Option<Builtin>
        ensures { result ≡ builtin_of word.now }
    {
        let all = [Builtin::Exit, Builtin::Notify, Builtin::NotifyAll];
        all.into_iter()
            .find(|builtin| builtin.as_str().as_bytes() == word)
    }
}

impl fmt::Display for Builtin {
    ghost output = { λ builtin. Some (builtin_text builtin) };

    fn fmt<W: fmt::Write>(&self, f: &mut fmt::Formatter<W>) -> fmt::Result {
        f.write_str(self.as_str())
    }
}

/// The resolver that judges a clash.
#[derive(Clone, Copy, Debug, PartialEq, Eq, PartialOrd, Ord)]
pub enum ResolverId {
    /// A built-in resolver.
    Builtin(Builtin),
    /// An uploaded program.
    Program(ProgramId),
}

/// A registration without its resolver.
#[derive(Clone, Copy, Debug, PartialEq, Eq)]
pub struct Terms {
    /// The owner of the name.
    pub owner: Owner,
    /// When the name was registered, in the registrar's unit of time.
    pub stamp: u64,
    /// Its weight against another registration; only programs read it.
    pub weight: u64,
    /// Further bytes; only programs read them.
    pub extra: [u8; 16],
}

impl Terms {
    /// Returns the registration on these terms with this resolver.
    pub fn with_resolver(self, resolver: ResolverId) -> Registration
        ensures { result ≡ registration_on self resolver }
    {
        let Terms {
            owner,
            stamp,
            weight,
            extra,
        } = self;
        Registration {
            owner,
            stamp,
            weight,
            extra,
            resolver,
        }
    }
}

/// A name's entry in a table.
#[derive(Clone, Copy, Debug, PartialEq, Eq, PartialOrd, Ord)]
pub struct Registration {
    /// The owner of the name.
    pub owner: Owner,
    /// When the name was registered, in the registrar's unit of time.
    pub stamp: u64,
    /// Its weight against another registration; only programs read it.
    pub weight: u64,
    /// Further bytes; only programs read them.
    pub extra: [u8; 16],
    /// The resolver of the name's clashes.
    pub resolver: ResolverId,
}

impl Registration {
    ghost use Rattle.clash_record.specs.Orders.{registration_cmp};

    /// Returns its terms: all but its resolver.
    pub fn terms(&self) -> Terms
        ensures { result ≡ registration_terms self.now }
    {
        Terms {
            owner: self.owner,
            stamp: self.stamp,
            weight: self.weight,
            extra: self.extra,
        }
    }

    /// Checks whether it precedes the other in the order of registrations, and so is first in their clash.
    pub fn precedes(&self, other: &Registration) -> bool
        ensures { IsTrue result ↔ (registration_cmp self.now other.now ≡ Less) }
    {
        self.cmp(other).is_lt()
    }
}
