//! The faults of the command line.
ghost use Rattle.std.specs.Prelude.{◌≡◌, ◌↔◌, ◌⊎◌, IsTrue};
ghost use Rattle.std.specs.IoError.{error_kind};
ghost use Rattle.clap.specs.declared.error.kind.ErrorKind.TheVariants.{OutOfMemory};
ghost use Rattle.command_line.specs.Asked.{IsArgumentFault, IsForMemory};
ghost use Rattle.command_line.specs.declared.faults.CommandFault.TheVariants.{Parse};

use clap::error::ErrorKind;
use std::alloc::AllocError;
use std::{error, fmt, io};

/// The reason why the arguments give no task. Its `Display` is the text for the user.
#[derive(Debug, Drop)]
pub enum CommandFault {
    /// The answer of `clap` in place of a parse, including help and out of memory.
    Parse(clap::Error),
    /// The arguments parse, but give no task.
    NoTask,
    /// An argument isn't UTF-8.
    NotText,
}

impl CommandFault {
    /// Returns whether memory ran out.
    pub fn is_for_memory(&self) -> bool
        ensures { IsTrue result ↔ IsForMemory self.now }
    {
        match self {
            CommandFault::Parse(error) => error.kind() == ErrorKind::OutOfMemory,
            CommandFault::NoTask | CommandFault::NotText => false,
        }
    }

    /// Returns the exit status: 3 when out of memory, else 1, for help too.
    pub fn status(&self) -> u8
        ensures memory { IsForMemory self.now → result ≡ 3 }
        ensures words { (IsForMemory self.now → ⊥) → result ≡ 1 }
        ensures either { (result ≡ 1) ⊎ (result ≡ 3) }
    {
        if self.is_for_memory() { 3 } else { 1 }
    }
}

impl From<clap::Error> for CommandFault {
    ghost from_gives = { λ e f. f ≡ Parse e };

    fn from(error: clap::Error) -> CommandFault {
        CommandFault::Parse(error)
    }
}

impl From<AllocError> for CommandFault {
    ghost from_gives = { λ _ f. IsForMemory f };

    fn from(error: AllocError) -> CommandFault {
        CommandFault::Parse(clap::Error::from(error))
    }
}

// Reading the arguments fails when out of memory, or at one that isn't UTF-8.
impl From<io::Error> for CommandFault {
    ghost from_gives = { λ e f. IsArgumentFault (error_kind e) f };

    fn from(error: io::Error) -> CommandFault {
        if error.kind() == io::ErrorKind::OutOfMemory {
            CommandFault::from(AllocError)
        } else {
            CommandFault::NotText
        }
    }
}

impl fmt::Display for CommandFault {
    fn fmt<W: fmt::Write>(&self, f: &mut fmt::Formatter<W>) -> fmt::Result {
        match self {
            CommandFault::Parse(error) => write!(f, "{error}"),
            CommandFault::NoTask => f.write_str(
                "error: judge takes RECORDHEX, or --name, --first and --second, and no others\n",
            ),
            CommandFault::NotText => f.write_str("error: an argument isn't UTF-8\n"),
        }
    }
}

impl error::Error for CommandFault {}
