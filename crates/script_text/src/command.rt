//! The commands of scripts.

use clash_record::{Name, SideId, Terms, Uptimes, Withdrawal};

/// The command of a line. Labels, code and resolvers are words as they are written.
#[derive(Debug, Drop)]
pub enum Command<'a> {
    /// Uploads a program under a label.
    Upload {
        label: &'a [u8],
        code: &'a [u8],
    },
    /// Registers a name on a side.
    Register {
        side: SideId,
        name: Name,
        terms: Terms,
        resolver: &'a [u8],
    },
    /// Unregisters a name on a side.
    Unregister {
        side: SideId,
        name: Name,
    },
    /// Prints the owner of a name on a side.
    Whereis {
        side: SideId,
        name: Name,
    },
    /// Prints the names of a side.
    Show {
        side: SideId,
    },
    /// Heals the split with words from this seed.
    Heal {
        seed: u64,
        uptimes: Uptimes,
        gone: Vec<Withdrawal>,
    },
}
