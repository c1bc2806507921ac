//! The edits of a half.
use clash_record::{Name, Registration};
use partition_table::NameLimit;
use upload_store::Upload;

/// An edit of a half, which a primary carries out and its backups repeat.
#[derive(Debug, Drop)]
pub enum Edit {
    /// Registers the name. A program that the registration names is one of the half's own store.
    Register(Name, Registration),
    /// Unregisters the name.
    Unregister(Name),
    /// Keeps an accepted program in the half's store.
    Upload(Upload),
    /// Sets the most names that the table may have.
    Limit(NameLimit),
    /// Makes this the greatest number of an exchange that the half began.
    Begin(u64),
}
