//! The names that sides and tables register before they heal.
use clash_record::{Builtin, ResolverId};
use exchange_core::Side;
use fixtures::{
    EXIT, exit_registration, numbered_clashes, register_numbered, register_rows, registration,
};
use partition_table::ClashList;
use std::alloc::Global;
use std::test::Fail;
use upload_store::UploadStore;

/// The names that the sides A and B register.
#[derive(Clone, Copy)]
pub(crate) enum Names {
    /// `db` on both, and `web` on B alone.
    DbAndWeb,
    /// `a1`, `b1` and `c1` on both.
    Three,
    /// This many on both.
    Numbered(u16),
}

impl Names {
    pub(crate) fn register(self, alloc: Global, a: &mut Side, b: &mut Side) -> Result<(), Fail> {
        let store = UploadStore::new(alloc);
        let of_a = exit_registration(1, 10);
        let of_b = exit_registration(2, 20);
        let web = registration(2, 21, ResolverId::Builtin(Builtin::NotifyAll));
        match self {
            Names::DbAndWeb => {
                register_rows(a, &[("db", of_a)], &store)?;
                register_rows(b, &[("db", of_b), ("web", web)], &store)?;
            }
            Names::Three => {
                register_rows(a, &[("a1", of_a), ("b1", of_a), ("c1", of_a)], &store)?;
                register_rows(b, &[("a1", of_b), ("b1", of_b), ("c1", of_b)], &store)?;
            }
            Names::Numbered(count) => {
                register_numbered(a, count, 1, EXIT, &store)?;
                register_numbered(b, count, 2, EXIT, &store)?;
            }
        }
        Ok(())
    }
}

/// Returns `count` clashes, each judged by the built-in exit.
pub(crate) fn exit_clashes(alloc: Global, count: u16) -> Result<ClashList, Fail> {
    Ok(numbered_clashes(alloc, count, EXIT, &UploadStore::new(alloc))?)
}
