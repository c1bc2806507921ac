//! A side that begins with a table.
ghost use Rattle.std.specs.Prelude.{◌≡◌, ◌≤◌, ◌+◌, Some, None, IfOk, if◌then◌else◌, nat_le, length};
ghost use Rattle.std.specs.FinMap.{len};
ghost use Rattle.refusals.specs.Answers.{IsDecidedBy};
ghost use Rattle.partition_table.specs.declared.fault.TableFault.TheVariants.{Full};
ghost use Rattle.exchange_core.specs.declared.fault.SideFault.TheVariants as of;
ghost use Rattle.exchange_core.specs.Shown.{shown, calls, limit_of};

use crate::fault::SideFault;
use crate::side::Side;
use crate::state::State;
use clash_record::SideId;
use partition_table::{NameLimit, Table, TableFault};
use std::alloc::Global;

impl Side {
    /// Returns an idle side with this limit, table and latest number, and the journal that `renew` writes. Allocates nothing.
    ///
    /// Returns 32 if the table has more names than the limit.
    pub fn with_table(
        alloc: Global,
        id: SideId,
        limit: NameLimit,
        table: Table,
        latest: Option<u64>,
    ) -> Result<Side, SideFault>
        ensures answer { IsDecidedBy (if nat_le (len table) limit.names then None else Some (of.Table Full)) result }
        ensures state { IfOk result (λ side. shown side
            ≡ record { id = id; table = table; exchange = None; latest = latest }) }
        ensures limit { IfOk result (λ side. limit_of side ≡ limit.names) }
        ensures short { IfOk result (λ side. length (calls side) ≤ len table + 2) }
    {
        if table.len() > limit.names() {
            return Err(SideFault::Table(TableFault::Full));
        }
        let state = State {
            id,
            table,
            exchange: None,
            compared: None,
            latest,
        };
        let journal = state.fresh_journal();
        Ok(Side {
            limit,
            state,
            journal,
        })
    }
}
