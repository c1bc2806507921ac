//! The programs of two tables.
ghost use Rattle.std.specs.Prelude.{IsTrue, ◌↔◌, IfOk};
ghost use Rattle.partition_table.specs.Tables.{tables_agree};
ghost use Rattle.partition_table.specs.model.Coding.{AreProgramsOf, AgreeWithBoth, BothAgree};
ghost use Rattle.partition_table.specs.model.Keeping.{kept_code};
ghost use Rattle.upload_store.specs.Programs.{programs_by};

use crate::programs::{Kept, programs_agree};
use crate::table::Table;
use clash_record::ProgramId;
use std::alloc::{AllocError, Global};
use std::collections::BTreeMap;

// The programs of two tables, each under its id. Where the tables agree, one that both keep may be here once.
#[derive(Debug, Drop)]
pub(crate) struct BothPrograms {
    pub(crate) a: BTreeMap<ProgramId, Kept>,
    pub(crate) b: BTreeMap<ProgramId, Kept>,
}

impl BothPrograms {
    // Copies the programs of two tables. Allocates one more owner of each.
    pub(crate) fn of(a: &Table, b: &Table) -> Result<BothPrograms, AllocError>
        ensures { IfOk result (AreProgramsOf a.now b.now) }
    {
        Ok(BothPrograms {
            a: a.copy_programs()?,
            b: b.copy_programs()?,
        })
    }

    // Copies the programs of two tables that agree, one that both keep once. Allocates one more owner of each.
    pub(crate) fn of_agreeing(
        alloc: Global,
        a: &Table,
        b: &Table,
    ) -> Result<BothPrograms, AllocError>
        requires { IsTrue (tables_agree a.now b.now) }
        ensures { IfOk result (AreProgramsOf a.now b.now) }
    {
        let programs = b.copy_programs()?;
        Ok(BothPrograms {
            a: a.copy_others(alloc, &programs)?,
            b: programs,
        })
    }

    // Checks that no id has one code here and another there.
    pub(crate) fn agree_with(&self, other: &BothPrograms) -> bool
        ensures { IsTrue result ↔ BothAgree self.now other.now }
    {
        agree_with_both(&self.a, other) && agree_with_both(&self.b, other)
    }
}

// Checks that no id has one code here and another there.
fn agree_with_both(programs: &BTreeMap<ProgramId, Kept>, both: &BothPrograms) -> bool
    ensures { IsTrue result ↔ AgreeWithBoth (programs_by kept_code programs.now.entries) both.now }
{
    programs_agree(programs, &both.a) && programs_agree(programs, &both.b)
}
