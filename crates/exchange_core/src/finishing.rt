//! Finishes an exchange.
ghost use Rattle.std.specs.Prelude.{◌≡◌, ◌≢◌, [], Some, IsTrue, IfOk, OnOk, OnErr, List, is_some, map};
ghost use Rattle.std.specs.Arc.{arc_value};
ghost use Rattle.partition_table.specs.Tables as tables;
ghost use Rattle.exchange_law.specs.Sides as sides;
ghost use Rattle.exchange_core.specs.Finished.{all_held, finished_at, finished_from};
ghost use Rattle.exchange_core.specs.model.Finishing.{IsComparedIn, IsMarkedIn, IsMergeable, IsMergeOf, merged_in};
ghost use Rattle.clash_record.specs.Name.{Name};

use crate::exchange::Exchange;
use crate::finished::Finished;
use crate::pairing::merge_own;
use crate::state::{State, share};
use builtin_resolvers::Verdict3;
use clash_record::SideId;
use partition_table::{AnsweredClashes, Compared, Judged, MergedTable, ParentTable, Table};
use std::alloc::{AllocError, Global};
use std::mem;
use std::sync::Arc;

// The rulings of an exchange, and its merged table.
#[derive(Drop)]
struct Merged {
    rulings: Vec<Judged>,
    table: MergedTable,
}

// The same, with the table that the side holds now.
#[derive(Drop)]
struct Outcome {
    rulings: Vec<Judged>,
    table: Arc<Table>,
}

impl State {
    // Makes the table the merge of the two, and closes the exchange.
    pub(crate) fn finish(&mut self, alloc: Global) -> Result<Finished, AllocError>
        requires open { IsTrue (is_some self.old.exchange) }
        requires ready { (x : sides.Exchange) → self.old.exchange ≡ Some x → IsMergeable self.old.id self.old.table x }
        ensures done { OnOk result (sides.finish self.old ≡ Some self.new) }
        ensures given { IfOk result (λ finished. finished_from self.old ≡ Some finished) }
        ensures unchanged { OnErr result (self.new ≡ self.old) }
    {
        let Some(exchange) = &self.exchange else {
            unreachable!()
        };
        let Some(compared) = &self.compared else {
            unreachable!()
        };
        let Merged { rulings, table } = merge_exchange(
            alloc,
            self.id,
            &self.table,
            exchange,
            compared,
        )?;
        let mut held = hold(self.id, &mut self.table, exchange, table)?;
        let table = share(alloc, &mut held)?;
        let Some(exchange) = self.exchange.take() else {
            unreachable!()
        };
        let Some(compared) = self.compared.take() else {
            unreachable!()
        };
        let own = mem::replace(&mut self.table, held);
        let outcome = Outcome { rulings, table };
        Ok(finished_with(self.id, own, exchange, compared.first_of_a, outcome))
    }
}

// Returns the merged table, which shares its rows with the side's own or with the other's if it is one of these.
fn hold(
    id: SideId,
    own: &mut Table,
    exchange: &Exchange,
    merged: MergedTable,
) -> Result<Table, AllocError>
    requires { IsTrue (is_some exchange.now.heard) }
    ensures held { IfOk result (λ held. merged_in id own.old exchange.now merged ≡ Some held) }
    ensures same { own.new ≡ own.old }
{
    let Some(heard) = &exchange.heard else {
        unreachable!()
    };
    match (merged, id) {
        (MergedTable::New(table), _) => Ok(table),
        (MergedTable::A, SideId::A) | (MergedTable::B, SideId::B) => own.share(),
        (MergedTable::A, SideId::B) | (MergedTable::B, SideId::A) => heard.table().try_clone(),
    }
}

// Merges the exchange of a side with this table.
fn merge_exchange(
    alloc: Global,
    id: SideId,
    own: &Table,
    exchange: &Exchange,
    compared: &Compared,
) -> Result<Merged, AllocError>
    requires ready { IsMergeable id own.now exchange.now }
    requires compared { IsComparedIn id own.now exchange.now compared.now }
    ensures { IfOk result (λ merged. (table : tables.Table) → merged_in id own.now exchange.now merged.table ≡ Some table
        → IsMergeOf id own.now exchange.now merged.rulings.items table) }
{
    let (Some(heard), Some(theirs)) = (&exchange.heard, &exchange.their_list) else {
        unreachable!()
    };
    let rulings = held_rulings(alloc, heard.rulings())?;
    let answers = answers_of(alloc, &rulings)?;
    let answered = AnsweredClashes {
        compared,
        answers: &answers,
    };
    let own = ParentTable {
        table: own,
        gone: exchange.withdrawn().names(),
    };
    let other = ParentTable {
        table: heard.table(),
        gone: theirs,
    };
    let table = merge_own(alloc, id, own, other, answered)?;
    Ok(Merged { rulings, table })
}

// The finished exchange of a side that had this table.
fn finished_with(
    id: SideId,
    own: Table,
    exchange: Exchange,
    first_of_a: Vec<bool>,
    outcome: Outcome,
) -> Finished
    requires ready { IsMergeable id own exchange }
    requires marked { IsMarkedIn id own exchange first_of_a.items }
    requires merged { IsMergeOf id own exchange outcome.rulings.items (arc_value outcome.table) }
    ensures { (heard : sides.Heard) (theirs : List Name) → exchange.heard ≡ Some heard
        → exchange.their_list ≡ Some theirs
        → result ≡ finished_at id own exchange heard theirs outcome.rulings.items (arc_value outcome.table) }
{
    let Outcome { rulings, table } = outcome;
    let (Some(heard), Some(other_gone)) = (exchange.heard, exchange.their_list) else {
        unreachable!()
    };
    let (other, other_uptime) = heard.into_table();
    Finished {
        id,
        number: exchange.number,
        seed: exchange.seed,
        own,
        own_uptime: exchange.uptime,
        own_gone: exchange.withdrawn.into_names(),
        other,
        other_uptime,
        other_gone,
        first_of_a,
        rulings,
        table,
    }
}

// The rulings that are there.
fn held_rulings(alloc: Global, rulings: &[Option<Judged>]) -> Result<Vec<Judged>, AllocError>
    ensures { IfOk result (λ held. held.items ≡ all_held rulings.now) }
{
    let mut held = Vec::with_capacity(alloc, rulings.len())?;
    for ruling in rulings {
        if let Some(judged) = ruling {
            held.push(*judged)?;
        }
    }
    Ok(held)
}

// The answers of these rulings.
fn answers_of(alloc: Global, rulings: &[Judged]) -> Result<Vec<Verdict3>, AllocError>
    ensures { IfOk result (λ answers. answers.items ≡ map (λ judged. judged.answer) rulings.now) }
{
    let mut answers = Vec::with_capacity(alloc, rulings.len())?;
    for judged in rulings {
        answers.push(judged.answer)?;
    }
    Ok(answers)
}
