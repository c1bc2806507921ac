//! The state of a side, and what each call leaves of it.
ghost use Rattle.std.specs.Prelude.{◌≡◌, false, Some, None, Err, IsTrue, IfOk, IfSome, OnOk, OnErr, is_some};
ghost use Rattle.std.specs.Bool.{Decides};
ghost use Rattle.std.specs.FinMap.{get};
ghost use Rattle.partition_table.specs.Tables.{agrees_with, row_for, rows_of};
ghost use Rattle.refusals.specs.Answers.{IsAnswered};
ghost use Rattle.partition_table.specs.Faults as table;
ghost use Rattle.exchange_law.specs.Sides.{without, new_side, rested, withdrawn_by, shown_table, heard_clashes};
ghost use Rattle.exchange_law.specs.Lists.{AreNamesOf};
ghost use Rattle.exchange_core.specs.Rows.{rows_left};
ghost use Rattle.std.specs.Option.{option_map, option_map_or};
ghost use Rattle.std.specs.Arc.{arc_value};
ghost use Rattle.exchange_core.specs.Faults.{side_fault_number};
ghost use Rattle.exchange_core.specs.Refusals as due;
ghost use Rattle.exchange_law.specs.Sides as sides;
ghost use Rattle.exchange_law.specs.Worlds.{offer_of, list_of};
ghost use Rattle.exchange_core.specs.model.Early.{early_hear_fault};
ghost use Rattle.exchange_core.specs.model.Hearing.{has_heard, clashes_offered};
ghost use Rattle.exchange_core.specs.model.Keeping.{marks_of, marks_offered};
ghost use Rattle.exchange_core.specs.model.Pairing.{fit_fault_for};

use crate::exchange::{Exchange, Heard};
use crate::fault::{MissingPart, SideFault};
use crate::messages::{Offer, Withdrawals};
use crate::pairing::compare;
use crate::shown_rows::ShownRows;
use clash_record::{Name, Registration, SideId};
use partition_table::{ClashList, Compared, HalfTable, Judged, NameLimit, Table, TableFault};
use std::alloc::{AllocError, Global};
use std::marker::Model;
use std::sync::Arc;
use upload_store::UploadStore;

// The state of a side apart from its journal, and what a comparison of the two tables of the open exchange found.
#[derive(Debug, Drop)]
pub(crate) struct State {
    pub(crate) id: SideId,
    pub(crate) table: Table,
    pub(crate) exchange: Option<Exchange>,
    pub(crate) compared: Option<Compared>,
    pub(crate) latest: Option<u64>,
}

impl Model for State {
    ghost use Rattle.exchange_law.specs.Sides.{Side};
    ghost use Rattle.exchange_core.specs.Codings.{coded_side};

    ghost Value = { Side };

    ghost coded = { coded_side };

    ghost use Rattle.exchange_core.specs.model.Keeping.{HasCompared};
    ghost use Rattle.exchange_core.specs.Views.{state_seen};

    ghost view = { state_seen };

    ghost invariant = { HasCompared };
}

impl State {
    // An idle side without names. Allocates nothing.
    pub(crate) fn new(alloc: Global, id: SideId) -> State
        ensures { result ≡ new_side id }
    {
        State {
            id,
            table: Table::new(alloc),
            exchange: None,
            compared: None,
            latest: None,
        }
    }

    // Which of the two sides it is.
    pub(crate) fn id(&self) -> SideId
        ensures { result ≡ self.now.id }
    {
        self.id
    }

    // Returns the table, withdrawn names included.
    pub(crate) fn table(&self) -> &Table
        ensures { result.now ≡ self.now.table }
    {
        &self.table
    }

    // Checks whether an exchange is open.
    pub(crate) fn is_open(&self) -> bool
        ensures { result ≡ is_some self.now.exchange }
    {
        self.exchange.is_some()
    }

    // Returns the number of the open exchange, if any.
    pub(crate) fn open_number(&self) -> Option<u64>
        ensures { result ≡ option_map (λ exchange. exchange.number) self.now.exchange }
    {
        match &self.exchange {
            Some(exchange) => Some(exchange.number()),
            None => None,
        }
    }

    // Returns the names withdrawn in the open exchange.
    pub(crate) fn withdrawn(&self) -> &[Name]
        ensures { result.now ≡ withdrawn_by self.now }
    {
        match &self.exchange {
            Some(exchange) => exchange.withdrawn().names(),
            None => &[],
        }
    }

    // Returns the clashes of the open exchange, once the other's offer is heard.
    pub(crate) fn clashes(&self) -> Option<&ClashList>
        ensures { option_map (λ list. list.now) result ≡ heard_clashes self.now }
    {
        match &self.compared {
            Some(compared) => Some(&compared.clashes),
            None => None,
        }
    }

    // Checks whether these are the clashes of the open exchange.
    pub(crate) fn has_clashes(&self, clashes: &ClashList) -> bool
        ensures { Decides result (heard_clashes self.now ≡ Some clashes.now) }
    {
        match &self.compared {
            Some(own) => is_same_list(&own.clashes, clashes),
            None => false,
        }
    }

    // Adds an owner of the clashes of the open exchange.
    pub(crate) fn share_clashes(&self) -> Result<Arc<ClashList>, SideFault>
        ensures answer { IsAnswered side_fault_number (due.clashes_fault self.now) result }
        ensures refused { IfSome (due.clashes_fault self.now) (λ fault. result ≡ Err fault) }
        ensures clashes { IfOk result (λ list. heard_clashes self.now ≡ Some (arc_value list)) }
    {
        let Some(compared) = &self.compared else {
            return Err(match &self.exchange {
                Some(_) => SideFault::Missing(MissingPart::TheirOffer),
                None => SideFault::NotHealing,
            });
        };
        Ok(compared.clashes.clone()?)
    }

    // What the name is registered with, unless it was withdrawn.
    pub(crate) fn whereis(&self, name: &Name) -> Option<&Registration>
        ensures { option_map (λ r. r.now) result
            ≡ option_map (λ row. row.registration) (get (shown_table self.now) name.now) }
    {
        let Some(exchange) = &self.exchange else {
            return self.table.whereis(name);
        };
        if exchange.has_withdrawn(name) {
            return None;
        }
        self.table.whereis(name)
    }

    // The rows of the table, without the names that were withdrawn.
    pub(crate) fn rows(&self) -> ShownRows<'_>
        ensures { rows_left result ≡ rows_of (shown_table self.entry.now) }
    {
        let Some(exchange) = &self.exchange else {
            return ShownRows {
                rows: self.table.rows(),
                withdrawn: None,
            };
        };
        ShownRows {
            rows: self.table.rows(),
            withdrawn: Some(exchange.withdrawn()),
        }
    }

    // Registers the name on an idle side. Compares no code if the table is known to keep no other code under the program's id.
    pub(crate) fn register(
        &mut self,
        is_known: bool,
        limit: NameLimit,
        name: Name,
        registration: Registration,
        store: &UploadStore,
    ) -> Result<(), TableFault>
        requires idle { self.old.exchange ≡ None }
        requires known { IsTrue is_known → IsTrue (agrees_with self.old.table (row_for store.now registration)) }
        ensures answer { IsAnswered table.table_fault_number (table.row_fault limit.names self.old.table name registration store.now) result }
        ensures refused { IfSome (table.row_fault limit.names self.old.table name registration store.now) (λ fault. result ≡ Err fault) }
        ensures done { OnOk result (sides.register self.old name (row_for store.now registration) ≡ Some self.new) }
        ensures unchanged { OnErr result (self.new ≡ self.old) }
    {
        self.table
            .register_known(is_known, limit, name, registration, store)
    }

    // Takes the name out.
    pub(crate) fn unregister(&mut self, name: &Name) -> Registration
        requires { IsTrue (is_some (sides.unregister self.old name.now)) }
        ensures given { option_map (λ row. row.registration) (get self.old.table name.now) ≡ Some result }
        ensures done { sides.unregister self.old name.now ≡ Some self.new }
    {
        match self.table.unregister(name) {
            Ok(registration) => registration,
            Err(_) => unreachable!(),
        }
    }

    // Opens an exchange.
    pub(crate) fn begin(
        &mut self,
        alloc: Global,
        number: u64,
        seed: u64,
        uptime: u64,
    ) -> Result<Offer, AllocError>
        requires { IsTrue (is_some (sides.begin self.old number seed uptime)) }
        ensures done { OnOk result (sides.begin self.old number seed uptime ≡ Some self.new) }
        ensures offer { IfOk result (λ offer. offer ≡ offer_of self.old number seed uptime) }
        ensures unchanged { OnErr result (self.new ≡ self.old) }
    {
        let table = share(alloc, &mut self.table)?;
        self.exchange = Some(Exchange::new(alloc, number, seed, uptime));
        self.compared = None;
        self.latest = Some(number);
        Ok(Offer::new(self.id, number, seed, uptime, table))
    }

    // Checks whether the other side's offer was heard.
    fn has_heard(&self) -> bool
        ensures { result ≡ has_heard self.now }
    {
        match &self.exchange {
            Some(exchange) => exchange.has_heard(),
            None => false,
        }
    }

    // Hears the other side's offer, unless the two tables don't fit together.
    pub(crate) fn hear(
        &mut self,
        alloc: Global,
        limit: NameLimit,
        offer: &Offer,
    ) -> Result<(), SideFault>
        requires { early_hear_fault limit.names false self.old offer.now ≡ None }
        ensures answer { IsAnswered side_fault_number (due.hear_fault limit.names false self.old offer.now) result }
        ensures done { OnOk result (sides.hear self.old offer.now ≡ Some self.new) }
        ensures unchanged { OnErr result (self.new ≡ self.old) }
    {
        if self.has_heard() {
            return Ok(());
        }
        let compared = self.compare_with(alloc, limit, offer)?;
        self.keep_offer(alloc, offer, compared)?;
        Ok(())
    }

    // Compares the table with the offer's, unless the two don't fit together.
    fn compare_with(
        &self,
        alloc: Global,
        limit: NameLimit,
        offer: &Offer,
    ) -> Result<Compared, TableFault>
        requires { IsTrue (is_some self.now.exchange) }
        ensures answer { IsAnswered table.table_fault_number
            (fit_fault_for limit.names self.now.id self.now.table offer.now.table) result }
        ensures clashes { IfOk result (λ found. arc_value found.clashes ≡ clashes_offered self.now offer.now) }
        ensures marks { IfOk result (λ found. Some (marks_of found) ≡ marks_offered self.now offer.now) }
    {
        let Some(exchange) = &self.exchange else {
            unreachable!()
        };
        let own = HalfTable {
            table: &self.table,
            uptime: exchange.uptime(),
        };
        let other = HalfTable {
            table: offer.table(),
            uptime: offer.uptime(),
        };
        compare(alloc, limit, self.id, own, other)
    }

    // Keeps the first offer, and what its comparison found.
    fn keep_offer(
        &mut self,
        alloc: Global,
        offer: &Offer,
        compared: Compared,
    ) -> Result<(), AllocError>
        requires hearable { IsTrue (is_some (sides.hear self.old offer.now)) }
        requires unheard { has_heard self.old ≡ false }
        requires clashes { arc_value compared.clashes ≡ clashes_offered self.old offer.now }
        requires marks { Some (marks_of compared) ≡ marks_offered self.old offer.now }
        ensures done { OnOk result (sides.hear self.old offer.now ≡ Some self.new) }
        ensures unchanged { OnErr result (self.new ≡ self.old) }
    {
        let Some(exchange) = &mut self.exchange else {
            unreachable!()
        };
        let places = compared.clashes.len();
        let heard = Heard::new(alloc, offer.share_table()?, offer.uptime(), places)?;
        exchange.keep_heard(heard);
        self.compared = Some(compared);
        Ok(())
    }

    // Takes the ruling of clash `k`.
    pub(crate) fn take(&mut self, number: u64, k: u32, judged: Judged)
        requires { IsTrue (is_some (sides.take self.old number k judged)) }
        ensures { sides.take self.old number k judged ≡ Some self.new }
    {
        let Some(exchange) = &mut self.exchange else {
            unreachable!()
        };
        exchange.put(k, judged);
    }

    // Withdraws the name.
    pub(crate) fn withdraw(&mut self, name: &Name) -> Result<(), AllocError>
        requires { IsTrue (is_some (sides.withdraw self.old name.now)) }
        ensures done { OnOk result (sides.withdraw self.old name.now ≡ Some self.new) }
        ensures unchanged { OnErr result (self.new ≡ self.old) }
    {
        let Some(exchange) = &mut self.exchange else {
            unreachable!()
        };
        exchange.withdraw(*name)
    }

    // Closes the list of withdrawn names.
    pub(crate) fn close_list(&mut self, alloc: Global) -> Result<Withdrawals, AllocError>
        requires open { IsTrue (is_some (sides.close_list self.old)) }
        requires own { (x : sides.Exchange) → self.old.exchange ≡ Some x → AreNamesOf self.old.table x.withdrawn }
        ensures done { OnOk result (sides.close_list self.old ≡ Some self.new) }
        ensures list { IfOk result (λ list. list ≡ list_of self.old) }
        ensures unchanged { OnErr result (self.new ≡ self.old) }
    {
        let Some(exchange) = &mut self.exchange else {
            unreachable!()
        };
        // For the proof: the table has at most 1,048,576 names.
        self.table.len();
        let names = exchange.copy_names(alloc)?;
        let number = exchange.number();
        exchange.close();
        Ok(Withdrawals::new(self.id, number, names))
    }

    // Hears the other side's list.
    pub(crate) fn hear_list(&mut self, sent: &Withdrawals) -> Result<(), AllocError>
        requires { IsTrue (is_some (sides.hear_list self.old sent.now)) }
        ensures done { OnOk result (sides.hear_list self.old sent.now ≡ Some self.new) }
        ensures unchanged { OnErr result (self.new ≡ self.old) }
    {
        let Some(exchange) = &mut self.exchange else {
            unreachable!()
        };
        if exchange.has_list() {
            return Ok(());
        }
        exchange.keep_list(sent.share_names()?);
        Ok(())
    }

    // Closes the exchange, and takes out the names that were withdrawn. Needs no memory.
    pub(crate) fn abandon(&mut self)
        requires { IsTrue (is_some (sides.abandon self.old)) }
        ensures { sides.abandon self.old ≡ Some self.new }
    {
        let Some(exchange) = &self.exchange else {
            unreachable!()
        };
        take_out(&mut self.table, exchange.withdrawn().names());
        self.exchange = None;
        self.compared = None;
    }

    // Closes the exchange as `abandon` does, if one is open. Needs no memory.
    pub(crate) fn rest(&mut self)
        ensures { self.new ≡ rested self.old }
    {
        if self.exchange.is_some() {
            self.abandon();
        }
    }
}

// Returns a table that shares its rows with this one, and that several owners can read.
pub(crate) fn share(alloc: Global, table: &mut Table) -> Result<Arc<Table>, AllocError>
    ensures shared { IfOk result (λ shared. arc_value shared ≡ table.old) }
    ensures same { table.new ≡ table.old }
{
    match Arc::new(alloc, table.share()?) {
        Ok(shared) => Ok(shared),
        Err(_) => Err(AllocError),
    }
}

// Takes these names out of the table. Needs no memory.
fn take_out(table: &mut Table, names: &[Name])
    ensures { table.new ≡ without names.now table.old }
{
    for name in names {
        let _ = table.unregister(name);
    }
}

// Checks whether the two lists are equal.
fn is_same_list(own: &ClashList, clashes: &ClashList) -> bool
    ensures { Decides result (own.now ≡ clashes.now) }
{
    own == clashes
}
