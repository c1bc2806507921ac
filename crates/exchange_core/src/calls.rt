//! The calls of a side.
ghost use Rattle.std.specs.Prelude.{◌≡◌, ◌≢◌, IsTrue, ◌≤◌, ◌+◌, [], ◌∷◌, Some, None, Ok, Err, IfOk, IfSome, OnOk, OnErr, length};
ghost use Rattle.std.specs.Bool.{Decides};
ghost use Rattle.std.specs.Option.{option_map};
ghost use Rattle.std.specs.Arc.{arc_value};
ghost use Rattle.std.specs.FinMap.{get, len};
ghost use Rattle.partition_table.specs.Tables.{agrees_with, max_names, row_for, rows_of};
ghost use Rattle.exchange_law.specs.Lists.{AreNamesOf};
ghost use Rattle.exchange_core.specs.Rows.{rows_left};
ghost use Rattle.partition_table.specs.Judged.{clash_of_verdict, word_of_verdict, answer_of_verdict};
ghost use Rattle.exchange_law.specs.Sides.{has_clash, heard_clashes, new_side, rested, rulings_of, shown_table, withdrawn_by};
ghost use Rattle.exchange_core.specs.Settling.{IsSettled, the_round};
ghost use Rattle.exchange_law.specs.Calls.{Call};
ghost use Rattle.exchange_law.specs.Calls as call;
ghost use Rattle.exchange_law.specs.Worlds.{offer_of, list_of};
ghost use Rattle.exchange_core.specs.Journal.{max_events};
ghost use Rattle.exchange_core.specs.Finished.{finished_from};
ghost use Rattle.refusals.specs.Answers.{IsAnswered, IsDecidedBy};
ghost use Rattle.exchange_core.specs.Faults.{side_fault_number};
ghost use Rattle.exchange_core.specs.Refusals as due;
ghost use Rattle.exchange_core.specs.Refusals.{count_lacking};
ghost use Rattle.exchange_core.specs.Shown.{shown, calls, limit_of, is_full, IsDone, IsUntouched};

use crate::fault::SideFault;
use crate::finished::Finished;
use crate::journal::Event;
use crate::messages::{Offer, Withdrawals};
use crate::shown_rows::ShownRows;
use crate::side::Side;
use clash_record::{Name, Registration, SideId};
use partition_table::{Agreement, ClashList, Judged, NameLimit, Ruling, Table, merge_theorem};
use std::alloc::Global;
use std::snapshot::Snapshot;
use std::sync::Arc;
use upload_store::UploadStore;

// The round at whose words sides settle.
const ROUND: u32 = 0;

impl Side {
    /// Returns an idle side without names, which may have 4,096. Allocates nothing.
    pub fn new(alloc: Global, id: SideId) -> Side
        ensures state { shown result ≡ new_side id }
        ensures journal { calls result ≡ [] }
        ensures limit { limit_of result ≡ max_names }
    {
        Side::with_limit(alloc, id, NameLimit::default())
    }

    /// Returns which of the two sides it is.
    pub fn id(&self) -> SideId
        ensures { result ≡ (shown self.now).id }
    {
        self.state.id()
    }

    /// Returns the number of events in the journal, at most 16 for each name of the limit: one for each call that returned `Ok` and changes the side
    /// or its journal, one for each ruling that `settle` took, and after `renew` those of the fresh journal. Allocates nothing.
    pub fn events(&self) -> usize
        ensures count { result ≡ length (calls self.now) }
        ensures few { result ≤ max_events (limit_of self.now) }
    {
        self.journal.len()
    }

    /// Returns the registration of the name, if any; an open side leaves out the names that it withdrew. Allocates nothing.
    pub fn whereis(&self, name: &Name) -> Option<&Registration>
        ensures { option_map (λ r. r.now) result
            ≡ option_map (λ row. row.registration) (get (shown_table (shown self.now)) name.now) }
    {
        self.state.whereis(name)
    }

    /// Iterates over the names and their registrations in the order of names; an open side leaves out the names that it withdrew.
    /// Allocates nothing.
    pub fn rows(&self) -> ShownRows<'_>
        ensures { rows_left result ≡ rows_of (shown_table (shown self.entry.now)) }
    {
        self.state.rows()
    }

    /// Returns the table. While an exchange is open, it has the withdrawn names too. Allocates nothing.
    pub fn table(&self) -> &Table
        ensures { result.now ≡ (shown self.now).table }
    {
        self.state.table()
    }

    /// Returns the number of the open exchange, if any. Allocates nothing.
    pub fn open_number(&self) -> Option<u64>
        ensures { result ≡ option_map (λ exchange. exchange.number) (shown self.now).exchange }
    {
        self.state.open_number()
    }

    /// Returns the names that the side withdrew in the open exchange, the earliest first. Allocates nothing.
    pub fn withdrawn(&self) -> &[Name]
        ensures { result.now ≡ withdrawn_by (shown self.now) }
    {
        self.state.withdrawn()
    }

    /// Returns the clashes of the open exchange, once the other side's offer is heard. Allocates nothing.
    pub fn clashes(&self) -> Option<&ClashList>
        ensures clashes { option_map (λ list. list.now) result ≡ heard_clashes (shown self.now) }
    {
        self.state.clashes()
    }

    /// Checks whether these are the clashes of the open exchange. Allocates nothing.
    ///
    /// If the tables of each list fit, compares the code of each program once, and not once for each clash.
    pub fn has_clashes(&self, clashes: &ClashList) -> bool
        ensures { Decides result (heard_clashes (shown self.now) ≡ Some clashes.now) }
    {
        self.state.has_clashes(clashes)
    }

    /// Shares the list of clashes of the open exchange: adds an owner, and copies nothing.
    ///
    /// Returns 34 if no exchange is open, and 39 with the other's offer if that isn't heard yet. Returns 90 when the list
    /// can't have one more owner.
    pub fn share_clashes(&self) -> Result<Arc<ClashList>, SideFault>
        ensures answer { IsAnswered side_fault_number (due.clashes_fault (shown self.now)) result }
        // 34 and 39 come also when out of memory.
        ensures refused { IfSome (due.clashes_fault (shown self.now)) (λ fault. result ≡ Err fault) }
        ensures clashes { IfOk result (λ list. heard_clashes (shown self.now) ≡ Some (arc_value list)) }
    {
        self.state.share_clashes()
    }

    /// Registers the name on an idle side, and keeps the program that the registration names, as the store has it.
    ///
    /// Returns 30 for a registered name, 32 if the table is full, 33 if an exchange is open, 40 if the journal is full,
    /// 41 if the store has no such program, and 42 if the table has other code under its id: the least that applies.
    /// Returns 90 when out of memory: it copies the table if others share its rows.
    pub fn register(
        &mut self,
        name: Name,
        registration: Registration,
        store: &UploadStore,
    ) -> Result<(), SideFault>
        ensures answer { IsAnswered side_fault_number (due.register_fault (limit_of self.old) (is_full self.old) (shown self.old) name registration store.now)
            result }
        // Each refusal comes also when out of memory.
        ensures refused { IfSome (due.register_fault (limit_of self.old) (is_full self.old) (shown self.old) name registration store.now)
            (λ fault. result ≡ Err fault) }
        ensures done { OnOk result (IsDone self.old (call.Register name (row_for store.now registration)) self.new) }
        ensures untouched { OnErr result (IsUntouched self.old self.new) }
    {
        self.register_known(false, name, registration, store)
    }

    /// Registers the name like `register`, on a side whose table has this agreement with the store: compares no code of a
    /// program that the agreement knows. Afterwards it knows the program that the registration names, unless its id can't
    /// be noted for lack of memory.
    pub fn register_agreed(
        &mut self,
        name: Name,
        registration: Registration,
        store: &UploadStore,
        agreement: &mut Agreement,
    ) -> Result<(), SideFault>
        requires { agreement.old ≡ record { table = (shown self.old).table; store = store.now } }
        ensures answer { IsAnswered side_fault_number (due.register_fault (limit_of self.old) (is_full self.old) (shown self.old) name registration store.now)
            result }
        // Each refusal comes also when out of memory.
        ensures refused { IfSome (due.register_fault (limit_of self.old) (is_full self.old) (shown self.old) name registration store.now)
            (λ fault. result ≡ Err fault) }
        ensures done { OnOk result (IsDone self.old (call.Register name (row_for store.now registration)) self.new) }
        ensures untouched { OnErr result (IsUntouched self.old self.new) }
        ensures agreed { agreement.new ≡ record { table = (shown self.new).table; store = store.now } }
    {
        let is_known = agreement.knows(&registration);
        self.register_known(is_known, name, registration, store)?;
        agreement.follow_registration(&name, &registration, self.table());
        Ok(())
    }

    // Registers the name on an idle side. Compares no code if the table is known to keep no other code under the program's id.
    fn register_known(
        &mut self,
        is_known: bool,
        name: Name,
        registration: Registration,
        store: &UploadStore,
    ) -> Result<(), SideFault>
        requires { IsTrue is_known → IsTrue (agrees_with (shown self.old).table (row_for store.now registration)) }
        ensures answer { IsAnswered side_fault_number (due.register_fault (limit_of self.old) (is_full self.old) (shown self.old) name registration store.now)
            result }
        ensures refused { IfSome (due.register_fault (limit_of self.old) (is_full self.old) (shown self.old) name registration store.now)
            (λ fault. result ≡ Err fault) }
        ensures done { OnOk result (IsDone self.old (call.Register name (row_for store.now registration)) self.new) }
        ensures untouched { OnErr result (IsUntouched self.old self.new) }
    {
        if self.is_full() || self.state.is_open() {
            return Err(self.state.closed_register_fault(self.limit, &name));
        }
        self.state
            .register(is_known, self.limit, name, registration, store)?;
        let table = Snapshot::of(self.state.table());
        self.journal
            .push(Event::Register(name, registration, table));
        Ok(())
    }

    /// Unregisters the name on an idle side, and returns its registration.
    ///
    /// Returns 31 for a name that isn't registered, 33 if an exchange is open, and 40 if the journal is full: the least
    /// that applies. Needs no memory: it copies the table if others share its rows, but without memory for a copy marks the row.
    pub fn unregister(&mut self, name: &Name) -> Result<Registration, SideFault>
        ensures answer { IsDecidedBy (due.unregister_fault (is_full self.old) (shown self.old) name.now) result }
        ensures given { IfOk result (λ registration. option_map (λ row. row.registration)
            (get (shown self.old).table name.now) ≡ Some registration) }
        ensures done { OnOk result (IsDone self.old (call.Unregister name.now) self.new) }
        ensures untouched { OnErr result (IsUntouched self.old self.new) }
    {
        if let Some(fault) = self.state.unregister_fault(self.is_full(), name) {
            return Err(fault);
        }
        let registration = self.state.unregister(name);
        self.journal.push(Event::Unregister(*name));
        Ok(registration)
    }

    /// Opens an exchange of this number, and returns the offer to be sent. The table then doesn't change until `finish`
    /// or `abandon`.
    ///
    /// Returns 33 if an exchange is open, 35 for a number that isn't above every number that this side began, and 40 if
    /// the journal is full: the least that applies. Returns 90 when out of memory. The offer shares the
    /// side's table.
    pub fn begin(
        &mut self,
        alloc: Global,
        number: u64,
        seed: u64,
        uptime: u64,
    ) -> Result<Offer, SideFault>
        ensures answer { IsAnswered side_fault_number (due.begin_fault (is_full self.old) (shown self.old) number) result }
        // 33, 35 and 40 come also when out of memory.
        ensures refused { IfSome (due.begin_fault (is_full self.old) (shown self.old) number) (λ fault. result ≡ Err fault) }
        ensures offer { IfOk result (λ offer. offer ≡ offer_of (shown self.old) number seed uptime) }
        ensures done { OnOk result (IsDone self.old (call.Begin number seed uptime) self.new) }
        ensures untouched { OnErr result (IsUntouched self.old self.new) }
    {
        if let Some(fault) = self.state.begin_fault(self.is_full(), number) {
            return Err(fault);
        }
        let offer = self.state.begin(alloc, number, seed, uptime)?;
        self.journal.push(Event::Begin(number, seed, uptime));
        Ok(offer)
    }

    /// Returns the refusal that is due to `begin` with this number, if any. Allocates nothing.
    pub fn begin_refusal(&self, number: u64) -> Option<SideFault>
        ensures { result ≡ due.begin_fault (is_full self.now) (shown self.now) number }
    {
        self.state.begin_fault(self.is_full(), number)
    }

    /// Hears the other side's offer. One that comes after the first, of the open number, changes nothing but the
    /// journal.
    ///
    /// Returns 34 if no exchange is open, 36 if the seeds differ, 37 if the two tables have more names together than the
    /// limit, 40 if the journal is full, 42 if the tables have two codes under one id, 45 for another number, and 46
    /// for an offer of this side: the least that applies. 36, 37 and 42 apply only to the
    /// other side's first offer of the open number. Walks both tables once. Returns 90 when out of memory: it allocates the
    /// list of clashes, copies of both maps of programs, and a place for each ruling.
    pub fn hear(&mut self, alloc: Global, offer: &Offer) -> Result<(), SideFault>
        ensures answer { IsAnswered side_fault_number (due.hear_fault (limit_of self.old) (is_full self.old) (shown self.old) offer.now) result }
        ensures done { OnOk result (IsDone self.old (call.Hear offer.now) self.new) }
        ensures untouched { OnErr result (IsUntouched self.old self.new) }
    {
        if let Some(fault) = self
            .state
            .early_hear_fault(self.limit, self.is_full(), offer)
        {
            return Err(fault);
        }
        self.state.hear(alloc, self.limit, offer)?;
        self.journal.push(Event::Hear(Snapshot::of(offer)));
        Ok(())
    }

    /// Takes a ruling of a clash. A second one of the same clash changes nothing but the journal.
    ///
    /// Returns 34 if no exchange is open, 38 for a ruling of the open number that isn't of clash `k` of the exchange at
    /// one of its four words, 40 if the journal is full, and 45 for another number: the least that applies. Allocates
    /// nothing.
    pub fn take(&mut self, ruling: Ruling<'_>) -> Result<(), SideFault>
        ensures answer { IsDecidedBy (due.take_fault (is_full self.old) (shown self.old) ruling.entry.number
            ruling.entry.k
            (clash_of_verdict ruling.entry.verdict) (word_of_verdict ruling.entry.verdict)) result }
        ensures done { OnOk result (IsDone self.old (call.Take ruling.entry.number ruling.entry.k record {
          word = word_of_verdict ruling.entry.verdict;
          answer = answer_of_verdict ruling.entry.verdict;
        }) self.new) }
        ensures untouched { OnErr result (IsUntouched self.old self.new) }
    {
        let is_own = self.state.has_clash(ruling.k, ruling.verdict.clash());
        self.take_if(is_own, ruling)
    }

    /// Takes a ruling as `take` does, with the same refusals, but compares no clash.
    ///
    /// Requires that the ruling's clash is clash `k` of the open exchange. `has_clashes` checks that for a whole list.
    pub fn take_own(&mut self, ruling: Ruling<'_>) -> Result<(), SideFault>
        requires { IsTrue (has_clash (shown self.old) ruling.k (clash_of_verdict ruling.verdict)) }
        ensures answer { IsDecidedBy (due.take_fault (is_full self.old) (shown self.old) ruling.entry.number
            ruling.entry.k
            (clash_of_verdict ruling.entry.verdict) (word_of_verdict ruling.entry.verdict)) result }
        ensures done { OnOk result (IsDone self.old (call.Take ruling.entry.number ruling.entry.k record {
          word = word_of_verdict ruling.entry.verdict;
          answer = answer_of_verdict ruling.entry.verdict;
        }) self.new) }
        ensures untouched { OnErr result (IsUntouched self.old self.new) }
    {
        self.take_if(true, ruling)
    }

    // Takes a ruling. `is_own` is whether its clash is clash `k` of the open exchange.
    fn take_if(&mut self, is_own: bool, ruling: Ruling<'_>) -> Result<(), SideFault>
        requires { is_own ≡ has_clash (shown self.old) ruling.k (clash_of_verdict ruling.verdict) }
        ensures answer { IsDecidedBy (due.take_fault (is_full self.old) (shown self.old) ruling.entry.number
            ruling.entry.k
            (clash_of_verdict ruling.entry.verdict) (word_of_verdict ruling.entry.verdict)) result }
        ensures done { OnOk result (IsDone self.old (call.Take ruling.entry.number ruling.entry.k record {
          word = word_of_verdict ruling.entry.verdict;
          answer = answer_of_verdict ruling.entry.verdict;
        }) self.new) }
        ensures untouched { OnErr result (IsUntouched self.old self.new) }
    {
        if let Some(fault) = self.state.take_fault(self.is_full(), is_own, ruling) {
            return Err(fault);
        }
        let judged = Judged {
            word: ruling.verdict.word(),
            answer: ruling.verdict.answer(),
        };
        self.state.take(ruling.number, ruling.k, judged);
        self.journal
            .push(Event::Take(ruling.number, ruling.k, judged));
        Ok(())
    }

    /// Judges each clash that has no ruling, and takes the rulings. All sides settle at the words of round 0, so that two that
    /// settle one exchange take the same rulings.
    ///
    /// Returns 34 if no exchange is open, 39 if the other's offer isn't heard, and 40 if the journal has fewer free places
    /// than there are clashes without a ruling: the least that applies. Allocates nothing.
    pub fn settle(&mut self) -> Result<(), SideFault>
        ensures answer { IsDecidedBy (due.settle_fault (limit_of self.old) (length (calls self.old)) (shown self.old)) result }
        ensures done { OnOk result (IsSettled self.old the_round self.new) }
        ensures complete { OnOk result (count_lacking (rulings_of (shown self.new)) ≡ 0) }
        ensures untouched { OnErr result (IsUntouched self.old self.new) }
    {
        if let Some(fault) = self.state.settle_fault(self.limit, self.events()) {
            return Err(fault);
        }
        self.state.settle(ROUND, &mut self.journal);
        Ok(())
    }

    /// Withdraws the name in the open exchange: its owner on this side is gone.
    ///
    /// Returns 31 for a name that isn't in the side's table, 34 if no exchange is open, 40 if the journal is full, 47 for
    /// a name that is already withdrawn, and 48 if the list is closed: the least that applies. Returns 90 when out of
    /// memory.
    pub fn withdraw(&mut self, name: &Name) -> Result<(), SideFault>
        ensures answer { IsAnswered side_fault_number (due.withdraw_fault (is_full self.old) (shown self.old) name.now) result }
        // 31, 34, 40, 47 and 48 come also when out of memory.
        ensures refused { IfSome (due.withdraw_fault (is_full self.old) (shown self.old) name.now) (λ fault. result ≡ Err fault) }
        ensures done { OnOk result (IsDone self.old (call.Withdraw name.now) self.new) }
        ensures untouched { OnErr result (IsUntouched self.old self.new) }
    {
        if let Some(fault) = self.state.withdraw_fault(self.is_full(), name) {
            return Err(fault);
        }
        self.state.withdraw(name)?;
        self.journal.push(Event::Withdraw(*name));
        Ok(())
    }

    /// Closes the list of withdrawn names, and returns it to be sent. Afterwards `withdraw` is refused in this exchange.
    ///
    /// Returns 34 if no exchange is open, 40 if the journal is full, and 48 if the list is already closed: the least that
    /// applies. Returns 90 when out of memory.
    pub fn close_list(&mut self, alloc: Global) -> Result<Withdrawals, SideFault>
        ensures answer { IsAnswered side_fault_number (due.close_list_fault (is_full self.old) (shown self.old)) result }
        // 34, 40 and 48 come also when out of memory.
        ensures refused { IfSome (due.close_list_fault (is_full self.old) (shown self.old)) (λ fault. result ≡ Err fault) }
        ensures list { IfOk result (λ list. list ≡ list_of (shown self.old)) }
        // The names are distinct names of the side's table.
        ensures own { IfOk result (λ list. AreNamesOf (shown self.old).table list.names) }
        ensures done { OnOk result (IsDone self.old call.Close_list self.new) }
        ensures untouched { OnErr result (IsUntouched self.old self.new) }
    {
        if let Some(fault) = self.state.close_list_fault(self.is_full()) {
            return Err(fault);
        }
        let list = self.state.close_list(alloc)?;
        self.journal.push(Event::CloseList);
        Ok(list)
    }

    /// Returns the refusal that is due to `close_list`, if any. Allocates nothing.
    pub fn close_list_refusal(&self) -> Option<SideFault>
        ensures { result ≡ due.close_list_fault (is_full self.now) (shown self.now) }
    {
        self.state.close_list_fault(self.is_full())
    }

    /// Hears the other side's list of withdrawn names. One that comes after the first changes nothing but the journal.
    ///
    /// Returns 34 if no exchange is open, 40 if the journal is full, 45 for another number, and 46 for a list of this
    /// side: the least that applies. Returns 90 when out of memory.
    pub fn hear_list(&mut self, sent: &Withdrawals) -> Result<(), SideFault>
        ensures answer { IsAnswered side_fault_number (due.hear_list_fault (is_full self.old) (shown self.old) sent.now) result }
        // 34, 40, 45 and 46 come also when out of memory.
        ensures refused { IfSome (due.hear_list_fault (is_full self.old) (shown self.old) sent.now) (λ fault. result ≡ Err fault) }
        ensures done { OnOk result (IsDone self.old (call.Hear_list sent.now) self.new) }
        ensures untouched { OnErr result (IsUntouched self.old self.new) }
    {
        if let Some(fault) = self.state.hear_list_fault(self.is_full(), sent) {
            return Err(fault);
        }
        self.state.hear_list(sent)?;
        self.journal.push(Event::HearList(Snapshot::of(sent)));
        Ok(())
    }

    /// Returns the refusal that is due to `finish`, if any. Allocates nothing.
    pub fn finish_refusal(&self) -> Option<SideFault>
        ensures { result ≡ due.finish_fault (is_full self.now) (shown self.now) }
    {
        self.state.finish_fault(self.is_full())
    }

    /// Replaces the table by the merge of the two under the rulings taken, and closes the exchange.
    ///
    /// Returns 34 if no exchange is open, 39 with the part that is missing (the other's offer, else the first clash
    /// without a ruling, else this side's list, else the other's), and 40 if the journal is full: the least that applies.
    /// Returns 90 when out of memory: it allocates the merge, the rulings and the answers.
    pub fn finish(&mut self, alloc: Global) -> Result<Finished, SideFault>
        ensures answer { IsAnswered side_fault_number (due.finish_fault (is_full self.old) (shown self.old)) result }
        // 34, 39 and 40 come also when out of memory.
        ensures refused { IfSome (due.finish_fault (is_full self.old) (shown self.old)) (λ fault. result ≡ Err fault) }
        ensures given { IfOk result (λ finished. finished_from (shown self.old) ≡ Some finished) }
        ensures done { OnOk result (IsDone self.old call.Finish self.new) }
        ensures untouched { OnErr result (IsUntouched self.old self.new) }
    {
        if let Some(fault) = self.state.finish_fault(self.is_full()) {
            return Err(fault);
        }
        // For the proof: the merge has no more names than both tables.
        merge_theorem();
        let finished = self.state.finish(alloc)?;
        self.journal.push(Event::Finish);
        Ok(finished)
    }

    /// Shortens the journal of an idle side: afterwards it has at most two events more than the table has names. The
    /// table and the greatest number that the side began stay as they are.
    ///
    /// Returns 33 if an exchange is open. Allocates nothing.
    pub fn renew(&mut self) -> Result<(), SideFault>
        ensures answer { IsDecidedBy (due.renew_fault (shown self.old)) result }
        ensures same { OnOk result (shown self.new ≡ shown self.old) }
        ensures limit { OnOk result (limit_of self.new ≡ limit_of self.old) }
        ensures short { OnOk result (length (calls self.new) ≤ len (shown self.old).table + 2) }
        ensures untouched { OnErr result (IsUntouched self.old self.new) }
    {
        if self.state.is_open() {
            return Err(SideFault::Healing);
        }
        self.journal = self.state.fresh_journal();
        Ok(())
    }

    /// Closes the exchange and keeps the table, without the withdrawn names.
    ///
    /// Returns 34 if no exchange is open, and 40 if the journal is full: the least that applies. Needs no memory: takes the names
    /// out as `unregister` does.
    pub fn abandon(&mut self) -> Result<(), SideFault>
        ensures answer { IsDecidedBy (due.abandon_fault (is_full self.old) (shown self.old)) result }
        ensures done { OnOk result (IsDone self.old call.Abandon self.new) }
        ensures untouched { OnErr result (IsUntouched self.old self.new) }
    {
        if let Some(fault) = self.state.abandon_fault(self.is_full()) {
            return Err(fault);
        }
        self.state.abandon();
        self.journal.push(Event::Abandon);
        Ok(())
    }

    /// Gives the open exchange up, if there is one, and renews the journal, also a full one. Afterwards the side is idle,
    /// without the names that it withdrew, and its journal has at most two events more than the table has names. Needs no
    /// memory.
    pub fn give_up(&mut self)
        ensures rested { shown self.new ≡ rested (shown self.old) }
        ensures limit { limit_of self.new ≡ limit_of self.old }
        ensures short { length (calls self.new) ≤ len (shown self.new).table + 2 }
    {
        self.state.rest();
        self.journal = self.state.fresh_journal();
    }
}
