//! An exchange of two sides, as far as it has come.

use crate::comparing::is_same_option;
use crate::fault::Fault;
use crate::sweeping::Subject;
use clash_record::{ProgramId, Registration, ResolverId, SideId};
use exchange_core::{Finished, Offer, Side, Withdrawals};
use fixtures::{
    BY_WORD, exit_registration, numbered_name, numbered_side, registration, ruling_of, stored,
};
use partition_table::clashes;
use std::alloc::Global;
use upload_store::UploadStore;

/// The number of the exchange.
pub(crate) const NUMBER: u64 = 1;

/// The seed of its words.
pub(crate) const SEED: u64 = 5;

/// A step of a side in an exchange.
#[derive(Clone, Copy)]
pub(crate) enum Step {
    /// It registers one name more.
    RegisterBuiltin,
    RegisterProgram,
    /// It unregisters its first name.
    Unregister,
    Begin,
    Hear,
    HearList,
    /// It takes the ruling of the first clash.
    Take,
    /// It takes the ruling of each clash.
    TakeAll,
    /// It withdraws its first name.
    Withdraw,
    CloseList,
    Finish,
    Abandon,
}

/// The steps of an exchange that finishes.
pub(crate) const WHOLE: [Step; 6] = [
    Step::Begin,
    Step::Hear,
    Step::TakeAll,
    Step::CloseList,
    Step::HearList,
    Step::Finish,
];

/// A side, what it hears of the other, and what its calls answered.
pub(crate) struct Exchange {
    /// The count of names when the exchange begins.
    names: u16,
    side: Side,
    store: UploadStore,
    program: ProgramId,
    of_other: Offer,
    list_of_other: Withdrawals,
    unregistered: Option<Registration>,
    offer: Option<Offer>,
    list: Option<Withdrawals>,
    finished: Option<Finished>,
}

/// Written by hand, so that a function drops an exchange by one call: a derived drop is proved part by part there.
impl Drop for Exchange {
    fn drop(self) {
        let Exchange {
            names: _,
            side: _,
            store: _,
            program: _,
            of_other: _,
            list_of_other: _,
            unregistered: _,
            offer: _,
            list: _,
            finished: _,
        } = self;
    }
}

impl Exchange {
    /// Returns a side with `names` names after these steps. The other side has the same names with other owners, and has
    /// closed its list.
    pub(crate) fn after(alloc: Global, names: u16, steps: &[Step]) -> Result<Exchange, Fault> {
        let mut exchange = Exchange::idle(alloc, names)?;
        for step in steps {
            exchange.step(alloc, *step)?;
        }
        Ok(exchange)
    }

    fn idle(alloc: Global, names: u16) -> Result<Exchange, Fault> {
        let (store, program) = stored(alloc, &BY_WORD)?;
        let resolver = ResolverId::Program(program);
        let (of_other, list_of_other) = sent_by_other(alloc, names, resolver, &store)?;
        let side = numbered_side(alloc, SideId::A, names, resolver, &store)?;
        Ok(Exchange {
            names,
            side,
            store,
            program,
            of_other,
            list_of_other,
            unregistered: None,
            offer: None,
            list: None,
            finished: None,
        })
    }

    /// Returns the outcome of a side with `names` names.
    pub(crate) fn finished(alloc: Global, names: u16) -> Result<Finished, Fault> {
        let mut exchange = Exchange::after(alloc, names, &WHOLE)?;
        exchange.finished.take().ok_or(Fault::Unprepared)
    }

    pub(crate) fn side(&self) -> &Side {
        &self.side
    }

    /// The program that judges each of the names.
    pub(crate) fn program(&self) -> ProgramId {
        self.program
    }

    pub(crate) fn step(&mut self, alloc: Global, step: Step) -> Result<(), Fault> {
        match step {
            Step::RegisterBuiltin => self.register(exit_registration(1, 1)),
            Step::RegisterProgram => self.register(registration(
                1,
                1,
                ResolverId::Program(self.program),
            )),
            Step::Unregister => self.unregister(),
            Step::Begin => self.begin(alloc),
            Step::Hear => Ok(self.side.hear(alloc, &self.of_other)?),
            Step::HearList => Ok(self.side.hear_list(&self.list_of_other)?),
            Step::Take => self.take(alloc, 1),
            Step::TakeAll => self.take(alloc, u32::MAX),
            Step::Withdraw => Ok(self.side.withdraw(&numbered_name(b'n', 0)?)?),
            Step::CloseList => self.close_list(alloc),
            Step::Finish => self.finish(alloc),
            Step::Abandon => Ok(self.side.abandon()?),
        }
    }

    fn register(&mut self, registration: Registration) -> Result<(), Fault> {
        let name = numbered_name(b'n', self.names)?;
        Ok(self.side.register(name, registration, &self.store)?)
    }

    fn unregister(&mut self) -> Result<(), Fault> {
        self.unregistered = Some(self.side.unregister(&numbered_name(b'n', 0)?)?);
        Ok(())
    }

    fn begin(&mut self, alloc: Global) -> Result<(), Fault> {
        self.offer = Some(self.side.begin(alloc, NUMBER, SEED, 0)?);
        Ok(())
    }

    fn close_list(&mut self, alloc: Global) -> Result<(), Fault> {
        self.list = Some(self.side.close_list(alloc)?);
        Ok(())
    }

    fn finish(&mut self, alloc: Global) -> Result<(), Fault> {
        self.finished = Some(self.side.finish(alloc)?);
        Ok(())
    }

    // Has the side take the rulings of the first `most` clashes of the two offers. Tries all of them, and returns the
    // first refusal.
    fn take(&mut self, alloc: Global, most: u32) -> Result<(), Fault> {
        let offer = self.offer.as_ref().ok_or(Fault::Unprepared)?;
        let list = clashes(alloc, offer.table(), 0, self.of_other.table(), 0)?;
        let mut taken = Ok(());
        for k in 0..most {
            let Some(ruling) = ruling_of(&list, NUMBER, SEED, k) else {
                break;
            };
            taken = taken.and(self.side.take(ruling));
        }
        Ok(taken?)
    }
}

impl Subject for Exchange {
    fn is_same(&self, other: &Exchange) -> bool {
        self.side.events() == other.side.events()
            && has_same_rows(&self.side, &other.side)
            && self.unregistered == other.unregistered
            && is_same_option(self.offer.as_ref(), other.offer.as_ref(), is_same_offer)
            && is_same_option(self.list.as_ref(), other.list.as_ref(), is_same_list)
            && is_same_option(
                self.finished.as_ref(),
                other.finished.as_ref(),
                is_same_finished,
            )
    }

    // Goes on to the end of the exchange. What was done already, or can't be done any more, is refused.
    fn go_on(&mut self, alloc: Global) -> Result<(), Fault> {
        for step in WHOLE {
            let _ = self.step(alloc, step);
        }
        Ok(())
    }
}

// Returns the offer and the list of a side with `names` names of an owner on node 2, all judged by this resolver.
fn sent_by_other(
    alloc: Global,
    names: u16,
    resolver: ResolverId,
    store: &UploadStore,
) -> Result<(Offer, Withdrawals), Fault> {
    let mut other = numbered_side(alloc, SideId::B, names, resolver, store)?;
    sent_by(alloc, &mut other)
}

// Begins the exchange, and returns the offer and the list of this side.
fn sent_by(alloc: Global, side: &mut Side) -> Result<(Offer, Withdrawals), Fault> {
    let offer = side.begin(alloc, NUMBER, SEED, 0)?;
    Ok((offer, side.close_list(alloc)?))
}

fn has_same_rows(one: &Side, other: &Side) -> bool {
    let mut rows = other.rows();
    for row in one.rows() {
        if rows.next() != Some(row) {
            return false;
        }
    }
    rows.next().is_none()
}

fn is_same_offer(one: &Offer, other: &Offer) -> bool {
    one.side() == other.side()
        && one.number() == other.number()
        && one.seed() == other.seed()
        && one.uptime() == other.uptime()
        && one.table() == other.table()
}

fn is_same_list(one: &Withdrawals, other: &Withdrawals) -> bool {
    one.side() == other.side() && one.number() == other.number() && one.names() == other.names()
}

fn is_same_finished(one: &Finished, other: &Finished) -> bool {
    one.number() == other.number()
        && one.seed() == other.seed()
        && one.a() == other.a()
        && one.b() == other.b()
        && one.uptime_a() == other.uptime_a()
        && one.uptime_b() == other.uptime_b()
        && one.gone_a() == other.gone_a()
        && one.gone_b() == other.gone_b()
        && one.rulings() == other.rulings()
        && one.table() == other.table()
}
