//! A random walk of two sides: edits, exchanges with messages that come late, again, in any order or not at all, and
//! withdrawn names. Sides that finish one number hold one table, and no call is refused for a cause that isn't its own.
use crate::dice::Dice;
use crate::walk_log::{Call, Log, Told, Wrong};
use clash_record::{Builtin, Name, ProgramId, Registration, ResolverId, SideId, name};
use exchange_core::{Finished, MissingPart, Side, SideFault};
use fixtures::{BY_STAMP, EXIT, Mail, UNKNOWN, registration, stored};
use partition_table::{Ruling, Table, Verdict, word};
use std::alloc::{AllocError, Global};
use std::collections::BTreeMap;
use std::sync::Arc;
use std::test::Fail;
use upload_store::UploadStore;

/// The seed of the walk.
const SEED: u64 = 20_261_123;

/// The steps of a walk.
const STEPS: u32 = 100_000;

/// The events of a side after which the walk goes on with new sides: far fewer than a journal holds.
const MOST_EVENTS: usize = 6_000;

/// The numbers in use: the latest and those right below it.
const REACH: u32 = 3;

/// How many offers stay under way, and how many lists.
const MOST_KEPT: usize = 6;

/// A side, and the latest number that it began.
struct Half {
    side: Side,
    begun: u64,
}

/// Written by hand, so that a function that drops a half makes one call. A derived drop is proved there part by part.
impl Drop for Half {
    fn drop(self) {
        let Half { side: _, begun: _ } = self;
    }
}

/// Two sides, and what stands between them.
#[derive(Drop)]
struct Walk {
    a: Half,
    b: Half,
    between: Between,
}

/// What isn't one side's: the messages under way, and what was seen.
#[derive(Drop)]
struct Between {
    alloc: Global,
    dice: Dice,
    store: UploadStore,
    program: ProgramId,
    // The latest number that a side began.
    latest: u64,
    mail: Mail,
    // The tables of the numbers that one side finished.
    finished: BTreeMap<u64, Arc<Table>>,
    log: Log,
}

// The seed with which a side begins a number, if it isn't one of the few that begin with the next one.
fn seed_of(number: u64) -> u64 {
    number.wrapping_mul(0x9e37_79b9_7f4a_7c15)
}

// Returns the round at whose word both sides take the ruling of clash `k`.
fn round_of(number: u64, k: u32) -> u32 {
    (seed_of(number.wrapping_add(u64::from(k))) >> 62) as u32
}

fn other(id: SideId) -> SideId {
    match id {
        SideId::A => SideId::B,
        SideId::B => SideId::A,
    }
}

impl Walk {
    fn new(alloc: Global, seed: u64) -> Result<Walk, Fail> {
        let between = Between::new(alloc, seed)?;
        Ok(Walk {
            a: Half::new(alloc, SideId::A, 0),
            b: Half::new(alloc, SideId::B, 0),
            between,
        })
    }

    fn step(&mut self) -> Result<(), Fail> {
        if self.a.side.events() > MOST_EVENTS || self.b.side.events() > MOST_EVENTS {
            self.renew();
        }
        if self.between.dice.is_one_in(2) {
            self.between.step(&mut self.a)
        } else {
            self.between.step(&mut self.b)
        }
    }

    // Goes up to `steps` steps. Returns the first after which something is wrong, and what is wrong.
    fn first_wrong(&mut self, steps: u32) -> Result<Option<(u32, Wrong)>, Fail> {
        for step in 0..steps {
            self.step()?;
            if let Some(wrong) = self.between.log.wrong {
                return Ok(Some((step, wrong)));
            }
        }
        Ok(None)
    }

    // Goes on with two new sides. The messages of the old ones stay under way: the numbers from now on are others.
    fn renew(&mut self) {
        let alloc = self.between.alloc;
        let latest = self.between.latest.wrapping_add(u64::from(REACH));
        self.between.latest = latest;
        self.a = Half::new(alloc, SideId::A, latest);
        self.b = Half::new(alloc, SideId::B, latest);
    }
}

impl Half {
    // A new side. It counts as if it had begun this number.
    fn new(alloc: Global, id: SideId, begun: u64) -> Half {
        Half {
            side: Side::new(alloc, id),
            begun,
        }
    }
}

impl Between {
    fn new(alloc: Global, seed: u64) -> Result<Between, Fail> {
        let (store, program) = stored(alloc, &BY_STAMP)?;
        Ok(Between {
            alloc,
            dice: Dice::new(seed),
            store,
            program,
            latest: 0,
            mail: Mail::new(alloc, MOST_KEPT),
            finished: BTreeMap::new(alloc),
            log: Log::new(alloc),
        })
    }

    // Half of the steps lead on, the others are any call.
    fn step(&mut self, half: &mut Half) -> Result<(), Fail> {
        if self.dice.is_one_in(2) {
            self.lead_on(half)
        } else {
            self.call_any(half)
        }
    }

    // Finishes, or does what is missing for it.
    fn lead_on(&mut self, half: &mut Half) -> Result<(), Fail> {
        match self.finish(half)? {
            Some(SideFault::NotHealing) => {
                if self.dice.is_one_in(8) {
                    self.begin_next(half)
                } else {
                    self.edit(half)
                }
            }
            Some(SideFault::Missing(part)) => {
                // Sooner where the other side went on without it.
                let patience = if self.latest > half.begun { 8 } else { 96 };
                if self.dice.is_one_in(patience) {
                    self.abandon(half)
                } else {
                    self.give(half, part)
                }
            }
            _ => Ok(()),
        }
    }

    // Gives a side what it misses.
    fn give(&mut self, half: &mut Half, part: MissingPart) -> Result<(), Fail> {
        let sender = other(half.side.id());
        let number = half.begun;
        match part {
            MissingPart::TheirOffer => self.hear(half, sender, number),
            MissingPart::Ruling(k) => { self.take(half, number, u32::try_from(k)?, Told::Right) }
            MissingPart::OwnList => self.close_list(half),
            MissingPart::OtherList => self.hear_list(half, sender, number),
        }
    }

    // Some call with some argument.
    fn call_any(&mut self, half: &mut Half) -> Result<(), Fail> {
        let sender = if self.dice.is_one_in(2) {
            SideId::A
        } else {
            SideId::B
        };
        let number = self
            .latest
            .saturating_sub(u64::from(self.dice.below(REACH)));
        let k = self.dice.below(6);
        match self.dice.below(64) {
            0..=17 => self.edit(half),
            18..=21 => self.begin(half, number),
            22..=29 => self.hear(half, sender, number),
            30..=37 => self.take(half, number, k, Told::Right),
            38..=39 => self.take(half, number, k, Told::OtherWord),
            40..=41 => self.take(half, number, k, Told::OtherClash),
            42..=43 => self.take(half, number, k, Told::OtherNumber),
            44..=47 => self.withdraw(half),
            48..=51 => self.close_list(half),
            52..=57 => self.hear_list(half, sender, number),
            58..=62 => self.ask_for_end(half),
            _ => self.abandon(half),
        }
    }

    // Registers or unregisters some name.
    fn edit(&mut self, half: &mut Half) -> Result<(), Fail> {
        let name = self.any_name()?;
        if self.dice.is_one_in(3) {
            let gone = half.side.unregister(&name);
            return self.log.note(Call::Unregister, gone.err());
        }
        let registration = self.any_registration();
        let registered = half.side.register(name, registration, &self.store);
        self.log.note(Call::Register, registered.err())
    }

    // One of a handful of names.
    fn any_name(&mut self) -> Result<Name, Fail> {
        let place = u8::try_from(self.dice.below(6))?;
        Ok(name(&[b'a'.wrapping_add(place)])?)
    }

    // One of a few registrations. The program of some isn't known.
    fn any_registration(&mut self) -> Registration {
        let resolver = match self.dice.below(8) {
            0..=2 => EXIT,
            3 => ResolverId::Builtin(Builtin::Notify),
            4 => ResolverId::Builtin(Builtin::NotifyAll),
            5..=6 => ResolverId::Program(self.program),
            _ => UNKNOWN,
        };
        let mut given = registration(self.dice.below(3), 1, resolver);
        given.stamp = u64::from(self.dice.below(3));
        given
    }

    // Begins the number that the other side began last, or the next one.
    fn begin_next(&mut self, half: &mut Half) -> Result<(), Fail> {
        let number = if half.begun < self.latest {
            self.latest
        } else {
            self.latest.wrapping_add(1)
        };
        self.begin(half, number)
    }

    // Begins the number, mostly with its seed.
    fn begin(&mut self, half: &mut Half, number: u64) -> Result<(), Fail> {
        let mut seed = seed_of(number);
        if self.dice.is_one_in(16) {
            seed = seed.wrapping_add(1);
        }
        let uptime = u64::from(self.dice.below(3));
        match half.side.begin(self.alloc, number, seed, uptime) {
            Ok(offer) => {
                half.begun = number;
                self.latest = self.latest.max(number);
                self.mail.keep_offer(offer)?;
                self.log.note(Call::Begin, None)
            }
            Err(fault) => self.log.note(Call::Begin, Some(fault)),
        }
    }

    // Hears the offer of this side and number, or tries to finish if it isn't kept.
    fn hear(&mut self, half: &mut Half, sender: SideId, number: u64) -> Result<(), Fail> {
        let Some(offer) = self.mail.offer_of(sender, number) else {
            return self.ask_for_end(half);
        };
        let heard = half.side.hear(self.alloc, offer);
        self.log.note(Call::Hear, heard.err())
    }

    // Takes a ruling of clash `k` of this number, or tries to finish if the clash isn't known.
    fn take(&mut self, half: &mut Half, number: u64, k: u32, told: Told) -> Result<(), Fail> {
        let Some((seed, list)) = self.mail.clashes_of(number)? else {
            return self.ask_for_end(half);
        };
        let Some(clash) = list.get(k) else {
            return self.ask_for_end(half);
        };
        let count = list.len() as u32;
        let next = k.wrapping_add(1);
        let right = word(seed, round_of(number, k), count, k);
        let (number, k, at) = match told {
            Told::Right => (number, k, right),
            Told::OtherWord => (number, k, word(seed, 4, count, k)),
            Told::OtherClash => (number, next, word(seed, 0, count, next)),
            Told::OtherNumber if half.begun == number => (number.wrapping_add(1), k, right),
            Told::OtherNumber => (half.begun, k, right),
        };
        let verdict = Verdict::judged(clash, at);
        let taken = half.side.take(Ruling { number, k, verdict });
        if taken.is_ok() && told != Told::Right {
            self.log.wrong = Some(Wrong::Taken(told));
        }
        self.log.note(Call::Take, taken.err())
    }

    fn withdraw(&mut self, half: &mut Half) -> Result<(), Fail> {
        let name = self.any_name()?;
        let withdrawn = half.side.withdraw(&name);
        self.log.note(Call::Withdraw, withdrawn.err())
    }

    fn close_list(&mut self, half: &mut Half) -> Result<(), Fail> {
        match half.side.close_list(self.alloc) {
            Ok(list) => {
                self.mail.keep_list(list)?;
                self.log.note(Call::CloseList, None)
            }
            Err(fault) => self.log.note(Call::CloseList, Some(fault)),
        }
    }

    // Hears the list of this side and number, or tries to finish if it isn't kept.
    fn hear_list(&mut self, half: &mut Half, sender: SideId, number: u64) -> Result<(), Fail> {
        let Some(list) = self.mail.list_of(sender, number) else {
            return self.ask_for_end(half);
        };
        let heard = half.side.hear_list(list);
        self.log.note(Call::HearList, heard.err())
    }

    fn abandon(&mut self, half: &mut Half) -> Result<(), Fail> {
        let abandoned = half.side.abandon();
        self.log.note(Call::Abandon, abandoned.err())
    }

    // Tries to finish.
    fn ask_for_end(&mut self, half: &mut Half) -> Result<(), Fail> {
        self.finish(half)?;
        Ok(())
    }

    // Finishes, and answers why not if it can't be.
    fn finish(&mut self, half: &mut Half) -> Result<Option<SideFault>, Fail> {
        match half.side.finish(self.alloc) {
            Ok(finished) => {
                self.compare(finished)?;
                self.log.note(Call::Finish, None)?;
                Ok(None)
            }
            Err(fault) => {
                self.log.note(Call::Finish, Some(fault))?;
                Ok(Some(fault))
            }
        }
    }

    // Compares the table with that of the other side, if it finished the number before.
    fn compare(&mut self, finished: Finished) -> Result<(), Fail> {
        let number = finished.number();
        match self.finished.remove(&number) {
            Some(table) => {
                self.compare_with(&table, &finished);
                Ok(())
            }
            None => self.keep(number, finished.into_table()),
        }
    }

    // Compares the table of the side that finished first with what the other finished with.
    fn compare_with(&mut self, table: &Table, finished: &Finished) {
        if table == finished.table() {
            self.log.note_agreed(finished.rulings().len());
        } else {
            self.log.wrong = Some(Wrong::Unequal(finished.number()));
        }
    }

    // Keeps the table of the side that finishes this number first.
    fn keep(&mut self, number: u64, table: Arc<Table>) -> Result<(), Fail> {
        self.finished
            .insert(number, table)
            .map_err(AllocError::from)?;
        Ok(())
    }
}

/// The result of a walk.
#[derive(Clone, Copy)]
struct Outcome {
    /// The first step after which something is wrong, and what is wrong.
    wrong: Option<(u32, Wrong)>,
    agreed: u32,
    judged: usize,
    unseen: Option<(Call, Option<u32>)>,
}

// Takes the whole walk.
fn take_walk(alloc: Global) -> Result<Outcome, Fail> {
    let mut walk = Walk::new(alloc, SEED)?;
    let wrong = walk.first_wrong(STEPS)?;
    let log = &walk.between.log;
    Ok(Outcome {
        wrong,
        agreed: log.agreed,
        judged: log.judged,
        unseen: log.first_unseen(),
    })
}

#[test]
fn sides_that_finish_hold_one_table(rt: HostRuntime) -> Result<(), Fail> {
    let Outcome {
        wrong,
        agreed,
        judged,
        unseen,
    } = take_walk(rt.alloc())?;
    assert!(rt; wrong.is_none(), "{wrong:?} in the walk of seed {SEED}");
    assert!(rt;
        agreed >= 500 && judged >= 500,
        "{agreed} exchanges, {judged} clashes"
    );
    assert!(rt; unseen.is_none(), "{unseen:?}");
    Ok(())
}
