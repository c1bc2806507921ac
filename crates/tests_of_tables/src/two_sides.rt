//! Two sides, what they sent, and calls on them as rows of data.
use builtin_resolvers::Verdict3;
use clash_record::{Name, ResolverId, SideId, name};
use exchange_core::{Finished, Judged, MissingPart, Side, SideFault};
use fixtures::{Mail, Row as Named, exit_registration, numbered_name, registration};
use partition_table::{Ruling, Verdict};
use refusals::Numbered;
use std::alloc::{AllocError, Global};
use std::test::Fail;
use upload_store::UploadStore;

// The nodes of the owners of each side's names. Their serial number is 1.
const NODE_OF_A: u32 = 1;

const NODE_OF_B: u32 = 2;

/// More offers, and more lists, than the rows send.
const MOST_SENT: usize = 100;

/// A call on a side.
#[derive(Clone, Copy)]
pub(crate) enum Call {
    /// Registers the name for the side's owner with this serial number and this resolver.
    Register(&'static str, u32, ResolverId),
    Unregister(&'static str),
    /// Begins this number with this seed. Side A has been up for 3, side B for 4.
    Begin(u64, u64),
    /// Hears the offer of this side and number.
    Hear(SideId, u64),
    /// Takes, under this number, the ruling of this clash of the offers of number 1 at this word.
    Take(u64, u32, u64),
    Withdraw(&'static str),
    CloseList,
    /// Hears the list of this side and number.
    HearList(SideId, u64),
    Finish,
    Abandon,
    /// Settles at the words of this round.
    Settle,
    Renew,
}

/// The number of a call's refusal, and the part that an exchange lacks; `None` for a call that succeeds.
pub(crate) type Refusal = Option<(u32, Option<MissingPart>)>;

/// A side, a call on it, and whether it is refused.
pub(crate) type Row = (SideId, Call, Refusal);

/// A part of what is done with two sides.
#[derive(Clone, Copy)]
pub(crate) enum Part {
    /// So many names are registered on each side, none of them on both.
    NamesApart(u16),
    /// The rows are carried out in turn.
    Calls(&'static [Row]),
    /// The rows are carried out this many times.
    Repeated(u32, &'static [Row]),
    /// Nothing is done. This is seen.
    Seen(Seen),
}

/// A check of two sides.
#[derive(Clone, Copy)]
pub(crate) enum Seen {
    /// This side counts this many events.
    Events(SideId, usize),
    /// Whether side A shows the name, and whether side B does.
    Shown(&'static str, bool, bool),
    /// This side shows a row, or shows none.
    Rows(SideId, bool),
    /// This side shows the name with the registration of the owner on this node.
    OwnerOn(SideId, &'static str, u32),
    /// Both finished, each with the same table, and with the same tables of sides A and B before.
    Agreed,
    /// How long sides A and B had been up, as the first that finished has it.
    Uptimes(u64, u64),
    /// The word and the answer of this clash, on both sides that finished.
    Ruling(usize, u64, Verdict3),
    /// This side shows these names of these owners, and no others.
    Names(SideId, &'static [Named]),
    /// So many names has the table that the last to finish made. It is taken away.
    LatestTable(usize),
}

/// Where two sides did otherwise first: at this row of this part, where the call was refused so.
#[derive(Clone, Copy, Debug, PartialEq)]
pub(crate) struct Other {
    part: usize,
    row: usize,
    refusal: Refusal,
}

/// Begins with two sides that have these names, each registered by the side's owner, and goes through the parts up to
/// the first where something is otherwise.
pub(crate) fn first_other(
    alloc: Global,
    names: &[&str],
    parts: &[Part],
) -> Result<Option<Other>, Fail> {
    let mut two = TwoSides::new(alloc, names)?;
    two.go_through(parts)
}

/// Two sides, and what stands between them.
#[derive(Drop)]
struct TwoSides {
    a: Side,
    b: Side,
    sent: Sent,
}

/// What both sides sent, and what they finished with, the earliest first.
#[derive(Drop)]
struct Sent {
    alloc: Global,
    store: UploadStore,
    mail: Mail,
    finished: Vec<Finished>,
}

impl TwoSides {
    fn new(alloc: Global, names: &[&str]) -> Result<TwoSides, Fail> {
        let mut two = TwoSides {
            a: Side::new(alloc, SideId::A),
            b: Side::new(alloc, SideId::B),
            sent: Sent::new(alloc),
        };
        for text in names {
            let name = name(text.as_bytes())?;
            two.register(name, name)?;
        }
        Ok(two)
    }

    // Registers one name on each side.
    fn register(&mut self, on_a: Name, on_b: Name) -> Result<(), Fail> {
        self.a
            .register(on_a, exit_registration(NODE_OF_A, 1), &self.sent.store)?;
        self.b
            .register(on_b, exit_registration(NODE_OF_B, 1), &self.sent.store)?;
        Ok(())
    }

    fn register_apart(&mut self, count: u16) -> Result<(), Fail> {
        for number in 0..count {
            self.register(numbered_name(b'x', number)?, numbered_name(b'y', number)?)?;
        }
        Ok(())
    }

    fn side(&self, id: SideId) -> &Side {
        match id {
            SideId::A => &self.a,
            SideId::B => &self.b,
        }
    }

    fn go_through(&mut self, parts: &[Part]) -> Result<Option<Other>, Fail> {
        for (part, what) in parts.iter().enumerate() {
            let other = match what {
                Part::NamesApart(count) => {
                    self.register_apart(*count)?;
                    None
                }
                Part::Calls(rows) => self.carry_out(rows)?,
                Part::Repeated(times, rows) => self.repeat(*times, rows)?,
                Part::Seen(seen) if self.is_seen(*seen)? => None,
                Part::Seen(_) => Some((0, None)),
            };
            if let Some((row, refusal)) = other {
                return Ok(Some(Other { part, row, refusal }));
            }
        }
        Ok(None)
    }

    // The first row that is otherwise, and why it was refused, if it was.
    fn carry_out(&mut self, rows: &[Row]) -> Result<Option<(usize, Refusal)>, Fail> {
        for (place, (id, call, expected)) in rows.iter().enumerate() {
            let fault = match id {
                SideId::A => self.sent.carry_out(&mut self.a, *call)?,
                SideId::B => self.sent.carry_out(&mut self.b, *call)?,
            };
            let refusal = refusal(fault);
            if refusal != *expected {
                return Ok(Some((place, refusal)));
            }
        }
        Ok(None)
    }

    fn repeat(&mut self, times: u32, rows: &[Row]) -> Result<Option<(usize, Refusal)>, Fail> {
        for _ in 0..times {
            let other = self.carry_out(rows)?;
            if other.is_some() {
                return Ok(other);
            }
        }
        Ok(None)
    }

    fn is_seen(&mut self, seen: Seen) -> Result<bool, Fail> {
        Ok(match seen {
            Seen::Events(id, count) => self.side(id).events() == count,
            Seen::Shown(text, on_a, on_b) => self.shows(text)? == (on_a, on_b),
            Seen::Rows(id, any) => self.side(id).rows().next().is_some() == any,
            Seen::OwnerOn(id, text, node) => {
                let name = name(text.as_bytes())?;
                self.side(id).whereis(&name).copied() == Some(exit_registration(node, 1))
            }
            Seen::Agreed => self.agree(),
            Seen::Uptimes(a, b) => self.uptimes_of_first() == Some((a, b)),
            Seen::Ruling(k, word, answer) => {
                let judged = Some(Judged { word, answer });
                self.ruling(0, k) == judged && self.ruling(1, k) == judged
            }
            Seen::Names(id, names) => self.has_names(id, names),
            Seen::LatestTable(count) => self.take_table_len() == Some(count),
        })
    }

    fn shows(&self, text: &str) -> Result<(bool, bool), Fail> {
        let name = name(text.as_bytes())?;
        Ok((
            self.a.whereis(&name).is_some(),
            self.b.whereis(&name).is_some(),
        ))
    }

    fn agree(&self) -> bool {
        let (Some(one), Some(other)) = (self.finished(0), self.finished(1)) else {
            return false;
        };
        one.table() == other.table() && one.a() == other.a() && one.b() == other.b()
    }

    fn uptimes_of_first(&self) -> Option<(u64, u64)> {
        let finished = self.finished(0)?;
        Some((finished.uptime_a(), finished.uptime_b()))
    }

    fn ruling(&self, place: usize, k: usize) -> Option<Judged> {
        self.finished(place)?.rulings().get(k).copied()
    }

    fn has_names(&self, id: SideId, names: &[Named]) -> bool {
        let mut rows = self.side(id).rows();
        for (text, node, serial) in names {
            let Some((name, found)) = rows.next() else {
                return false;
            };
            if name.as_str() != *text || *found != exit_registration(*node, *serial) {
                return false;
            }
        }
        rows.next().is_none()
    }

    fn take_table_len(&mut self) -> Option<usize> {
        Some(self.sent.finished.pop()?.into_table().len())
    }

    fn finished(&self, place: usize) -> Option<&Finished> {
        self.sent.finished.get(place)
    }
}

// Returns the number of the refusal, and the part that is missing.
fn refusal(fault: Option<SideFault>) -> Refusal {
    let fault = fault?;
    let missing = match fault {
        SideFault::Missing(part) => Some(part),
        _ => None,
    };
    Some((fault.number(), missing))
}

impl Sent {
    fn new(alloc: Global) -> Sent {
        Sent {
            alloc,
            store: UploadStore::new(alloc),
            mail: Mail::new(alloc, MOST_SENT),
            finished: Vec::new(alloc),
        }
    }

    // Carries the call out on this side, and keeps what it sends. Answers why it is refused, if it is.
    fn carry_out(&mut self, side: &mut Side, call: Call) -> Result<Option<SideFault>, Fail> {
        match call {
            Call::Register(text, serial, resolver) => self.register(side, text, serial, resolver),
            Call::Unregister(text) => Ok(side.unregister(&name(text.as_bytes())?).err()),
            Call::Begin(number, seed) => self.begin(side, number, seed),
            Call::Hear(sender, number) => {
                let offer = self.mail.offer_of(sender, number).ok_or("no such offer")?;
                Ok(side.hear(self.alloc, offer).err())
            }
            Call::Take(number, k, at) => self.take(side, number, k, at),
            Call::Withdraw(text) => Ok(side.withdraw(&name(text.as_bytes())?).err()),
            Call::CloseList => self.close_list(side),
            Call::HearList(sender, number) => {
                let list = self.mail.list_of(sender, number).ok_or("no such list")?;
                Ok(side.hear_list(list).err())
            }
            Call::Finish => self.finish(side),
            Call::Abandon => Ok(side.abandon().err()),
            Call::Settle => Ok(side.settle().err()),
            Call::Renew => Ok(side.renew().err()),
        }
    }

    fn register(
        &self,
        side: &mut Side,
        text: &str,
        serial: u32,
        resolver: ResolverId,
    ) -> Result<Option<SideFault>, Fail> {
        let node = match side.id() {
            SideId::A => NODE_OF_A,
            SideId::B => NODE_OF_B,
        };
        let given = registration(node, serial, resolver);
        let registered = side.register(name(text.as_bytes())?, given, &self.store);
        Ok(registered.err())
    }

    fn begin(
        &mut self,
        side: &mut Side,
        number: u64,
        seed: u64,
    ) -> Result<Option<SideFault>, Fail> {
        let uptime = match side.id() {
            SideId::A => 3,
            SideId::B => 4,
        };
        match side.begin(self.alloc, number, seed, uptime) {
            Ok(offer) => {
                self.mail.keep_offer(offer)?;
                Ok(None)
            }
            Err(fault) => Ok(Some(fault)),
        }
    }

    fn take(
        &self,
        side: &mut Side,
        number: u64,
        k: u32,
        at: u64,
    ) -> Result<Option<SideFault>, Fail> {
        let (_, all) = self.mail.clashes_of(1)?.ok_or("no two offers")?;
        let Some(clash) = all.get(k) else {
            return Err(Fail::from("no such clash"));
        };
        let verdict = Verdict::judged(clash, at);
        Ok(side.take(Ruling { number, k, verdict }).err())
    }

    fn close_list(&mut self, side: &mut Side) -> Result<Option<SideFault>, Fail> {
        match side.close_list(self.alloc) {
            Ok(list) => {
                self.mail.keep_list(list)?;
                Ok(None)
            }
            Err(fault) => Ok(Some(fault)),
        }
    }

    fn finish(&mut self, side: &mut Side) -> Result<Option<SideFault>, Fail> {
        match side.finish(self.alloc) {
            Ok(finished) => {
                self.finished.push(finished).map_err(AllocError::from)?;
                Ok(None)
            }
            Err(fault) => Ok(Some(fault)),
        }
    }
}
