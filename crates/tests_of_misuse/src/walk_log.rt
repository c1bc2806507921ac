//! The answers of the calls of a walk.
use exchange_core::SideFault;
use refusals::Numbered;
use std::alloc::Global;
use std::test::Fail;

/// The calls of a side that add an event.
#[derive(Clone, Copy, Debug, PartialEq, Eq)]
pub(crate) enum Call {
    Register,
    Unregister,
    Begin,
    Hear,
    Take,
    Withdraw,
    CloseList,
    HearList,
    Finish,
    Abandon,
}

const CALLS: [Call; 10] = [
    Call::Register,
    Call::Unregister,
    Call::Begin,
    Call::Hear,
    Call::Take,
    Call::Withdraw,
    Call::CloseList,
    Call::HearList,
    Call::Finish,
    Call::Abandon,
];

impl Call {
    // The refusals that its table has. There is memory enough.
    fn refusals(self) -> &'static [u32] {
        match self {
            Call::Register => &[30, 32, 33, 40, 41, 42],
            Call::Unregister => &[31, 33, 40],
            Call::Begin => &[33, 35, 40],
            Call::Hear => &[34, 36, 37, 40, 42, 45, 46],
            Call::Take => &[34, 38, 40, 45],
            Call::Withdraw => &[31, 34, 40, 47, 48],
            Call::CloseList => &[34, 40, 48],
            Call::HearList => &[34, 40, 45, 46],
            Call::Finish => &[34, 39, 40],
            Call::Abandon => &[34, 40],
        }
    }
}

/// A ruling that a side takes.
#[derive(Clone, Copy, Debug, PartialEq, Eq)]
pub(crate) enum Told {
    /// The ruling that both sides take, at one of the clash's four words.
    Right,
    /// The verdict at another word.
    OtherWord,
    /// The verdict of another clash of the exchange.
    OtherClash,
    /// The ruling under another number than its own.
    OtherNumber,
}

/// A violated expectation.
#[derive(Clone, Copy, Debug)]
pub(crate) enum Wrong {
    /// A call was refused with a number that its table doesn't have.
    Refusal(Call, u32),
    /// A ruling was taken that isn't one of the open exchange.
    Taken(Told),
    /// Both sides finished this number, with unequal tables.
    Unequal(u64),
}

/// The answers seen so far.
#[derive(Drop)]
pub(crate) struct Log {
    // Each call with each answer that it gave, once; none for one that wasn't refused.
    seen: Vec<(Call, Option<u32>)>,
    /// The exchanges that both sides finished with equal tables.
    pub(crate) agreed: u32,
    /// The clashes of those exchanges.
    pub(crate) judged: usize,
    pub(crate) wrong: Option<Wrong>,
}

impl Log {
    pub(crate) fn new(alloc: Global) -> Log {
        Log {
            seen: Vec::new(alloc),
            agreed: 0,
            judged: 0,
            wrong: None,
        }
    }

    /// Notes what a call answered.
    pub(crate) fn note(&mut self, call: Call, fault: Option<SideFault>) -> Result<(), Fail> {
        let refusal = fault.map(|fault| fault.number());
        if let Some(number) = refusal {
            if !call.refusals().contains(&number) {
                self.wrong = Some(Wrong::Refusal(call, number));
            }
        }
        if !self.seen.contains(&(call, refusal)) {
            self.seen.push((call, refusal))?;
        }
        Ok(())
    }

    /// Notes that both sides finished an exchange of `clashes` clashes with one table.
    pub(crate) fn note_agreed(&mut self, clashes: usize) {
        self.agreed = self.agreed.wrapping_add(1);
        self.judged = self.judged.wrapping_add(clashes);
    }

    /// A call with an answer that didn't come, though it could.
    ///
    /// A walk has few names and events, and one store: 32, 37, 40 and 42 don't come.
    pub(crate) fn first_unseen(&self) -> Option<(Call, Option<u32>)> {
        for call in CALLS {
            if !self.seen.contains(&(call, None)) {
                return Some((call, None));
            }
            let unseen = call.refusals().iter().find(|number| {
                !matches!(**number, 32 | 37 | 40 | 42)
                    && !self.seen.contains(&(call, Some(**number)))
            });
            if let Some(number) = unseen {
                return Some((call, Some(*number)));
            }
        }
        None
    }
}
