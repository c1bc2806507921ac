//! Calls of a board.

use crate::callers::Caller;
use crate::comparing::is_same_option;
use crate::fault::Fault;
use crate::rows::clashing;
use crate::sweeping::{Call, Subject, sweep};
use partition_table::ClashList;
use std::alloc::{AllocError, Global};

/// A caller of a board, and what a call answered.
#[derive(Drop)]
struct Boarded<'p> {
    caller: Option<Caller<'p>>,
    /// True if the post was kept.
    is_kept: bool,
    /// Whether a pass was given, and the word that it has seen of the first clash.
    seen: Option<Option<u64>>,
}

impl<'p> Boarded<'p> {
    fn open(&mut self, alloc: Global, list: &'p ClashList) -> Result<(), Fault> {
        self.caller = Some(Caller::new(alloc, list)?);
        Ok(())
    }

    fn pass(&mut self) -> Result<(), Fault> {
        let caller = self.caller.as_ref().ok_or(Fault::Unprepared)?;
        self.seen = Some(caller.word_shown()?);
        Ok(())
    }

    fn post(&mut self) -> Result<(), Fault> {
        let caller = self.caller.take().ok_or(Fault::Unprepared)?;
        let (caller, is_kept, seen) = caller.post();
        self.caller = Some(caller);
        self.is_kept = is_kept.ok_or(AllocError)?;
        self.seen = Some(seen);
        Ok(())
    }
}

impl<'p> Subject for Boarded<'p> {
    fn is_same(&self, other: &Boarded<'p>) -> bool {
        self.is_kept == other.is_kept
            && self.seen == other.seen
            && is_same_option(self.caller.as_ref(), other.caller.as_ref(), |one, other| {
                one.is_same(other)
            })
    }
}

/// A call of a board of these clashes.
#[derive(Clone, Copy)]
struct BoardCall<'p> {
    kind: BoardCallKind,
    list: &'p ClashList,
}

#[derive(Clone, Copy)]
enum BoardCallKind {
    /// A board is opened, and a first pass given.
    Open,
    Pass,
    Post,
}

impl<'p> Call<Boarded<'p>> for BoardCall<'p> {
    fn name(&self) -> &'static str {
        match self.kind {
            BoardCallKind::Open => "open",
            BoardCallKind::Pass => "Board::pass",
            BoardCallKind::Post => "Board::post",
        }
    }

    fn prepare(&self, alloc: Global) -> Result<Boarded<'p>, Fault> {
        let caller = match self.kind {
            BoardCallKind::Open => None,
            BoardCallKind::Pass | BoardCallKind::Post => Some(Caller::new(alloc, self.list)?),
        };
        Ok(Boarded {
            caller,
            is_kept: false,
            seen: None,
        })
    }

    fn make(&self, alloc: Global, boarded: &mut Boarded<'p>) -> Result<(), Fault> {
        match self.kind {
            BoardCallKind::Open => boarded.open(alloc, self.list),
            BoardCallKind::Pass => boarded.pass(),
            BoardCallKind::Post => boarded.post(),
        }
    }
}

/// Sweeps the calls of a board of one clash, and of one of six.
pub(crate) fn sweep_boards(rt: &HostRuntime) -> Result<(), Fault> {
    for names in [1, 6] {
        let list = clashing(rt.alloc(), names)?;
        for kind in [
            BoardCallKind::Open,
            BoardCallKind::Pass,
            BoardCallKind::Post,
        ] {
            sweep(rt, &BoardCall { kind, list: &list })?;
        }
    }
    Ok(())
}
