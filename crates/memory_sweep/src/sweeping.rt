//! Calls made while memory is refused, and whether they are right.
//!
//! A library that stands before `malloc` heeds the lines that are printed here: from `refuse N` on it refuses the Nth
//! request for memory, from `refuse all` on each, and from `ample` on none. Without it they are just lines.

use crate::fault::Fault;
use std::alloc::Global;

/// More requests than any of the calls makes.
const MOST_REQUESTS: u32 = 200;

/// The windows in a row in which a call must answer before its sweep ends: more than the requests that a call makes which
/// answers although one is refused.
const ANSWERED_WINDOWS: u32 = 8;

/// What a call is made on, with the answers that it gave.
pub(crate) trait Subject: Drop {
    /// Checks whether callers see the same of both.
    fn is_same(&self, other: &Self) -> bool;

    /// Goes on with ample memory, so that what the call left out of sight is seen. Most leave nothing out of sight.
    fn go_on(&mut self, _alloc: Global) -> Result<(), Fault> {
        Ok(())
    }
}

/// A call on such a subject.
pub(crate) trait Call<S> {
    /// The call's name, as it is printed.
    fn name(&self) -> &'static str;

    /// Returns the subject of the call.
    fn prepare(&self, alloc: Global) -> Result<S, Fault>;

    /// Makes the call, and keeps its answer in the subject.
    fn make(&self, alloc: Global, subject: &mut S) -> Result<(), Fault>;
}

/// The outcome of a call whose Nth allocation was refused.
#[derive(Clone, Copy)]
enum Outcome {
    /// It answered in full, and left what it always leaves.
    Answered,
    /// It ran out of memory, changed nothing, and succeeded when it was made again.
    Refused,
    /// The call is wrong, for this reason.
    Wrong(&'static str),
}

/// Makes the call with each of its requests for memory refused in turn, and prints whether it is right.
pub(crate) fn sweep<S: Subject, C: Call<S>>(rt: &HostRuntime, call: &C) -> Result<(), Fault> {
    println!(rt; "call {}", call.name())?;
    let end = refuse_each(rt, call)?;
    println!(rt; "{end}")?;
    Ok(())
}

// Makes the call with each request refused in turn, prints each outcome, and returns the line that ends the sweep.
fn refuse_each<S: Subject, C: Call<S>>(rt: &HostRuntime, call: &C) -> Result<&'static str, Fault> {
    let mut answered: u32 = 0;
    for request in 1..MOST_REQUESTS {
        let (outcome, now) = match refuse_one(rt, request, call)? {
            Outcome::Refused => ("refused", 0),
            Outcome::Answered => ("answered", answered.wrapping_add(1)),
            Outcome::Wrong(line) => return Ok(line),
        };
        println!(rt; "{outcome}")?;
        answered = now;
        if answered == ANSWERED_WINDOWS {
            return Ok("right");
        }
    }
    Ok("wrong: it makes no end of requests")
}

// Makes the call with this request refused, and looks at what it answered and left.
fn refuse_one<S: Subject, C: Call<S>>(
    rt: &HostRuntime,
    request: u32,
    call: &C,
) -> Result<Outcome, Fault> {
    let alloc = rt.alloc();
    let mut subject = call.prepare(alloc)?;
    match make_refused(rt, request, call, &mut subject)? {
        Ok(()) => Ok(if is_as_unrefused(alloc, &mut subject, call)? {
            Outcome::Answered
        } else {
            Outcome::Wrong("wrong: it left something else than it always leaves")
        }),
        Err(fault) if fault.is_out_of_memory() => make_again(alloc, &mut subject, call),
        Err(_) => Ok(Outcome::Wrong("wrong: it was refused for something else than memory")),
    }
}

// Makes the call with this request refused.
fn make_refused<S: Subject, C: Call<S>>(
    rt: &HostRuntime,
    request: u32,
    call: &C,
    subject: &mut S,
) -> Result<Result<(), Fault>, Fault> {
    println!(rt; "refuse {request}")?;
    let answer = call.make(rt.alloc(), subject);
    println!(rt; "ample")?;
    Ok(answer)
}

// Makes a call again that was refused.
fn make_again<S: Subject, C: Call<S>>(
    alloc: Global,
    subject: &mut S,
    call: &C,
) -> Result<Outcome, Fault> {
    if !subject.is_same(&call.prepare(alloc)?) {
        return Ok(Outcome::Wrong("wrong: the refused call changed something"));
    }
    if call.make(alloc, subject).is_err() {
        return Ok(Outcome::Wrong("wrong: it was refused again with ample memory"));
    }
    Ok(if is_as_unrefused(alloc, subject, call)? {
        Outcome::Refused
    } else {
        Outcome::Wrong("wrong: made again it left something else")
    })
}

// Whether the call left what it leaves with ample memory, also once both go on.
fn is_as_unrefused<S: Subject, C: Call<S>>(
    alloc: Global,
    subject: &mut S,
    call: &C,
) -> Result<bool, Fault> {
    let mut wanted = call.prepare(alloc)?;
    call.make(alloc, &mut wanted)?;
    if !subject.is_same(&wanted) {
        return Ok(false);
    }
    subject.go_on(alloc)?;
    wanted.go_on(alloc)?;
    Ok(subject.is_same(&wanted))
}

/// Calls that are made while each request for memory is refused, and whether all could be printed so far.
#[derive(Drop)]
pub(crate) struct Starved<'r> {
    rt: &'r HostRuntime,
    printed: Result<(), Fault>,
}

impl<'r> Starved<'r> {
    pub(crate) fn new(rt: &'r HostRuntime) -> Starved<'r> {
        Starved {
            rt,
            printed: Ok(()),
        }
    }

    /// Of this a call's subjects are made, before memory is refused.
    pub(crate) fn alloc(&self) -> Global {
        self.rt.alloc()
    }

    /// Refuses each request for memory from now on, for a call of this name.
    pub(crate) fn refuse(&mut self, name: &str) {
        if self.printed.is_ok() {
            self.printed = print_refusal(self.rt, name);
        }
    }

    /// Refuses none any more, and prints whether the call's answer is the wanted one.
    pub(crate) fn gave<A: PartialEq + Drop>(&mut self, answer: A, wanted: A) {
        if self.printed.is_ok() {
            self.printed = print_answer(self.rt, answer, wanted);
        }
    }

    /// Why something couldn't be printed, if so.
    pub(crate) fn end(self) -> Result<(), Fault> {
        self.printed
    }
}

fn print_refusal(rt: &HostRuntime, name: &str) -> Result<(), Fault> {
    println!(rt; "call {name}\nrefuse all")?;
    Ok(())
}

// Writes `ample` by itself: the library reports its counts right after the write that ends the window.
fn print_answer<A: PartialEq + Drop>(rt: &HostRuntime, answer: A, wanted: A) -> Result<(), Fault> {
    println!(rt; "ample")?;
    let end = if answer == wanted {
        "right"
    } else {
        "wrong: it answered something else"
    };
    println!(rt; "answered\n{end}")?;
    Ok(())
}
