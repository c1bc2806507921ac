//! Registrations that compare no code: a table with an agreement returns and keeps what one without an agreement does.
ghost use Rattle.std.specs.Prelude.{◌≡◌};

use crate::assertions::assert_gives;
use clash_record::{ResolverId, SideId, name};
use exchange_core::Side;
use fixtures::{EXIT, FIRST, UNKNOWN, registration, stored};
use partition_table::{Agreement, NameLimit, Table, TableFault};
use refusals::Numbered;
use std::alloc::Global;
use std::test::Fail;
use upload_store::UploadStore;

// A table without an agreement, and one with.
#[derive(Drop)]
struct Two {
    plain: Table,
    agreed: Table,
    store: UploadStore,
    agreement: Agreement,
    pub ghost same: { agreement ≡ record { table = agreed; store = store } },
}

// The answers of both tables, 0 or the number of the refusal, and whether the agreement knew the program before.
type Seen = (u32, u32, bool);

fn number<T>(answer: &Result<T, TableFault>) -> u32 {
    match answer {
        Ok(_) => 0,
        Err(fault) => fault.number(),
    }
}

impl Two {
    fn new(alloc: Global, store: UploadStore) -> Two {
        let agreed = Table::new(alloc);
        let agreement = Agreement::new(alloc, &agreed, &store);
        Two {
            plain: Table::new(alloc),
            agreed,
            store,
            agreement,
        }
    }

    fn register(&mut self, text: &str, resolver: ResolverId) -> Result<Seen, Fail> {
        let name = name(text.as_bytes())?;
        let row = registration(1, 1, resolver);
        let is_known = self.agreement.knows(&row);
        let limit = NameLimit::default();
        let plain = self.plain.register(name, row, &self.store);
        let agreed = self
            .agreed
            .register_known(is_known, limit, name, row, &self.store);
        if agreed.is_ok() {
            self.agreement
                .follow_registration(&name, &row, &self.agreed);
        }
        Ok((number(&plain), number(&agreed), is_known))
    }

    fn unregister(&mut self, text: &str) -> Result<(u32, u32), Fail> {
        let name = name(text.as_bytes())?;
        let plain = self.plain.unregister(&name);
        let agreed = self.agreed.unregister(&name);
        self.agreement.follow_removal(&name, &self.agreed);
        Ok((number(&plain), number(&agreed)))
    }

    fn restart(&mut self) {
        self.agreement.restart(&self.agreed, &self.store);
    }
}

// What two tables answer in turn: to registrations, to removals of one name, and to the name once more; to another once
// the agreement begins anew; whether they are equal then, and how many names they have.
type Turns = ([Seen; 5], [(u32, u32); 2], [Seen; 2], (bool, usize));

fn take_turns(two: &mut Two, program: ResolverId) -> Result<Turns, Fail> {
    let seen = [
        two.register("a", program)?,
        two.register("b", program)?,
        two.register("a", program)?,
        two.register("c", EXIT)?,
        two.register("d", UNKNOWN)?,
    ];
    let removed = [two.unregister("a")?, two.unregister("a")?];
    let again = two.register("a", program)?;
    two.restart();
    let anew = two.register("e", program)?;
    let end = (two.plain == two.agreed, two.agreed.len());
    Ok((seen, removed, [again, anew], end))
}

fn turns(alloc: Global) -> Result<Turns, Fail> {
    let (store, id) = stored(alloc, &FIRST)?;
    take_turns(&mut Two::new(alloc, store), ResolverId::Program(id))
}

// A program's names come and go, between refusals; in the end the agreement begins anew.
#[test]
fn registers_as_without_an_agreement(rt: HostRuntime) {
    let seen = [
        (0, 0, false),
        (0, 0, true),
        (30, 30, true),
        (0, 0, false),
        (41, 41, false),
    ];
    let removed = [(0, 0), (31, 31)];
    let again = [(0, 0, true), (0, 0, false)];
    assert_gives(&rt, turns(rt.alloc()), (seen, removed, again, (true, 4)));
}

// Whether the agreement knows a program before a side registers it, and afterwards.
fn known(alloc: Global) -> Result<(bool, bool), Fail> {
    let (store, id) = stored(alloc, &FIRST)?;
    let row = registration(1, 1, ResolverId::Program(id));
    let mut side = Side::new(alloc, SideId::A);
    let mut agreement = Agreement::new(alloc, side.table(), &store);
    let before = agreement.knows(&row);
    side.register_agreed(name(b"a")?, row, &store, &mut agreement)?;
    Ok((before, agreement.knows(&row)))
}

#[test]
fn a_side_notes_the_program(rt: HostRuntime) {
    assert_gives(&rt, known(rt.alloc()), (false, true));
}
