//! The structs that C reads and writes.
ghost use Rattle.std.specs.Prelude.{◌≡◌};
ghost use Rattle.c_calls.specs.Codes as code;
ghost use Rattle.c_calls.specs.Sides.{side_id};

use crate::answer::{INVALID_NAME, UNKNOWN_RESOLVER, UNKNOWN_SIDE};
use builtin_resolvers::{Notice, Verdict3};
use clash_record::{
    Builtin, Facts, NAME_LEN, Name, Owner, ProgramId, Registration, ResolverId, SideId, name,
};

/// The owner of a name.
#[repr(C)]
#[derive(Clone, Copy, Debug)]
pub struct HealOwner {
    pub node: u32,
    pub serial: u32,
}

/// A registration. `resolver` is 0 for exit, 1 for notify, 2 for notify-all, and 3 for the program with the id `program`.
/// `reserved` isn't read, and is written as 0.
#[repr(C)]
#[derive(Clone, Copy, Debug)]
pub struct HealRegistration {
    pub owner: HealOwner,
    pub stamp: u64,
    pub weight: u64,
    pub extra: [u8; 16],
    pub resolver: u32,
    pub program: [u8; 32],
    pub reserved: u32,
}

/// A name: `len` bytes, then zeros. `reserved` is written as 0.
#[repr(C)]
#[derive(Clone, Copy, Debug)]
pub struct HealName {
    pub len: u32,
    pub bytes: [u8; 32],
    pub reserved: u32,
}

/// A row of a table. `reserved` is written as 0.
#[repr(C)]
#[derive(Clone, Copy, Debug)]
pub struct HealRow {
    pub name: HealName,
    pub registration: HealRegistration,
    pub reserved: u64,
}

/// The size of a half's table, and the half's uptime. `reserved` isn't read.
#[repr(C)]
#[derive(Clone, Copy, Debug)]
pub struct HealFacts {
    pub size: u64,
    pub uptime: u64,
    pub reserved: u64,
}

/// The result of a program's run. `reserved` is written as 0.
#[repr(C)]
#[derive(Clone, Copy, Debug)]
pub struct HealEnded {
    pub r0: u64,
    pub steps: u32,
    pub reserved: u32,
}

/// A clash with its ruling. `verdict` and `keeps` are 0 for neither, 1 for the first, and 2 for the second; `keeps` is 0 also if
/// the winner was withdrawn. `first_half` is 0 if half A registered `first`, and 1 if half B did. `reserved` is written as 0.
#[repr(C)]
#[derive(Clone, Copy, Debug)]
pub struct HealClash {
    pub name: HealName,
    pub first: HealRegistration,
    pub second: HealRegistration,
    pub word: u64,
    pub verdict: u32,
    pub keeps: u32,
    pub first_half: u32,
    pub notices: u32,
    pub reserved: u64,
}

/// A notice. `kind` is 0 for exit, 1 for conflict, and 2 for conflict with another owner. `reserved` is written as 0.
#[repr(C)]
#[derive(Clone, Copy, Debug)]
pub struct HealNotice {
    pub kind: u32,
    pub to: HealOwner,
    pub other: HealOwner,
    pub reserved: u32,
}

const NOBODY: HealOwner = HealOwner { node: 0, serial: 0 };

/// Reads a name, or returns 44.
pub fn name_of(bytes: &[u8]) -> Result<Name, u32>
    ensures { result ≡ code.given_name bytes.now }
{
    match name(bytes) {
        Ok(name) => Ok(name),
        Err(_) => Err(INVALID_NAME),
    }
}

/// Reads a registration, or returns 76.
pub fn registration_of(registration: &HealRegistration) -> Result<Registration, u32>
    ensures { result ≡ code.given_registration registration.now }
{
    let resolver = resolver_of(registration.resolver, registration.program)?;
    Ok(Registration {
        owner: Owner {
            node: registration.owner.node,
            serial: registration.owner.serial,
        },
        stamp: registration.stamp,
        weight: registration.weight,
        extra: registration.extra,
        resolver,
    })
}

// Reads a resolver, or returns 76.
fn resolver_of(kind: u32, program: [u8; 32]) -> Result<ResolverId, u32>
    ensures { result ≡ code.given_resolver kind program }
{
    match kind {
        0 => Ok(ResolverId::Builtin(Builtin::Exit)),
        1 => Ok(ResolverId::Builtin(Builtin::Notify)),
        2 => Ok(ResolverId::Builtin(Builtin::NotifyAll)),
        3 => Ok(ResolverId::Program(ProgramId(program))),
        _ => Err(UNKNOWN_RESOLVER),
    }
}

/// Reads the facts of a half.
pub fn facts_of(facts: &HealFacts) -> Facts
    ensures { result ≡ code.given_facts facts.now }
{
    Facts {
        size: facts.size,
        uptime: facts.uptime,
    }
}

/// Writes a name.
pub fn name_code(name: &Name) -> HealName
    ensures { result ≡ code.name_code name.now }
{
    let text = name.bytes();
    let mut bytes = [0; NAME_LEN];
    bytes[..text.len()].copy_from_slice(text);
    HealName {
        len: text.len() as u32,
        bytes,
        reserved: 0,
    }
}

/// Writes a registration.
pub fn registration_code(registration: &Registration) -> HealRegistration
    ensures { result ≡ code.registration_code registration.now }
{
    HealRegistration {
        owner: owner_code(registration.owner),
        stamp: registration.stamp,
        weight: registration.weight,
        extra: registration.extra,
        resolver: resolver_kind(registration.resolver),
        program: resolver_program(registration.resolver),
        reserved: 0,
    }
}

/// Writes a row.
pub fn row_code(name: &Name, registration: &Registration) -> HealRow
    ensures { result ≡ code.row_code (name.now, registration.now) }
{
    HealRow {
        name: name_code(name),
        registration: registration_code(registration),
        reserved: 0,
    }
}

// Writes an owner.
fn owner_code(owner: Owner) -> HealOwner
    ensures { result ≡ code.owner_code owner }
{
    HealOwner {
        node: owner.node,
        serial: owner.serial,
    }
}

// Returns the kind of a resolver.
fn resolver_kind(resolver: ResolverId) -> u32
    ensures { result ≡ code.resolver_kind resolver }
{
    match resolver {
        ResolverId::Builtin(Builtin::Exit) => 0,
        ResolverId::Builtin(Builtin::Notify) => 1,
        ResolverId::Builtin(Builtin::NotifyAll) => 2,
        ResolverId::Program(_) => 3,
    }
}

// Returns the program's id, or zeros.
fn resolver_program(resolver: ResolverId) -> [u8; 32]
    ensures { result ≡ code.resolver_program resolver }
{
    match resolver {
        ResolverId::Builtin(_) => [0; 32],
        ResolverId::Program(id) => id.0,
    }
}

/// Writes a verdict.
pub fn verdict_code(verdict: Verdict3) -> u32
    ensures { result ≡ code.verdict_code verdict }
{
    match verdict {
        Verdict3::Neither => 0,
        Verdict3::First => 1,
        Verdict3::Second => 2,
    }
}

/// Reads a half, or returns 74.
pub fn side_id(id: u32) -> Result<SideId, u32>
    ensures { result ≡ side_id id }
{
    match id {
        0 => Ok(SideId::A),
        1 => Ok(SideId::B),
        _ => Err(UNKNOWN_SIDE),
    }
}

/// Writes a half.
pub fn side_code(id: SideId) -> u32
    ensures { result ≡ code.side_code id }
{
    match id {
        SideId::A => 0,
        SideId::B => 1,
    }
}

/// Writes a notice.
pub fn notice_code(notice: &Notice) -> HealNotice
    ensures { result ≡ code.notice_code notice.now }
{
    match *notice {
        Notice::Exit(owner) => HealNotice {
            kind: 0,
            to: owner_code(owner),
            other: NOBODY,
            reserved: 0,
        },
        Notice::Conflict(_, owner) => HealNotice {
            kind: 1,
            to: owner_code(owner),
            other: NOBODY,
            reserved: 0,
        },
        Notice::ConflictWith(_, owner, other) => HealNotice {
            kind: 2,
            to: owner_code(owner),
            other: owner_code(other),
            reserved: 0,
        },
    }
}
