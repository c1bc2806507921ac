//! Heals a split whose halves registered names independently, and prints the outcome.
#![tactic(auto)]

ghost use Rattle.std.specs.Prelude.{◌≡◌, OnOk};
ghost use Rattle.heal.specs.Clusters.{cluster_of};
ghost use Rattle.heal.specs.Sides.{shown_table};

use heal::{
    Builtin, Clash, Cluster, Healing, Numbered, NumberedRefusal, OpenGate, Owner, Plan,
    Registration, ResolverId, SideId, UploadStore, Uptimes, Verdict3, Withdrawal, Workers, name,
    notices, refusal_of, words_of,
};
use std::alloc::Global;
use std::io;
use std::process::ExitCode;
use std::sync::Wait;
use std::thread::Threads;

// A resolver: the registration with the later stamp keeps the name, or the first if the stamps are equal.
#[rattlefmt::skip]
const LATER_STAMP: [u8; 48] = [
    0x79, 0x12, 0x38, 0, 0, 0, 0, 0, // ldxdw r2, [r1+56], the first stamp
    0x79, 0x13, 0x60, 0, 0, 0, 0, 0, // ldxdw r3, [r1+96], the second stamp
    0xb7, 0x00, 0x00, 0, 1, 0, 0, 0, // mov64 r0, 1
    0x3d, 0x32, 0x01, 0, 0, 0, 0, 0, // jge r2, r3, +1
    0xb7, 0x00, 0x00, 0, 2, 0, 0, 0, // mov64 r0, 2
    0x95, 0x00, 0x00, 0, 0, 0, 0, 0, // exit
];

// A refusal of a call. Each fault of heal has a number, so `?` converts all of them.
#[derive(Clone, Copy, Debug)]
struct Refused(NumberedRefusal);

impl<F: Numbered + Drop> From<F> for Refused {
    fn from(fault: F) -> Refused {
        Refused(refusal_of(&fault))
    }
}

fn main(rt: HostRuntime) -> io::Result<ExitCode> {
    let mut cluster = Cluster::new(rt.alloc());
    match heal_split(&rt, rt.alloc(), &mut cluster) {
        Ok(healing) => {
            print_healing(&rt, &healing)?;
            print_names(&rt, &cluster)?;
            if renew(&mut cluster).is_ok() {
                print_events(&rt, &cluster)?;
            }
            Ok(ExitCode::SUCCESS)
        }
        Err(Refused(refusal)) => {
            eprintln!(&rt; "{refusal}: {}", words_of(refusal.number))?;
            Ok(ExitCode::FAILURE)
        }
    }
}

// Registers names on both halves and heals their split. Meanwhile the owner of `mail` dies.
fn heal_split<R: Threads + Wait + Sync>(
    rt: &R,
    alloc: Global,
    cluster: &mut Cluster,
) -> Result<Healing, Refused>
    // Both halves show one table.
    ensures { OnOk result (shown_table (cluster_of cluster.new).a.side ≡ shown_table (cluster_of cluster.new).b.side) }
{
    register_names(alloc, cluster)?;
    let gone = [Withdrawal {
        side: SideId::A,
        name: name(b"mail")?,
    }];
    let plan = Plan {
        number: 1,
        seed: 7,
        uptimes: Uptimes { a: 3600, b: 60 },
        gone: &gone,
    };
    Ok(cluster.heal(rt, alloc, &plan, Workers::default(), &OpenGate)?)
}

// Registers three names on each half. `cache` and `db` clash.
fn register_names(alloc: Global, cluster: &mut Cluster) -> Result<(), Refused> {
    let mut store = UploadStore::new(alloc);
    let later = ResolverId::Program(store.upload(alloc, &LATER_STAMP)?);
    let exit = ResolverId::Builtin(Builtin::Exit);
    for (side, text, node, serial, stamp, resolver) in [
        (SideId::A, "cache", 1, 11, 100, exit),
        (SideId::A, "db", 1, 12, 100, later),
        (SideId::A, "mail", 1, 13, 100, exit),
        (SideId::B, "cache", 2, 21, 200, exit),
        (SideId::B, "db", 2, 22, 200, later),
        (SideId::B, "web", 2, 23, 200, exit),
    ] {
        let registration = Registration {
            owner: Owner { node, serial },
            stamp,
            weight: 0,
            extra: [0; 16],
            resolver,
        };
        cluster.register(side, name(text.as_bytes())?, registration, &store)?;
    }
    Ok(())
}

fn print_healing(rt: &impl Print, healing: &Healing) -> io::Result<()> {
    for (clash, judged) in healing.clashes().iter().zip(healing.rulings()) {
        print_clash(rt, clash, judged.answer)?;
    }
    for withdrawal in healing.withdrawn() {
        println!(rt; "{}: half {} withdrew it", withdrawal.name, withdrawal.side)?;
    }
    println!(rt; "Both halves have {} names:", healing.names())
}

// Prints who keeps the name, and the notices that its owners get.
fn print_clash(rt: &impl Print, clash: &Clash, verdict: Verdict3) -> io::Result<()> {
    let (name, first, second) = (clash.name(), clash.first().owner, clash.second().owner);
    match verdict {
        Verdict3::First => println!(rt; "{name}: {first} keeps it, {second} loses it")?,
        Verdict3::Second => println!(rt; "{name}: {second} keeps it, {first} loses it")?,
        Verdict3::Neither => println!(rt; "{name}: both {first} and {second} lose it")?,
    }
    if let ResolverId::Builtin(builtin) = clash.resolver() {
        for notice in notices(builtin, name, first, second, verdict).as_slice() {
            println!(rt; "  notice: {notice}")?;
        }
    }
    Ok(())
}

// Renews the journals of both halves, so that they have room for further exchanges.
fn renew(cluster: &mut Cluster) -> Result<(), Refused> {
    cluster.renew(SideId::A)?;
    cluster.renew(SideId::B)?;
    Ok(())
}

// Prints how many events the journal of each half has.
fn print_events(rt: &impl Print, cluster: &Cluster) -> io::Result<()> {
    let on_a = cluster.side(SideId::A).events();
    let on_b = cluster.side(SideId::B).events();
    println!(rt; "Renewed, the journals have {on_a} and {on_b} events")
}

// Prints each name with its owner on half A and on half B.
fn print_names(rt: &impl Print, cluster: &Cluster) -> io::Result<()> {
    for (name, on_a) in cluster.side(SideId::A).rows() {
        if let Some(on_b) = cluster.side(SideId::B).whereis(name) {
            println!(rt; "  {name}: {} on a, {} on b", on_a.owner, on_b.owner)?;
        }
    }
    Ok(())
}
