//! Lives, positions and states of replicas as C reads and writes them.
ghost use Rattle.std.specs.Prelude.{◌≡◌, is_some};
ghost use Rattle.std.specs.Option.{unwrap_or};
ghost use Rattle.c_calls.specs.Queries as queries;
ghost use Rattle.c_replicas.specs.Positions as code;

use replica::{Life, Position, Replica, View};

/// A life of a node. `reserved` isn't read, and is written as 0.
#[repr(C)]
#[derive(Clone, Copy, Debug)]
pub struct HealLife {
    pub incarnation: u64,
    pub node: u32,
    pub reserved: u32,
}

/// A position: the primary of its view, the number of the view, and the operation number. `reserved` isn't read, and is written as 0.
#[repr(C)]
#[derive(Clone, Copy, Debug)]
pub struct HealPosition {
    pub primary: HealLife,
    pub view: u64,
    pub op: u64,
    pub reserved: u64,
}

/// What a replica knows. Flags are 0 or 1. `latest` is the greatest number of an exchange that the half began, or 0.
/// `reserved` is written as 0.
#[repr(C)]
#[derive(Clone, Copy, Debug)]
pub struct HealReplicaState {
    pub at: HealPosition,
    pub names: u64,
    pub limit: u64,
    pub latest: u64,
    pub has_begun: u32,
    pub is_primary: u32,
    pub reserved: u64,
}

/// Reads a life.
pub fn life_of(life: &HealLife) -> Life
    ensures { result ≡ code.life_of life.now }
{
    Life {
        node: life.node,
        incarnation: life.incarnation,
    }
}

// Writes a life.
fn life_code(life: Life) -> HealLife
    ensures { result ≡ code.life_code life }
{
    HealLife {
        incarnation: life.incarnation,
        node: life.node,
        reserved: 0,
    }
}

/// Reads a position.
pub fn position_of(position: &HealPosition) -> Position
    ensures { result ≡ code.position_of position.now }
{
    Position {
        view: View {
            primary: life_of(&position.primary),
            number: position.view,
        },
        op: position.op,
    }
}

// Writes a position.
fn position_code(position: Position) -> HealPosition
    ensures { result ≡ code.position_code position }
{
    HealPosition {
        primary: life_code(position.view.primary),
        view: position.view.number,
        op: position.op,
        reserved: 0,
    }
}

/// Returns what a replica knows.
pub fn state(replica: &Replica) -> HealReplicaState
    ensures { result ≡ code.state_code replica.now }
{
    let half = replica.half();
    let latest = half.latest();
    HealReplicaState {
        at: position_code(replica.position()),
        names: half.table().len() as u64,
        limit: half.limit().names() as u64,
        latest: latest.unwrap_or(0),
        has_begun: flag(latest.is_some()),
        is_primary: flag(replica.is_primary()),
        reserved: 0,
    }
}

// Writes a flag.
fn flag(is: bool) -> u32
    ensures { result ≡ queries.flag is }
{
    if is { 1 } else { 0 }
}
