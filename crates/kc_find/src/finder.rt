//! The whole search.

ghost use Rattle.std.specs.Prelude.{◌≡◌, ◌≤◌, ◌<◌, IfOk, OnOk, Ok, true};
ghost use Rattle.kc_find.specs.Rounds.{AreSettled, room};

use crate::ordered::certificate_of;
use crate::rounds::{Listed, RoundEnd, next_round};
use crate::table::Table;
use crate::visit::{Desk, Inputs};
use kc_cert::{Certificate, Digests};
use kc_image::Image;
use kc_placed::{Vectors, put_start_user};
use kc_plain::NoMemory;
use kc_regions::Config;
use kc_rising::Numbers;
use kc_state::{AbsState, Scratch, UserState};
use std::alloc::Global;

/// Why there is no table.
#[derive(Clone, Copy, PartialEq, Eq, Debug)]
pub enum FindEnd {
    /// It would have more than 1,024 contexts or more than 16,384 nodes.
    TooMany,
    NoMemory,
}

impl From<NoMemory> for FindEnd {
    fn from(_: NoMemory) -> Self {
        FindEnd::NoMemory
    }
}

fn start_user(alloc: Global, cfg: &Config) -> Result<UserState, NoMemory> {
    let mut user = UserState::new(alloc)?;
    put_start_user(cfg, &mut user);
    Ok(user)
}

fn desk(alloc: Global) -> Result<Desk, NoMemory> {
    Ok(Desk {
        state: AbsState::new(alloc)?,
        out: Scratch::new(alloc)?,
        user: UserState::new(alloc)?,
    })
}

// Rounds until a context or a node comes, or nothing changes: whether one came.
fn rise(
    inputs: &Inputs,
    table: &mut Table,
    listed: &mut Listed,
    desk: &mut Desk,
) -> Result<bool, FindEnd>
    requires settled { AreSettled table.old }
    ensures settled { OnOk result (AreSettled table.new) }
    ensures grew { result ≡ Ok true → room table.new < room table.old }
{
    loop {
        match next_round(inputs, table, listed, desk)? {
            RoundEnd::Grew => return Ok(true),
            RoundEnd::Rose => {}
            RoundEnd::Same => return Ok(false),
        }
    }
}

fn rise_all(
    inputs: &Inputs,
    table: &mut Table,
    listed: &mut Listed,
    desk: &mut Desk,
) -> Result<(), FindEnd>
    requires settled { AreSettled table.old }
{
    while rise(inputs, table, listed, desk)? {}
    Ok(())
}

/// The table that the rounds lead to: each joins it with all that it demands, from the start until nothing changes.
/// The table needn't be certified, since a node whose conditions fail demands nothing; `check` tells.
pub fn find(
    alloc: Global,
    image: &Image,
    cfg: &Config,
    digests: &Digests,
) -> Result<Certificate, FindEnd>
    ensures digests { IfOk result (λ c. c.digests ≡ digests.now) }
{
    let inputs = Inputs {
        image,
        cfg,
        vectors: Vectors::in_order(cfg),
    };
    let mut table = Table::new(alloc, start_user(alloc, cfg)?);
    let mut listed = Listed {
        user: true,
        contexts_from: 0,
        nodes: Numbers::new(alloc),
        summaries: Numbers::new(alloc),
    };
    let mut desk = desk(alloc)?;
    rise_all(&inputs, &mut table, &mut listed, &mut desk)?;
    Ok(certificate_of(alloc, cfg, digests, table)?)
}
