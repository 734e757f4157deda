//! Plays rounds of a log of three nodes, so that the cost of an event can be timed as past messages grow in number.
//!
//! Above: nothing. Below: `raft_laws`.
//! Promise: none. What it plays is a run of the log, since `RaftWorld` plays it.
#![tactic(auto)]

use crate::change::Set;
use raft_laws::{RaftEvent, RaftPushRefused, RaftWorld};
use region_map::{NodeId, NodeSet};
use std::alloc::Global;
use std::process::ExitCode;
use std::{env, io};

pub mod change;

/// How many rounds are played where no number is given.
const ROUNDS: u64 = 100;

/// An event at one of the nodes.
fn happens(
    alloc: Global,
    world: &mut RaftWorld<Set>,
    node: u8,
    event: RaftEvent<Set>,
) -> Result<(), RaftPushRefused> {
    if node >= world.nodes() {
        return Ok(());
    }
    world.push(alloc, NodeId(node), event)
}

/// A tick of node 0, whose messages have this number and the next one, then what they bring and the answers.
fn round(alloc: Global, world: &mut RaftWorld<Set>, first: u64) -> Result<(), RaftPushRefused> {
    let tick = RaftEvent::Tick {
        unseen: NodeSet::empty(),
    };
    happens(alloc, world, 0, tick)?;
    for (node, later) in [(1, 0), (2, 1), (0, 2), (0, 3)] {
        let number = first.saturating_add(later);
        happens(alloc, world, node, RaftEvent::Deliver(number))?;
    }
    Ok(())
}

/// Elects node 0, which puts some changes, and plays rounds: how many entries node 0 then acts on.
fn play(alloc: Global, rounds: u64) -> Result<u64, RaftPushRefused> {
    let mut world = RaftWorld::begin(alloc, 3)?;
    let tick = RaftEvent::Tick {
        unseen: NodeSet::empty(),
    };
    happens(alloc, &mut world, 0, tick)?;
    happens(alloc, &mut world, 1, RaftEvent::Deliver(1))?;
    happens(alloc, &mut world, 0, RaftEvent::Deliver(3))?;
    for value in 0..7 {
        happens(alloc, &mut world, 0, RaftEvent::Propose(Set(value)))?;
    }
    let mut first: u64 = 6;
    for _ in 0..rounds {
        round(alloc, &mut world, first)?;
        first = first.saturating_add(4);
    }
    Ok(world.committed(NodeId(0)).len() as u64)
}

/// The first word after the program's own name, as a number.
fn rounds(rt: &HostRuntime) -> io::Result<u64> {
    for word in env::args(rt)?.skip(1) {
        return Ok(word.parse().unwrap_or(ROUNDS));
    }
    Ok(ROUNDS)
}

fn main(rt: HostRuntime) -> io::Result<ExitCode> {
    let rounds = rounds(&rt)?;
    match play(rt.alloc(), rounds) {
        Err(_) => Ok(ExitCode::from(7)),
        Ok(committed) => {
            println!(rt; "rounds {rounds} committed {committed}")?;
            Ok(ExitCode::from(0))
        }
    }
}
