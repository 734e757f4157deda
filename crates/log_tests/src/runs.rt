//! Worked runs of all nodes of a log, with crashes and late messages.
ghost use Rattle.std.specs.Prelude.{◌≤◌};

use crate::change::Set;
use memory::OutOfMemory;
use raft_laws::{RaftEvent, RaftPushRefused, RaftWorld};
use region_map::{NodeId, NodeSet};
use std::alloc::Global;
use std::test::Fail;

/// An event of a table.
#[derive(Clone, Copy)]
enum Step {
    Tick,
    Propose,
    Deliver(u64),
    Crash,
    Restart,
}

fn event(step: Step) -> RaftEvent<Set> {
    match step {
        Step::Tick => RaftEvent::Tick {
            unseen: NodeSet::empty().with(NodeId(0)),
        },
        Step::Propose => RaftEvent::Propose(Set(7)),
        Step::Deliver(number) => RaftEvent::Deliver(number),
        Step::Crash => RaftEvent::Crash,
        Step::Restart => RaftEvent::Restart,
    }
}

/// Whether the event at the node is answered so, and leaves it with so many committed entries.
fn goes(
    alloc: Global,
    world: &mut RaftWorld<Set>,
    at: u8,
    step: Step,
    answer: Result<(), RaftPushRefused>,
    committed: usize,
) -> bool {
    if at >= world.nodes() {
        return false;
    }
    let node = NodeId(at);
    world.push(alloc, node, event(step)) == answer && world.committed(node).len() == committed
}

/// Whether each event of the rows, which have the node, the event and how much the node acts on then, is taken.
fn all_go(alloc: Global, world: &mut RaftWorld<Set>, rows: &[(u8, Step, usize)]) -> bool {
    let mut all = true;
    for (at, step, committed) in rows {
        all = all && goes(alloc, world, *at, *step, Ok(()), *committed);
    }
    all
}

fn one_node(alloc: Global) -> Result<bool, OutOfMemory> {
    let rows = [
        (Step::Deliver(1), Err(RaftPushRefused::NoSuchMessage), 0),
        (Step::Propose, Ok(()), 0),
        (Step::Tick, Ok(()), 1),
        (Step::Propose, Ok(()), 2),
        (Step::Restart, Ok(()), 2),
        (Step::Crash, Ok(()), 2),
        (Step::Tick, Err(RaftPushRefused::Down), 2),
        (Step::Deliver(0), Err(RaftPushRefused::NoSuchMessage), 2),
        (Step::Restart, Ok(()), 2),
        (Step::Tick, Ok(()), 3),
    ];
    let mut world = RaftWorld::begin(alloc, 1)?;
    let mut all = world.nodes() == 1;
    for (step, answer, committed) in rows {
        all = all && goes(alloc, &mut world, 0, step, answer, committed);
    }
    Ok(all)
}

#[test]
fn one_node_commits_alone(rt: HostRuntime) -> Result<(), Fail> {
    assert!(rt; one_node(rt.alloc())?);
    Ok(())
}

fn late_messages(alloc: Global) -> Result<bool, OutOfMemory> {
    let rows = [
        (0, Step::Tick, 0),
        (1, Step::Deliver(1), 0),
        (0, Step::Deliver(3), 0),
        (1, Step::Deliver(4), 0),
        (0, Step::Deliver(6), 1),
        (0, Step::Crash, 1),
        (1, Step::Tick, 0),
        (2, Step::Deliver(8), 0),
        (1, Step::Deliver(9), 0),
        (2, Step::Deliver(11), 0),
        (1, Step::Deliver(12), 0),
        (1, Step::Tick, 0),
        (2, Step::Deliver(14), 0),
        (1, Step::Deliver(15), 2),
        (2, Step::Deliver(5), 0),
        (1, Step::Deliver(4), 2),
        (1, Step::Tick, 2),
        (2, Step::Deliver(19), 2),
        (0, Step::Restart, 1),
        (0, Step::Deliver(3), 1),
        (0, Step::Deliver(6), 1),
        (0, Step::Deliver(16), 1),
        (0, Step::Deliver(18), 2),
    ];
    let mut world = RaftWorld::begin(alloc, 3)?;
    Ok(all_go(alloc, &mut world, &rows))
}

/// Node 0 leads and commits an entry, and fails; node 1 leads then, and sends node 2 what it lacks once that refused. Old
/// messages come late.
#[test]
fn late_messages_change_nothing(rt: HostRuntime) -> Result<(), Fail> {
    assert!(rt; late_messages(rt.alloc())?);
    Ok(())
}

fn full_logs(alloc: Global) -> Result<bool, OutOfMemory> {
    let elected = [
        (0, Step::Tick, 0),
        (1, Step::Deliver(1), 0),
        (0, Step::Deliver(3), 0),
    ];
    let rows = [
        (0, Step::Tick, 0),
        (1, Step::Deliver(6), 0),
        (0, Step::Deliver(8), 64),
        (0, Step::Tick, 64),
        (1, Step::Deliver(9), 64),
        (0, Step::Crash, 64),
        (1, Step::Tick, 64),
        (2, Step::Deliver(13), 0),
        (1, Step::Deliver(14), 64),
        (2, Step::Deliver(16), 0),
        (1, Step::Deliver(17), 64),
        (1, Step::Tick, 64),
        (2, Step::Deliver(19), 64),
        (1, Step::Deliver(20), 64),
        (1, Step::Tick, 64),
        (2, Step::Deliver(22), 64),
        (1, Step::Deliver(23), 64),
    ];
    let mut world = RaftWorld::begin(alloc, 3)?;
    let mut all = all_go(alloc, &mut world, &elected);
    for _ in 0..127 {
        all = all && goes(alloc, &mut world, 0, Step::Propose, Ok(()), 0);
    }
    Ok(all && all_go(alloc, &mut world, &rows))
}

/// Node 0 fills its log in its term, commits half of it, and fails. Node 1 has that log and leads next, without room for an
/// entry of its own term: that a majority has the other half, of the older term, does not commit it.
#[test]
fn an_older_term_is_not_committed_by_counts(rt: HostRuntime) -> Result<(), Fail> {
    assert!(rt; full_logs(rt.alloc())?);
    Ok(())
}
