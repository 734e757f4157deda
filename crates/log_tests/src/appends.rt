//! How a follower takes what a leader sends.
use crate::change::Set;
use crate::nodes::{Sent, give, granted, has, log_of, node, terms_of, tick};
use memory::OutOfMemory;
use raft_node::RaftNode;
use raft_vote::RaftMessage;
use region_map::{NodeId, StepRefused};
use std::alloc::Global;
use std::test::Fail;

/// An Append with one entry, the answer to it, and the log and view after it.
#[derive(Clone, Copy)]
struct Row {
    term: u64,
    prev_index: u64,
    prev_term: u64,
    entry: u64,
    own_term: u64,
    ok: bool,
    upto: u64,
    terms: u64,
    view: u64,
}

fn answered(given: [u64; 4], own_term: u64, ok: bool, upto: u64, terms: u64, view: u64) -> Row {
    let [term, prev_index, prev_term, entry] = given;
    Row {
        term,
        prev_index,
        prev_term,
        entry,
        own_term,
        ok,
        upto,
        terms,
        view,
    }
}

fn append(alloc: Global, row: Row) -> Result<RaftMessage<Set>, OutOfMemory> {
    Ok(RaftMessage::Append {
        term: row.term,
        prev_index: row.prev_index,
        prev_term: row.prev_term,
        entries: log_of(alloc, &[row.entry])?,
        commit: 9,
    })
}

/// Whether the only message is the row's answer to node 0.
fn answers(sent: Sent, row: Row) -> bool {
    match sent.as_slice() {
        [(to, RaftMessage::AppendSay { term, ok, upto })] => {
            *to == NodeId(0) && *term == row.own_term && *ok == row.ok && *upto == row.upto
        }
        _ => false,
    }
}

/// Whether the row's Append is answered so, and leaves the node with that log and view.
fn takes(alloc: Global, second: &mut RaftNode<Set>, row: Row) -> Result<bool, StepRefused> {
    let append = append(alloc, row)?;
    let sent = give(alloc, second, 0, append)?;
    Ok(answers(sent, row) && terms_of(second) == row.terms && second.committed() == row.view)
}

/// A follower in term 2 with a log of three entries is given each of the rows twice.
fn takes_each_twice(alloc: Global) -> Result<bool, StepRefused> {
    let rows = [
        answered([1, 0, 0, 1], 2, false, 0, 10102, 0),
        answered([3, 5, 3, 3], 3, false, 3, 10102, 0),
        answered([3, 3, 1, 3], 3, false, 2, 10102, 0),
        answered([3, 2, 1, 3], 3, true, 3, 10103, 3),
    ];
    let mut second = node(alloc, 1, 3, 2, &[1, 1, 2])?;
    let mut all = true;
    for row in rows {
        let once = takes(alloc, &mut second, row)?;
        all = all && once && takes(alloc, &mut second, row)?;
    }
    Ok(all && second.leader() == Some(NodeId(0)) && second.vote() == None)
}

#[test]
fn a_follower_takes_what_fits(rt: HostRuntime) -> Result<(), Fail> {
    assert!(rt; takes_each_twice(rt.alloc())?);
    Ok(())
}

/// The follower takes the leader's Append, and the leader its answer. Then these are the length of the one's log and
/// what the other acts on.
fn catches_up(
    alloc: Global,
    first: &mut RaftNode<Set>,
    second: &mut RaftNode<Set>,
    mut sent: Sent,
    length: usize,
    committed: u64,
) -> Result<bool, StepRefused> {
    let Some((_, append)) = sent.pop() else {
        return Ok(false);
    };
    let mut answers = give(alloc, second, 0, append)?;
    let Some((_, answer)) = answers.pop() else {
        return Ok(false);
    };
    let _none = give(alloc, first, 1, answer)?;
    Ok(second.log().len() == length && first.committed() == committed)
}

/// Of two nodes one with 70 entries is elected by the other, which has none and refuses first.
fn takes_by_parts(alloc: Global) -> Result<bool, StepRefused> {
    let mut first = node(alloc, 0, 2, 1, &[1; 70])?;
    let mut second = node(alloc, 1, 2, 0, &[])?;
    let _asks = tick(alloc, &mut first)?;
    let mut sent = give(alloc, &mut first, 1, granted(2))?;
    let mut all = true;
    for (length, committed) in [(0, 0), (64, 0), (71, 71)] {
        all = all && catches_up(alloc, &mut first, &mut second, sent, length, committed)?;
        sent = tick(alloc, &mut first)?;
    }
    Ok(all && has(&first, 71, 71))
}

/// A follower without a log takes one of 71 entries in three ticks: it refuses, and is sent from the front then, by parts.
#[test]
fn a_follower_that_is_behind_takes_the_log_by_parts(rt: HostRuntime) -> Result<(), Fail> {
    assert!(rt; takes_by_parts(rt.alloc())?);
    Ok(())
}
