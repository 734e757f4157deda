//! How a node comes to lead, and what it commits then.
use crate::change::Set;
use crate::nodes::{
    appends, give, granted, has, is_full, is_no_leader, node, said, sends, terms_of, tick,
};
use memory::OutOfMemory;
use raft_node::RaftNode;
use region_map::NodeId;
use std::alloc::Global;
use std::test::Fail;

/// A node alone leads at its first tick, and acts on each entry at once, until its log is full.
fn leads_alone(alloc: Global) -> Result<bool, OutOfMemory> {
    let mut only = node(alloc, 0, 1, 0, &[])?;
    let began = sends(tick(alloc, &mut only), 0) && only.is_leader() && only.term() == 1;
    let first = has(&only, 1, 1);
    let mut all = true;
    for index in 2..129 {
        all = all && appends(&mut only, 7, index);
    }
    Ok(began && first && all && only.committed() == 128 && is_full(&mut only, 9))
}

#[test]
fn a_node_alone_leads_and_commits(rt: HostRuntime) -> Result<(), Fail> {
    assert!(rt; leads_alone(rt.alloc())?);
    Ok(())
}

/// Whether a crash leaves the first term, the node's own vote, and one entry that it acts on.
fn keeps_what_it_won(node: RaftNode<Set>) -> bool {
    let kept = node.into_kept();
    kept.view == 1 && kept.term == 1 && kept.vote == Some(NodeId(0)) && kept.log.len() == 1
}

/// One of three nodes is elected by a second one, and acts on its entry once a third one has it.
fn is_elected_by_two(alloc: Global) -> Result<bool, OutOfMemory> {
    let mut first = node(alloc, 0, 3, 0, &[])?;
    let asked = is_no_leader(&mut first, 5) && sends(tick(alloc, &mut first), 2);
    let elected = sends(give(alloc, &mut first, 1, granted(1)), 2);
    let leads = first.is_leader() && first.committed() == 0;
    let told = sends(give(alloc, &mut first, 2, said(1, 1)), 0) && first.committed() == 1;
    Ok(asked && elected && leads && told && keeps_what_it_won(first))
}

#[test]
fn a_majority_elects_and_commits(rt: HostRuntime) -> Result<(), Fail> {
    assert!(rt; is_elected_by_two(rt.alloc())?);
    Ok(())
}

/// Of three nodes one with an entry of an older term leads: a second one has that entry, and then its own one too.
fn counts_its_own_term(alloc: Global) -> Result<bool, OutOfMemory> {
    let mut first = node(alloc, 0, 3, 3, &[2])?;
    let asked = sends(tick(alloc, &mut first), 2);
    let elected = sends(give(alloc, &mut first, 1, granted(4)), 2) && terms_of(&first) == 204;
    let mut all = true;
    for (upto, committed) in [(1, 0), (2, 2)] {
        let told = sends(give(alloc, &mut first, 1, said(4, upto)), 0);
        all = all && told && first.committed() == committed;
    }
    Ok(asked && elected && all)
}

/// An entry of an older term on a majority is not committed by counting it.
#[test]
fn an_older_term_is_committed_by_the_own_one(rt: HostRuntime) -> Result<(), Fail> {
    assert!(rt; counts_its_own_term(rt.alloc())?);
    Ok(())
}
