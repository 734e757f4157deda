//! The worked counts of acks.
ghost use Rattle.std.specs.Prelude.{◌≡◌};
ghost use Rattle.write_dispatch.specs.Dispatch.{behind_first};

use contract_types::{Contract, Counts, Holder};
use region_map::{Id, NodeId, NodeSet, Region};
use register_laws::{OpId, Reply};
use std::test::Fail;
use write_dispatch::{GiveUpRefused, Pending};

const ME: NodeId = NodeId(0);

fn set(members: &[u8]) -> NodeSet {
    let mut all = NodeSet::empty();
    for n in members {
        if *n < 64 {
            all = all.with(NodeId(*n));
        }
    }
    all
}

/// A contract of the voters 0 to 2 that counts from log index 7 on, with node 0 as primary.
fn contract(temp: Option<NodeSet>) -> Contract {
    Contract {
        id: Id {
            node: ME,
            life: 1,
            counter: 1,
        },
        region: Region {
            hash_from: 0,
            hash_to: 1,
            from: None,
            to: None,
        },
        replicas: set(&[0, 1, 2, 3, 4]),
        voters: set(&[0, 1, 2]),
        temp_voters: temp,
        primary: Some(Holder {
            server: ME,
            hand_over: None,
        }),
        since: 7,
        tenure: 1,
    }
}

fn counts(voters: u8, temp: Option<(u8, u8)>) -> Counts {
    Counts {
        voters,
        of: 3,
        temp,
    }
}

/// Whether the counts at timestamp 5 are these, with these temporary voters.
fn has_counts(pending: &Pending, temp: &[u8], voters: u8, counted: u8) -> bool {
    let joint = contract(Some(set(temp)));
    pending.counts(5, &joint, ME) == counts(voters, Some((counted, 3)))
}

/// Whether node 3 is counted at a timestamp.
fn is_counted(pending: &Pending, at: u64) -> bool {
    pending.counted(NodeId(3), at, &contract(None), ME)
}

fn is_undecided(pending: &mut Pending, temp: &[u8]) -> bool {
    let joint = contract(Some(set(temp)));
    pending.take_decided(&joint, ME).is_none()
}

/// The timestamp of what is taken under a contract.
fn taken(pending: &mut Pending, contract: &Contract) -> Option<u64>
    ensures { pending.new.waiting ≡ behind_first pending.old.acks contract.now 0 pending.old.waiting }
{
    match pending.take_decided(contract, ME) {
        None => None,
        Some(first) => Some(first.at),
    }
}

#[test]
fn acks_of_older_views_are_not_counted(rt: HostRuntime) -> Result<(), Fail> {
    let mut pending = Pending::new(rt.alloc());
    pending.dispatch(Some(OpId(1)), 5, Reply::Was(None))?;
    pending.count_ack(NodeId(1), 7, 5);
    pending.count_ack(NodeId(3), 2, 5);
    assert!(rt; has_counts(&pending, &[0, 1, 3], 2, 2));
    assert!(rt; has_counts(&pending, &[2, 3, 4], 2, 0));
    assert!(rt; is_undecided(&mut pending, &[2, 3, 4]));
    pending.count_ack(NodeId(3), 7, 5);
    assert!(rt; has_counts(&pending, &[2, 3, 4], 2, 1));
    assert!(rt; is_counted(&pending, 5));
    assert!(rt; !is_counted(&pending, 6));
    Ok(())
}

#[test]
fn the_least_is_taken_or_given_up(rt: HostRuntime) -> Result<(), Fail> {
    let alone = contract(None);
    let mut pending = Pending::new(rt.alloc());
    pending.dispatch(Some(OpId(1)), 1, Reply::Was(None))?;
    pending.dispatch(None, 2, Reply::Swapped)?;
    let missing = pending.give_up(OpId(9), &alone, ME);
    assert!(rt; missing == Err(GiveUpRefused::NotPending));
    pending.count_ack(NodeId(2), 7, 1);
    let decided = pending.give_up(OpId(1), &alone, ME);
    assert!(rt; decided == Err(GiveUpRefused::StillDecided(counts(2, None))));
    assert!(rt; taken(&mut pending, &alone) == Some(1));
    assert!(rt; taken(&mut pending, &alone).is_none());
    pending.dispatch(Some(OpId(3)), 3, Reply::Was(None))?;
    assert!(rt; pending.give_up(OpId(3), &alone, ME) == Ok(counts(1, None)));
    assert!(rt; pending.pending().len() == 1);
    Ok(())
}
