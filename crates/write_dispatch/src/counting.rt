//! Which servers are counted, and how many of a contract's voters.
ghost use Rattle.std.specs.Prelude.{◌≡◌, ◌*◌, map, count_by, nat_lt};
ghost use Rattle.region_map.specs.declared.id.NodeId.{NodeId};
ghost use Rattle.region_map.specs.Nodes.{node_id};
ghost use Rattle.write_dispatch.specs.Dispatch.{exceeds, reaches, is_counted, counts_of, are_majorities};

use crate::KeptAck;
use contract_types::{Contract, Counts};
use region_map::{NodeId, NodeSet};

/// Whether a pair is above the kept one, by view first.
pub(crate) fn exceeds(view: u64, at: u64, kept: Option<KeptAck>) -> bool
    ensures { result ≡ exceeds view at kept }
{
    match kept {
        Some(kept) => kept.view < view || kept.view == view && kept.at < at,
        None => true,
    }
}

/// Whether a kept ack counts from this log index on, and reaches this timestamp.
fn reaches(kept: Option<KeptAck>, since: u64, at: u64) -> bool
    ensures { result ≡ reaches kept since at }
{
    match kept {
        Some(kept) => since <= kept.view && at <= kept.at,
        None => false,
    }
}

/// Whether a server is counted at a timestamp.
pub(crate) fn is_counted(
    acks: &[Option<KeptAck>],
    since: u64,
    me: NodeId,
    at: u64,
    server: NodeId,
) -> bool
    ensures { result ≡ is_counted acks.now since me.0 at server.0 }
{
    if server == me {
        return true;
    }
    match acks.get(server.0 as usize) {
        Some(kept) => reaches(*kept, since, at),
        None => false,
    }
}

/// How many members of a set are counted at a timestamp.
fn counted_of(acks: &[Option<KeptAck>], since: u64, me: NodeId, at: u64, set: &NodeSet) -> u8
    ensures { result
        ≡ count_by (λ (n : NodeId). is_counted acks.now since me.0 at n.0) (map node_id set.now) }
{
    let count = set
        .iter()
        .filter(|n| is_counted(acks, since, me, at, *n))
        .count();
    count as u8
}

#[tactic(auto, using(crate::proofs::Sums::count_by_map))]
/// The counts of a contract at a timestamp.
pub(crate) fn counts_of(
    acks: &[Option<KeptAck>],
    contract: &Contract,
    me: NodeId,
    at: u64,
) -> Counts
    ensures { result ≡ counts_of acks.now contract.now me.0 at }
{
    let voters = counted_of(acks, contract.since, me, at, &contract.voters);
    let temp = match &contract.temp_voters {
        Some(set) => Some((counted_of(acks, contract.since, me, at, set), set.len())),
        None => None,
    };
    Counts {
        voters,
        of: contract.voters.len(),
        temp,
    }
}

/// Whether twice a counted number exceeds its total.
fn is_majority(counted: u8, of: u8) -> bool
    ensures { result ≡ nat_lt of (2 * counted) }
{
    u16::from(of) < 2 * u16::from(counted)
}

/// Whether twice each counted number exceeds its total.
pub fn are_majorities(counts: &Counts) -> bool
    ensures { result ≡ are_majorities counts.now }
{
    let temp = match counts.temp {
        Some((counted, of)) => is_majority(counted, of),
        None => true,
    };
    is_majority(counts.voters, counts.of) && temp
}
