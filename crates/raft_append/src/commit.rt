//! What a majority has of a leader's log.
ghost use Rattle.std.specs.Prelude.{◌≡◌, ◌≤◌, length};
ghost use Rattle.raft_append.specs.Commit.{matched_by, is_matched, is_decided, decided};

use crate::peers::Peers;
use raft_vote::{Log, VoteNode};
use region_map::NodeId;

/// The greatest index whose entry has the leader's term and which a majority of all nodes has
/// matched, and 0 where there is none.
#[tactic(auto, using(crate::proofs::Greatest::greatest_yes, crate::proofs::Greatest::greatest_no))]
pub fn decided<E>(votes: &VoteNode, log: &Log<E>, peers: &Peers) -> u64
    ensures decided { result ≡ decided votes.now log.now peers.now }
    ensures within { result ≤ length log.now }
{
    let mut index = log.len();
    while index > 0 && !is_decided(votes, log, peers, index) {
        index -= 1;
    }
    index
}

/// Whether an entry is of the leader's own term and a majority has matched it.
fn is_decided<E>(votes: &VoteNode, log: &Log<E>, peers: &Peers, index: u64) -> bool
    ensures { result ≡ is_decided votes.now log.now peers.now index }
{
    log.term_at(index) == votes.term() && is_matched(votes, log.len(), peers, index)
}

/// Whether a majority of all nodes has matched an index.
fn is_matched(votes: &VoteNode, last: u64, peers: &Peers, index: u64) -> bool
    ensures { result ≡ is_matched votes.now last peers.now index }
{
    let nodes = votes.nodes();
    let count = nodes
        .iter()
        .filter(|n| index <= matched_by(votes, last, peers, *n))
        .count();
    2 * count > nodes.len() as usize
}

/// How far a node's log is known to agree, the leader's own with all of it.
fn matched_by(votes: &VoteNode, last: u64, peers: &Peers, n: NodeId) -> u64
    ensures { result ≡ matched_by votes.now last peers.now n }
{
    if n == votes.me() {
        last
    } else {
        peers.get(n).matched
    }
}
