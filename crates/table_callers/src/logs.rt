//! What a log copies, and what a node of the log takes and keeps.
ghost use Rattle.std.specs.Prelude.{◌≡◌, ◌+◌, ◌-◌, ◌^◌, ◌<◌, ◌≤◌, length, drop, true, false, None, Err, IsTrue, IsFalse, IfOk};
ghost use Rattle.raft_append.specs.Merge.{fits};
ghost use Rattle.raft_node.specs.Rows.{is_well_formed};
ghost use Rattle.raft_vote.specs.Rows.{is_leader};
ghost use Rattle.raft_node.specs.declared.input.RaftInput.TheVariants.{Deliver};
ghost use Rattle.raft_vote.specs.declared.message.RaftMessage.TheVariants.{Append};

use memory::OutOfMemory;
use raft_append::Progress;
use raft_node::{ProposeRefused, RaftKept, RaftNode};
use raft_vote::{Log, RaftEntry, VoteNode};
use region_map::StepRefused;
use std::alloc::Global;

/// Entries that fill no message are all copied.
pub fn few_entries_are_all_copied<E: RaftEntry>(
    alloc: Global,
    log: &Log<E>,
    index: u64,
    most: u64,
) -> Result<Log<E>, OutOfMemory>
    requires { length log.now ≤ most }
    ensures { IfOk result (λ copy. copy ≡ drop index log.now) }
{
    log.copy_behind(alloc, index, most)
}

/// No more entries are copied than were asked for.
pub fn no_more_are_copied<E: RaftEntry>(
    alloc: Global,
    log: &Log<E>,
    index: u64,
    most: u64,
) -> Result<Log<E>, OutOfMemory>
    ensures { IfOk result (λ copy. length copy ≤ most) }
{
    log.copy_behind(alloc, index, most)
}

/// A node that comes to a greater term has not voted there.
pub fn a_greater_term_has_no_vote(node: &mut VoteNode, term: u64)
    requires { node.old.term < term }
    ensures { node.new.vote ≡ None }
{
    node.take_term(term);
}

/// A node that refused is sent what stands behind the index that it named.
pub fn a_refusal_leads_back(
    progress: Progress,
    last: u64,
    upto: u64,
) -> Result<Progress, StepRefused>
    requires { upto < progress.next }
    ensures { IfOk result (λ after. after.next ≡ upto + 1) }
{
    progress.after(last, false, upto)
}

/// A crash leaves what a node acts on.
pub fn a_crash_leaves_the_view<E: RaftEntry>(node: RaftNode<E>) -> RaftKept<E>
    ensures { result.view ≡ node.view }
{
    node.into_kept()
}

/// A change comes back as that of a node that does not lead, also where the log is full.
pub fn a_follower_gives_back_a_change<E: RaftEntry>(
    node: &mut RaftNode<E>,
    change: E,
) -> Result<u64, ProposeRefused<E>>
    requires { IsFalse (is_leader node.old.votes.role) }
    ensures { result ≡ Err (ProposeRefused.NotLeader change) }
{
    node.propose(change)
}
