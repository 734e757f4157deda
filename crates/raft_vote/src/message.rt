//! What the nodes of a log send to one another.
ghost use Rattle.std.specs.Prelude.{◌≡◌, IfOk};
ghost use Rattle.raft_vote.specs.Rows.{asks};

use crate::log::{Log, RaftEntry};
use memory::OutOfMemory;
use region_map::{NodeId, NodeSet};
use std::alloc::Global;

/// A message of the log. The sender's term is in each.
#[derive(Drop)]
pub enum RaftMessage<E> {
    /// A candidate asks for a vote in its term, and says where its log ends.
    VoteAsk {
        term: u64,
        last_term: u64,
        last_index: u64,
    },
    /// The answer.
    VoteSay {
        term: u64,
        granted: bool,
    },
    /// The leader of a term has these entries behind an index, and acts on its log up to `commit`.
    Append {
        term: u64,
        prev_index: u64,
        prev_term: u64,
        entries: Log<E>,
        commit: u64,
    },
    /// The answer: where `ok`, the log agrees with the leader's up to `upto`; else it may do so there.
    AppendSay {
        term: u64,
        ok: bool,
        upto: u64,
    },
}

impl<E: RaftEntry> RaftMessage<E> {
    /// The same message again.
    pub fn copy(&self, alloc: Global) -> Result<RaftMessage<E>, OutOfMemory>
        ensures { IfOk result (λ message. message ≡ self.now) }
    {
        match self {
            RaftMessage::VoteAsk {
                term,
                last_term,
                last_index,
            } => Ok(RaftMessage::VoteAsk {
                term: *term,
                last_term: *last_term,
                last_index: *last_index,
            }),
            RaftMessage::VoteSay { term, granted } => Ok(RaftMessage::VoteSay {
                term: *term,
                granted: *granted,
            }),
            RaftMessage::Append {
                term,
                prev_index,
                prev_term,
                entries,
                commit,
            } => Ok(RaftMessage::Append {
                term: *term,
                prev_index: *prev_index,
                prev_term: *prev_term,
                entries: entries.copy(alloc)?,
                commit: *commit,
            }),
            RaftMessage::AppendSay { term, ok, upto } => Ok(RaftMessage::AppendSay {
                term: *term,
                ok: *ok,
                upto: *upto,
            }),
        }
    }
}

/// Asks these nodes for their votes in a term, for a log that ends there.
pub fn asks<E: Drop>(
    alloc: Global,
    term: u64,
    last_term: u64,
    last_index: u64,
    to: &NodeSet,
) -> Result<Vec<(NodeId, RaftMessage<E>)>, OutOfMemory>
    ensures { IfOk result (λ sent. sent.items ≡ asks term last_term last_index to.now) }
{
    let members = to.members(alloc)?;
    let mut sent = Vec::new(alloc);
    for n in &members {
        let message = RaftMessage::VoteAsk {
            term,
            last_term,
            last_index,
        };
        sent.push((*n, message))?;
    }
    Ok(sent)
}
