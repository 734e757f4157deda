//! Laws of every run, each the contract of a function that does nothing.
ghost use Rattle.std.specs.Prelude.{ℕ};
ghost use Rattle.raft_laws.specs.Laws.{VotesLast, OneLeader, LogsMatch, LeadersComplete, NothingWaits, TermsRise, NodesAgree, ViewsGrow, DeliveriesFit};
ghost use Rattle.raft_laws.specs.World.{World};
ghost use Rattle.raft_laws.specs.Sources.{EntriesArePut};
ghost use Rattle.raft_laws.specs.Commits.{LeadersCommit};
ghost use Rattle.raft_laws.specs.Parts.{InRun, IsLogPart, Fits, KeepsPromises};

use raft_vote::RaftEntry;

/// A node's term never falls, and within a term a node votes for one node alone, over crashes too.
pub fn votes_last<E: RaftEntry>()
    ensures { (nodes : ℕ) → VotesLast nodes E.noop_entry }
{}

/// Two nodes that lead in one term, at whatever moments of a run, are one.
pub fn one_leader<E: RaftEntry>()
    ensures { (nodes : ℕ) → OneLeader nodes E.noop_entry }
{}

/// Where two logs, at whatever moments of a run, have an entry of one term at an index, they are the same up to it.
pub fn logs_match<E: RaftEntry>()
    ensures { (nodes : ℕ) → LogsMatch nodes E.noop_entry }
{}

/// What a node acts on is in the log of each later leader.
pub fn leaders_complete<E: RaftEntry>()
    ensures { (nodes : ℕ) → LeadersComplete nodes E.noop_entry }
{}

/// What a node acts on, a leader acted on first or at the same moment; and each leader of a later term than that one's,
/// at whatever moment of a run, has it in its log.
pub fn leaders_commit<E: RaftEntry>()
    ensures { (nodes : ℕ) → LeadersCommit nodes E.noop_entry }
{}

/// Between steps a leader already acts on all that it may: the rule by which it goes on changes nothing.
pub fn nothing_waits<E: RaftEntry>()
    ensures { (nodes : ℕ) → NothingWaits nodes E.noop_entry }
{}

/// The terms of a log's entries never fall from one to the next, and none is above its node's.
pub fn terms_rise<E: RaftEntry>()
    ensures { (nodes : ℕ) → TermsRise nodes E.noop_entry }
{}

/// Of what two nodes act on, at whatever moments of a run, one is a front of the other.
pub fn nodes_agree<E: RaftEntry>()
    ensures { (nodes : ℕ) → NodesAgree nodes E.noop_entry }
{}

/// What a node acts on only becomes longer.
pub fn views_grow<E: RaftEntry>()
    ensures { (nodes : ℕ) → ViewsGrow nodes E.noop_entry }
{}

/// A node may be given each message that comes to it in a run.
pub fn deliveries_fit<E: RaftEntry>()
    ensures { (nodes : ℕ) → DeliveriesFit nodes E.noop_entry }
{}

/// Each entry of a log or a message is the one with which a leader began, or holds a change that was put to the leader
/// of its term.
pub fn entries_are_put<E: RaftEntry>()
    ensures { (nodes : ℕ) → EntriesArePut nodes E.noop_entry }
{}

/// Where the log is a part of more, what holds of it over a run holds of that part: whatever else the nodes do, as long
/// as each of their steps is, for the log, some events of the log or none.
pub fn parts_keep_promises<E: RaftEntry>()
    ensures fits { (nodes : ℕ) (w : World E) → InRun nodes E.noop_entry w → Fits w }
    ensures promises { (nodes : ℕ) (part : ℕ → World E) → IsLogPart nodes E.noop_entry part → KeepsPromises part }
{}
