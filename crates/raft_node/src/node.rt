//! A node that keeps a log with others.
ghost use Rattle.std.specs.Prelude.{◌≡◌, ◌+◌, ◌<◌, ◌≤◌, ◌↔◌, ℕ, [], ◌∷◌, ◌++◌, length, take, true, false, IsTrue, IsFalse, IfOk, IfSome, OnOk, OnErr, IsErrOf, Err, nat_lt, nat_le, ◌&&◌, ◌||◌, ◌^◌};
ghost use Rattle.raft_append.specs.Merge.{fits, agrees_to_view};
ghost use Rattle.raft_vote.specs.Log.{last_term};
ghost use Rattle.raft_vote.specs.Rows.{asks, is_leader, vote_said, all_nodes};
ghost use Rattle.raft_node.specs.Committed.{KeepsCommitted};
ghost use Rattle.raft_node.specs.State.{begun, kept_of};
ghost use Rattle.raft_node.specs.Rows.{append_to, append_all, won, with_entry, elect_row, elect_ends, ends_at_win, tick_row, ask_row, vote_row, append_row, say_row, deliver_row, deliver_ends, input_row, advanced, raft_step, proposed, is_full, ends_numbers, keeps_view, is_well_formed};
ghost use Rattle.raft_vote.specs.declared.message.RaftMessage.TheVariants.{VoteAsk, VoteSay, Append, AppendSay};
ghost use Rattle.raft_node.specs.declared.input.RaftInput.TheVariants.{Tick, Deliver};

use crate::input::RaftInput;
use crate::kept::RaftKept;
use memory::OutOfMemory;
use raft_append::{Peers, agrees_to_view, decided, fits, take_entries};
use raft_vote::{Log, LogEntry, RaftEntry, RaftMessage, VoteNode, asks};
use region_map::{NUMBERS_END, NodeId, NodeSet, StepRefused};
use std::alloc::Global;
use std::marker::Model;
use thiserror::Error;

/// The number of entries at which a log takes no more from `propose`.
pub const LOG_LIMIT: u64 = 128;

/// How many entries one message carries at most: a node that lacks more takes several.
const ENTRIES_LIMIT: u64 = 64;

/// Why a change was not appended. The node is as it was.
#[derive(Debug, Drop, Error)]
pub enum ProposeRefused<E> {
    /// The node does not lead. The change is given back.
    #[error("not the leader")]
    NotLeader(E),
    /// The log has `LOG_LIMIT` entries. The change is given back.
    #[error("the log is full")]
    LogFull(E),
    #[error("out of memory")]
    OutOfMemory,
}

/// A node of the log: what it does in elections, its log, how far it acts on it, and, where it
/// leads, what it knows of the others.
#[derive(Drop)]
pub struct RaftNode<E> {
    votes: VoteNode,
    // durable, as the term and the vote in `votes`
    log: Log<E>,
    view: u64,
    // of a leader
    peers: Peers,
}

impl<E> Model for RaftNode<E> {
    ghost use Rattle.std.specs.Prelude.{◌≤◌, length};
    ghost use Rattle.raft_node.specs.State.{RaftState};

    ghost Value = { RaftState E };

    ghost view = { λ a. record { votes = a.votes; log = a.log; view = a.view; peers = a.peers } };

    ghost invariant = { λ a. a.view ≤ length a.log };
}

impl<E: RaftEntry> RaftNode<E> {
    /// A node that comes up with what it had kept. It follows, and knows no leader.
    pub fn begin(
        alloc: Global,
        me: NodeId,
        nodes: u8,
        kept: RaftKept<E>,
    ) -> Result<RaftNode<E>, OutOfMemory>
        requires me { me.0 < nodes }
        requires nodes { nodes ≤ 64 }
        requires view { kept.view ≤ length kept.log }
        ensures { IfOk result (λ node. node ≡ begun me nodes kept) }
    {
        let peers = Peers::new(alloc, nodes)?;
        Ok(RaftNode {
            votes: VoteNode::begin(me, all_nodes(nodes), kept.term, kept.vote),
            log: kept.log,
            view: kept.view,
            peers,
        })
    }

    /// The same node again.
    pub fn copy(&self, alloc: Global) -> Result<RaftNode<E>, OutOfMemory>
        ensures { IfOk result (λ node. node ≡ self.now) }
    {
        let (votes, view) = (self.votes.copy(), self.view);
        let log = self.log.copy(alloc)?;
        let peers = self.peers.copy(alloc)?;
        Ok(RaftNode {
            votes,
            log,
            view,
            peers,
        })
    }

    /// What a crash leaves.
    pub fn into_kept(self) -> RaftKept<E>
        ensures kept { result ≡ kept_of self }
        ensures view { result.view ≤ length result.log }
    {
        RaftKept {
            term: self.votes.term(),
            vote: self.votes.vote(),
            log: self.log,
            view: self.view,
        }
    }

    /// How far it acts on its log: the index of its last committed entry.
    pub fn committed(&self) -> u64
        ensures view { result ≡ self.now.view }
        ensures within { result ≤ length self.now.log }
    {
        self.view
    }

    pub fn log(&self) -> &[LogEntry<E>]
        ensures { result.now ≡ self.now.log }
    {
        self.log.as_slice()
    }

    pub fn term(&self) -> u64
        ensures { result ≡ self.now.votes.term }
    {
        self.votes.term()
    }

    /// For whom it voted in its term.
    pub fn vote(&self) -> Option<NodeId>
        ensures { result ≡ self.now.votes.vote }
    {
        self.votes.vote()
    }

    /// Whom it knows to lead its term.
    pub fn leader(&self) -> Option<NodeId>
        ensures { result ≡ self.now.votes.leader }
    {
        self.votes.leader()
    }

    pub fn is_leader(&self) -> bool
        ensures { result ≡ is_leader self.now.votes.role }
    {
        self.votes.is_leader()
    }

    /// Whether the log takes no more entries from `propose`.
    fn is_full(&self) -> bool
        ensures { result ≡ is_full self.now.log }
    {
        self.log.len() >= LOG_LIMIT
    }

    /// Whether `step` may be given a message from this sender. In a run each one that was sent may.
    pub fn takes(&self, from: NodeId, message: &RaftMessage<E>) -> bool
        ensures { result ≡ is_well_formed self.now (Deliver from message.now) }
    {
        from.0 < self.votes.nodes().len() && self.keeps_view(message)
    }

    /// Whether an Append of its term or a greater one agrees with its log up to its view.
    fn keeps_view(&self, message: &RaftMessage<E>) -> bool
        ensures { result ≡ keeps_view self.now message.now }
    {
        match message {
            RaftMessage::Append {
                term,
                prev_index,
                entries,
                ..
            } => {
                *term < self.votes.term()
                    || agrees_to_view(&self.log, self.view, *prev_index, entries)
            }
            _ => true,
        }
    }

    /// Whether a tick would need a term or an index that is no number. `step` refuses just these.
    pub fn ends_at_tick(&self, unseen: &NodeSet) -> bool
        ensures { result ≡ ends_numbers self.now (Tick unseen.now) }
    {
        if self.votes.is_leader() {
            return false;
        }
        let mut votes = self.votes.copy();
        match votes.tick(unseen) {
            Err(_) => true,
            Ok(_) => votes.is_leader() && self.log.len() + 1 >= NUMBERS_END,
        }
    }

    /// Whether a message would need a term or an index that is no number. `step` refuses just these.
    pub fn ends_at(&self, from: NodeId, message: &RaftMessage<E>) -> bool
        requires { IsTrue (is_well_formed self.now (Deliver from message.now)) }
        ensures { result ≡ ends_numbers self.now (Deliver from message.now) }
    {
        let count = self.votes.nodes().len();
        prove!(from.0 < count);
        match message {
            RaftMessage::VoteAsk { .. } => false,
            RaftMessage::VoteSay { term, granted } => {
                let mut votes = self.votes.copy();
                votes.told(from, *term, *granted);
                !self.votes.is_leader() && votes.is_leader() && self.log.len() + 1 >= NUMBERS_END
            }
            RaftMessage::Append {
                term,
                prev_index,
                prev_term,
                entries,
                ..
            } => {
                *term >= self.votes.term()
                    && fits(&self.log, *prev_index, *prev_term)
                    && *prev_index + entries.len() >= NUMBERS_END
            }
            RaftMessage::AppendSay { term, ok, upto } => {
                let mut votes = self.votes.copy();
                votes.take_term(*term);
                votes.is_leader()
                    && votes.term() == *term
                    && self
                        .peers
                        .get(from)
                        .after(self.log.len(), *ok, *upto)
                        .is_err()
            }
        }
    }

    // ---- what a leader sends

    /// The entries that come next at a node, as far as one message carries them.
    fn append_to(&self, alloc: Global, to: NodeId) -> Result<RaftMessage<E>, OutOfMemory>
        ensures { IfOk result (λ message. message ≡ append_to self.now to) }
    {
        let prev_index = self.peers.get(to).next.saturating_sub(1);
        Ok(RaftMessage::Append {
            term: self.votes.term(),
            prev_index,
            prev_term: self.log.term_at(prev_index),
            entries: self.log.copy_behind(alloc, prev_index, ENTRIES_LIMIT)?,
            commit: self.view,
        })
    }

    fn append_to_all(&self, alloc: Global) -> Result<Vec<(NodeId, RaftMessage<E>)>, OutOfMemory>
        ensures { IfOk result (λ sent. sent.items ≡ append_all self.now) }
    {
        let others = self.votes.others().members(alloc)?;
        let mut sent = Vec::new(alloc);
        for n in &others {
            sent.push((*n, self.append_to(alloc, *n)?))?;
        }
        Ok(sent)
    }

    // ---- elections

    /// An entry of its term at the end of its log.
    fn append(&mut self, change: E) -> Result<(), OutOfMemory>
        ensures ok { OnOk result (self.new ≡ with_entry self.old change) }
        ensures err { OnErr result (self.new ≡ self.old) }
    {
        let term = self.votes.term();
        self.log.push(LogEntry { term, change })?;
        Ok(())
    }

    /// A new leader knows nothing of the others, and appends an entry that does nothing.
    fn win(&mut self) -> Result<(), OutOfMemory>
        requires { length self.old.log + 1 < NUMBERS_END }
        ensures { IfOk result (λ _. self.new ≡ won E.noop_entry self.old) }
    {
        self.peers.reset(self.log.len() + 1);
        if self.is_full() {
            return Ok(());
        }
        self.append(E::noop())?;
        Ok(())
    }

    /// Begins to lead, and adds what it then sends.
    fn begin_to_lead(
        &mut self,
        alloc: Global,
        sent: &mut Vec<(NodeId, RaftMessage<E>)>,
    ) -> Result<(), OutOfMemory>
        requires { length self.old.log + 1 < NUMBERS_END }
        ensures node { OnOk result (self.new ≡ won E.noop_entry self.old) }
        ensures sent { OnOk result (sent.new.items ≡ sent.old.items ++ append_all (won E.noop_entry self.old)) }
    {
        self.win()?;
        let mut appends = self.append_to_all(alloc)?;
        sent.append(&mut appends)?;
        Ok(())
    }

    fn tick(
        &mut self,
        alloc: Global,
        unseen: &NodeSet,
    ) -> Result<Vec<(NodeId, RaftMessage<E>)>, StepRefused>
        ensures ok { IfOk result (λ sent. record { node = self.new; sent = sent.items } ≡ tick_row E.noop_entry self.old unseen.now) }
        ensures numbers { IsErrOf result StepRefused.NumbersEnd ↔ IsTrue (ends_numbers self.old (Tick unseen.now)) }
    {
        if self.votes.is_leader() {
            return Ok(self.append_to_all(alloc)?);
        }
        self.elect(alloc, unseen)
    }

    /// A node that does not lead may stand for election, or ask again.
    fn elect(
        &mut self,
        alloc: Global,
        unseen: &NodeSet,
    ) -> Result<Vec<(NodeId, RaftMessage<E>)>, StepRefused>
        requires { IsFalse (is_leader self.old.votes.role) }
        ensures ok { IfOk result (λ sent. record { node = self.new; sent = sent.items } ≡ elect_row E.noop_entry self.old unseen.now) }
        ensures numbers { IsErrOf result StepRefused.NumbersEnd ↔ IsTrue (elect_ends self.old unseen.now) }
    {
        let asked = self.votes.tick(unseen)?;
        if !self.votes.is_leader() {
            return Ok(self.ask(alloc, &asked)?);
        }
        if self.log.len() + 1 >= NUMBERS_END {
            return Err(StepRefused::NumbersEnd);
        }
        let mut sent = self.ask(alloc, &asked)?;
        self.begin_to_lead(alloc, &mut sent)?;
        Ok(sent)
    }

    /// Asks these nodes for their votes in its term.
    fn ask(&self, alloc: Global, to: &NodeSet) -> Result<Vec<(NodeId, RaftMessage<E>)>, OutOfMemory>
        ensures { IfOk result (λ sent. sent.items ≡ asks self.now.votes.term (last_term self.now.log) (length self.now.log) to.now) }
    {
        asks(
            alloc,
            self.votes.term(),
            self.log.last_term(),
            self.log.len(),
            to,
        )
    }

    /// It is asked for its vote.
    fn asked(&mut self, from: NodeId, term: u64, last_term: u64, last_index: u64) -> RaftMessage<E>
        ensures { record { node = self.new; sent = (from, result) ∷ [] } ≡ ask_row self.old from term last_term last_index }
    {
        let (own_term, own_index) = (self.log.last_term(), self.log.len());
        let granted = self
            .votes
            .asked(from, term, last_term, last_index, own_term, own_index);
        RaftMessage::VoteSay {
            term: self.votes.term(),
            granted,
        }
    }

    /// It is told of a vote.
    fn told(
        &mut self,
        alloc: Global,
        from: NodeId,
        term: u64,
        granted: bool,
    ) -> Result<Vec<(NodeId, RaftMessage<E>)>, StepRefused>
        requires { from.0 < 64 }
        ensures ok { IfOk result (λ sent. record { node = self.new; sent = sent.items } ≡ vote_row E.noop_entry self.old from term granted) }
        ensures numbers { IsErrOf result StepRefused.NumbersEnd ↔ IsTrue (ends_at_win self.old (vote_said self.old.votes from term granted)) }
    {
        let led = self.votes.is_leader();
        self.votes.told(from, term, granted);
        let won = !led && self.votes.is_leader();
        if won && self.log.len() + 1 >= NUMBERS_END {
            return Err(StepRefused::NumbersEnd);
        }
        let mut sent = Vec::new(alloc);
        if won {
            self.begin_to_lead(alloc, &mut sent)?;
        }
        Ok(sent)
    }

    // ---- appends that come

    /// Takes the entries of a leader that has no smaller term, and answers.
    fn take_append(
        &mut self,
        from: NodeId,
        term: u64,
        prev_index: u64,
        prev_term: u64,
        entries: Log<E>,
        commit: u64,
    ) -> Result<RaftMessage<E>, StepRefused>
        requires { IsTrue (nat_lt term self.old.votes.term || agrees_to_view self.old.log self.old.view prev_index entries) }
        ensures ok { IfOk result (λ answer. record { node = self.new; sent = (from, answer) ∷ [] } ≡ append_row self.old from term prev_index prev_term entries commit) }
        ensures numbers { IsErrOf result StepRefused.NumbersEnd
            ↔ IsTrue (nat_le self.old.votes.term term && fits self.old.log prev_index prev_term && nat_le (2 ^ 62) (prev_index + length entries)) }
    {
        if term < self.votes.term() {
            return Ok(RaftMessage::AppendSay {
                term: self.votes.term(),
                ok: false,
                upto: 0,
            });
        }
        self.votes.take_term(term);
        self.votes.follow(from);
        let answer = take_entries(
            &mut self.log,
            &mut self.view,
            prev_index,
            prev_term,
            entries,
            commit,
        )?;
        Ok(RaftMessage::AppendSay {
            term: self.votes.term(),
            ok: answer.ok,
            upto: answer.upto,
        })
    }

    /// A leader learns how far a node's log agrees.
    fn take_say(&mut self, from: NodeId, term: u64, ok: bool, upto: u64) -> Result<(), StepRefused>
        ensures ok { OnOk result (self.new ≡ say_row self.old from term ok upto) }
        ensures numbers { IsErrOf result StepRefused.NumbersEnd ↔ IsTrue (deliver_ends self.old from (AppendSay term ok upto)) }
    {
        self.votes.take_term(term);
        if !self.votes.is_leader() || self.votes.term() != term {
            return Ok(());
        }
        let progress = self.peers.get(from).after(self.log.len(), ok, upto)?;
        self.peers.set(from, progress);
        Ok(())
    }

    // ---- a step

    fn deliver(
        &mut self,
        alloc: Global,
        from: NodeId,
        message: RaftMessage<E>,
    ) -> Result<Vec<(NodeId, RaftMessage<E>)>, StepRefused>
        requires from { from.0 < 64 }
        requires view { IsTrue (keeps_view self.old message) }
        ensures ok { IfOk result (λ sent. record { node = self.new; sent = sent.items } ≡ deliver_row E.noop_entry self.old from message) }
        ensures numbers { IsErrOf result StepRefused.NumbersEnd ↔ IsTrue (deliver_ends self.old from message) }
    {
        match message {
            RaftMessage::VoteAsk {
                term,
                last_term,
                last_index,
            } => {
                let mut sent = Vec::with_capacity(alloc, 1)?;
                sent.push_reserved((from, self.asked(from, term, last_term, last_index)));
                Ok(sent)
            }
            RaftMessage::VoteSay { term, granted } => self.told(alloc, from, term, granted),
            RaftMessage::Append {
                term,
                prev_index,
                prev_term,
                entries,
                commit,
            } => {
                let answer = self.take_append(from, term, prev_index, prev_term, entries, commit)?;
                Ok(vec![in alloc; (from, answer)]?)
            }
            RaftMessage::AppendSay { term, ok, upto } => {
                self.take_say(from, term, ok, upto)?;
                Ok(Vec::new(alloc))
            }
        }
    }

    /// A leader acts on what a majority has, up to the last such entry of its own term.
    fn advance(&mut self)
        ensures { self.new ≡ advanced self.old }
    {
        if !self.votes.is_leader() {
            return;
        }
        let decided = decided(&self.votes, &self.log, &self.peers);
        self.view = self.view.max(decided);
    }

    /// Takes one step, but for the leader's commit rule.
    fn take_input(
        &mut self,
        alloc: Global,
        input: RaftInput<E>,
    ) -> Result<Vec<(NodeId, RaftMessage<E>)>, StepRefused>
        requires { IsTrue (is_well_formed self.old input) }
        ensures ok { IfOk result (λ sent. record { node = self.new; sent = sent.items } ≡ input_row E.noop_entry self.old input) }
        ensures numbers { IsErrOf result StepRefused.NumbersEnd ↔ IsTrue (ends_numbers self.old input) }
        ensures within { self.old.view ≤ length self.old.log }
    {
        let count = self.votes.nodes().len();
        match input {
            RaftInput::Tick { unseen } => self.tick(alloc, &unseen),
            RaftInput::Deliver { from, message } => {
                prove!(from.0 < count);
                self.deliver(alloc, from, message)
            }
        }
    }

    /// Takes one step, and gives what it sends. After an error the node must not be used.
    ///
    /// Each message of a run of such nodes may be given to it (`takes`).
    pub fn step(
        &mut self,
        alloc: Global,
        input: RaftInput<E>,
    ) -> Result<Vec<(NodeId, RaftMessage<E>)>, StepRefused>
        requires { IsTrue (is_well_formed self.old input) }
        ensures ok { IfOk result (λ sent. record { node = self.new; sent = sent.items } ≡ raft_step E.noop_entry self.old input) }
        ensures numbers { IsErrOf result StepRefused.NumbersEnd ↔ IsTrue (ends_numbers self.old input) }
        ensures committed { OnOk result (KeepsCommitted self.old self.new) }
    {
        let sent = self.take_input(alloc, input)?;
        self.advance();
        Ok(sent)
    }

    /// Appends a change where it leads, and gives its index.
    pub fn propose(&mut self, change: E) -> Result<u64, ProposeRefused<E>>
        ensures ok { IfOk result (λ index. (self.new ≡ proposed self.old change) × (index ≡ length self.new.log)) }
        ensures not_leader { (result ≡ Err (ProposeRefused.NotLeader change)) ↔ IsFalse (is_leader self.old.votes.role) }
        ensures full { (result ≡ Err (ProposeRefused.LogFull change)) ↔ IsTrue (is_leader self.old.votes.role && is_full self.old.log) }
        ensures err { OnErr result (self.new ≡ self.old) }
        ensures committed { KeepsCommitted self.old self.new }
    {
        if !self.votes.is_leader() {
            return Err(ProposeRefused::NotLeader(change));
        }
        if self.is_full() {
            return Err(ProposeRefused::LogFull(change));
        }
        if self.append(change).is_err() {
            return Err(ProposeRefused::OutOfMemory);
        }
        self.advance();
        Ok(self.log.len())
    }
}

/// The nodes below a number.
fn all_nodes(count: u8) -> NodeSet
    requires { count ≤ 64 }
    ensures { result ≡ all_nodes count }
{
    let mut nodes = NodeSet::empty();
    for n in 0..count {
        nodes = nodes.with(NodeId(n));
    }
    nodes
}
