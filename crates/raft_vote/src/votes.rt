//! A node that votes, and may be voted for.
ghost use Rattle.std.specs.Prelude.{◌≡◌, ◌<◌, ◌↔◌, IsTrue, IsErr, OnOk, OnErr, IfOk, IsErrOf};
ghost use Rattle.raft_vote.specs.Rows.{started, others, is_leader, hidden, is_least, lost_leader, with_grants, election, starts_election, waiting, vote_tick, ends_terms, take_term, following, grants, vote_asked, counted, vote_said};

use region_map::{NUMBERS_END, NodeId, NodeSet, StepRefused, majority};
use std::marker::Model;

/// What a node does in its term. Lost at a crash.
#[derive(Clone, Copy, Debug)]
pub enum Role {
    Follower,
    /// Who has granted it a vote in its term, and whether any node refused.
    Candidate { granted: NodeSet, refused: bool },
    Leader,
}

/// The election part of a node.
///
/// It takes no memory. Where its own log ends is told to it at each call that depends on it.
#[derive(Clone, Debug, Drop)]
pub struct VoteNode {
    me: NodeId,
    nodes: NodeSet,
    // durable
    term: u64,
    vote: Option<NodeId>,
    // lost at a crash
    role: Role,
    leader: Option<NodeId>,
}

impl Model for VoteNode {
    ghost use Rattle.std.specs.Prelude.{◌<◌};
    ghost use Rattle.raft_vote.specs.State.{VoteState};

    ghost Value = { VoteState };

    ghost view = { λ a. record { me = a.me; nodes = a.nodes; term = a.term; vote = a.vote; role = a.role; leader = a.leader } };

    ghost invariant = { λ a. a.me.0 < 64 };
}

impl VoteNode {
    /// A node that comes up with the term and the vote that it had kept.
    pub fn begin(me: NodeId, nodes: NodeSet, term: u64, vote: Option<NodeId>) -> VoteNode
        requires { me.0 < 64 }
        ensures { result ≡ started me nodes term vote }
    {
        VoteNode {
            me,
            nodes,
            term,
            vote,
            role: Role::Follower,
            leader: None,
        }
    }

    /// The same node again. It takes no memory.
    pub fn copy(&self) -> VoteNode
        ensures { result ≡ self.now }
    {
        VoteNode {
            me: self.me,
            nodes: self.nodes,
            term: self.term,
            vote: self.vote,
            role: self.role,
            leader: self.leader,
        }
    }

    pub fn me(&self) -> NodeId
        ensures { result ≡ self.now.me }
    {
        self.me
    }

    /// All nodes.
    pub fn nodes(&self) -> NodeSet
        ensures { result ≡ self.now.nodes }
    {
        self.nodes
    }

    /// All nodes but itself.
    pub fn others(&self) -> NodeSet
        ensures { result ≡ others self.now }
    {
        self.nodes.without(&NodeSet::empty().with(self.me))
    }

    pub fn term(&self) -> u64
        ensures { result ≡ self.now.term }
    {
        self.term
    }

    /// For whom it voted in its term.
    pub fn vote(&self) -> Option<NodeId>
        ensures { result ≡ self.now.vote }
    {
        self.vote
    }

    /// Whom it knows to lead its term.
    pub fn leader(&self) -> Option<NodeId>
        ensures { result ≡ self.now.leader }
    {
        self.leader
    }

    pub fn is_leader(&self) -> bool
        ensures { result ≡ is_leader self.now.role }
    {
        match &self.role {
            Role::Leader => true,
            _ => false,
        }
    }

    /// The unseen nodes but itself.
    fn hidden(&self, unseen: &NodeSet) -> NodeSet
        ensures { result ≡ hidden self.now unseen.now }
    {
        unseen.without(&NodeSet::empty().with(self.me))
    }

    /// Whether it is the least node that it sees.
    fn is_least(&self, unseen: &NodeSet) -> bool
        ensures { result ≡ is_least self.now unseen.now }
    {
        self.nodes.without(&self.hidden(unseen)).first() == Some(self.me)
    }

    /// Whether it knows no leader, or does not see the one that it knows.
    fn lost_leader(&self, unseen: &NodeSet) -> bool
        ensures { result ≡ lost_leader self.now unseen.now }
    {
        match self.leader {
            None => true,
            Some(leader) => self.hidden(unseen).has(leader),
        }
    }

    /// Whether a tick starts an election.
    fn starts_election(&self, unseen: &NodeSet) -> bool
        ensures { result ≡ starts_election self.now.role self.now unseen.now }
    {
        match &self.role {
            Role::Follower => self.lost_leader(unseen) && self.is_least(unseen),
            Role::Candidate { refused, .. } => *refused && self.is_least(unseen),
            Role::Leader => false,
        }
    }

    /// A candidate with these votes. With a majority it leads.
    fn set_grants(&mut self, granted: NodeSet, refused: bool)
        ensures { self.new ≡ with_grants self.old granted refused }
    {
        if majority(&granted, &self.nodes) {
            self.role = Role::Leader;
            self.leader = Some(self.me);
        } else {
            self.role = Role::Candidate { granted, refused };
        }
    }

    /// Stands for election in the next term, and says whom it asks.
    fn stand(&mut self) -> NodeSet
        requires { self.old.term < NUMBERS_END }
        ensures { record { node = self.new; asked = result } ≡ election self.old }
    {
        self.term += 1;
        self.vote = Some(self.me);
        self.leader = None;
        self.set_grants(NodeSet::empty().with(self.me), false);
        self.others()
    }

    /// A tick without election: says whom it asks again.
    fn wait(&mut self) -> NodeSet
        ensures { record { node = self.new; asked = result } ≡ waiting self.old.role self.old }
    {
        match &self.role {
            Role::Candidate { granted, refused } => {
                if !*refused {
                    return self.nodes.without(granted);
                }
                self.role = Role::Follower;
                NodeSet::empty()
            }
            _ => NodeSet::empty(),
        }
    }

    /// A tick: says whom it asks for a vote in the term that it then has.
    pub fn tick(&mut self, unseen: &NodeSet) -> Result<NodeSet, StepRefused>
        ensures ok { IfOk result (λ asked. record { node = self.new; asked = asked } ≡ vote_tick self.old unseen.now) }
        ensures numbers { IsErrOf result StepRefused.NumbersEnd ↔ IsTrue (ends_terms self.old unseen.now) }
        ensures refused { IsErr result ↔ IsTrue (ends_terms self.old unseen.now) }
        ensures err { OnErr result (self.new ≡ self.old) }
    {
        if !self.starts_election(unseen) {
            return Ok(self.wait());
        }
        if self.term >= NUMBERS_END - 1 {
            return Err(StepRefused::NumbersEnd);
        }
        Ok(self.stand())
    }

    /// Takes a term that is greater than its own.
    pub fn take_term(&mut self, term: u64)
        ensures { self.new ≡ take_term self.old term }
    {
        if term > self.term {
            self.term = term;
            self.vote = None;
            self.role = Role::Follower;
            self.leader = None;
        }
    }

    /// Makes it a follower of this leader.
    pub fn follow(&mut self, leader: NodeId)
        ensures { self.new ≡ following self.old leader }
    {
        self.role = Role::Follower;
        self.leader = Some(leader);
    }

    /// Whether it votes for a candidate of a term.
    fn grants(
        &self,
        from: NodeId,
        term: u64,
        last_term: u64,
        last_index: u64,
        own_term: u64,
        own_index: u64,
    ) -> bool
        ensures { result ≡ grants self.now from term last_term last_index own_term own_index }
    {
        let free = match self.vote {
            None => true,
            Some(vote) => vote == from,
        };
        let reaches = last_term > own_term || last_term == own_term && last_index >= own_index;
        self.term == term && free && reaches
    }

    /// It is asked for its vote, and says whether it grants it. `own_term` and `own_index` say where
    /// its own log ends.
    pub fn asked(
        &mut self,
        from: NodeId,
        term: u64,
        last_term: u64,
        last_index: u64,
        own_term: u64,
        own_index: u64,
    ) -> bool
        ensures { record { node = self.new; granted = result } ≡ vote_asked self.old from term last_term last_index own_term own_index }
    {
        self.take_term(term);
        let granted = self.grants(from, term, last_term, last_index, own_term, own_index);
        if granted {
            self.vote = Some(from);
        }
        granted
    }

    /// Counts an answer in its term.
    fn count(&mut self, from: NodeId, term: u64, granted: bool)
        requires { from.0 < 64 }
        ensures { self.new ≡ counted self.old.role self.old from term granted }
    {
        if let Role::Candidate {
            granted: votes,
            refused,
        } = &self.role
            && self.term == term
        {
            if granted {
                let (votes, refused) = (votes.with(from), *refused);
                self.set_grants(votes, refused);
            } else {
                self.role = Role::Candidate {
                    granted: *votes,
                    refused: true,
                };
            }
        }
    }

    /// It is told of a vote.
    pub fn told(&mut self, from: NodeId, term: u64, granted: bool)
        requires { from.0 < 64 }
        ensures { self.new ≡ vote_said self.old from term granted }
    {
        self.take_term(term);
        self.count(from, term, granted);
    }
}
