//! All nodes of a log and the network between them, which go on by events.
ghost use Rattle.std.specs.Prelude.{◌≡◌, ◌<◌, ◌≤◌, ◌↔◌, ◌⊎◌, ◌++◌, ℕ, Bool, true, false, not, ◌&&◌, List, [], length, take, slice_index_or, slice_set, IsTrue, IsFalse, IfOk, OnOk, OnErr, IsErrOf, IfSome, Some, Err};
ghost use Rattle.raft_node.specs.declared.input.RaftInput.TheVariants.{Tick as InputTick, Deliver as InputDeliver};
ghost use Rattle.raft_node.specs.Rows.{raft_step, ends_numbers, is_well_formed, proposed};
ghost use Rattle.raft_vote.specs.Rows.{is_leader};
ghost use Rattle.raft_laws.specs.World.{World, posted, kept, happens, committed, message_to};
ghost use Rattle.raft_laws.specs.Laws.{IsFrontOf};
ghost use Rattle.raft_laws.specs.Net.{RaftNet, Begins, GoesOn, IsReached, node_in, up_in, world_in, world_of, misses, finds_down, finds_end, is_none, ends_message, put_to, Arrives};

use crate::event::{RaftEvent, Sent};
use memory::OutOfMemory;
use raft_node::{LOG_LIMIT, RaftInput, RaftKept, RaftNode};
use raft_vote::{Log, LogEntry, RaftEntry, RaftMessage};
use region_map::{NodeId, NodeSet, StepRefused};
use std::alloc::{AllocError, AllocFailed, Global};
use std::marker::Model;
use thiserror::Error;

/// Why an event was not taken. The world is as it was.
#[derive(Clone, Copy, Debug, PartialEq, Eq, Error)]
pub enum RaftPushRefused {
    /// No message of that number was sent to the node.
    #[error("no such message")]
    NoSuchMessage,
    /// The node is down, and the event is no restart.
    #[error("the node is down")]
    Down,
    /// A term or an index would reach `NUMBERS_END`.
    #[error("the numbers end")]
    NumbersEnd,
    #[error("out of memory")]
    OutOfMemory,
}

impl From<StepRefused> for RaftPushRefused {
    ghost use Rattle.raft_laws.specs.Refusals.{Refuses};

    ghost from_gives = { λ step push. Refuses step push };

    fn from(error: StepRefused) -> RaftPushRefused {
        match error {
            StepRefused::NumbersEnd => RaftPushRefused::NumbersEnd,
            StepRefused::OutOfMemory => RaftPushRefused::OutOfMemory,
        }
    }
}

impl From<OutOfMemory> for RaftPushRefused {
    ghost use Rattle.std.specs.Prelude.{◌≡◌};
    ghost use Rattle.raft_laws.specs.declared.world.RaftPushRefused.TheVariants.{OutOfMemory};

    ghost from_gives = { λ _ e. e ≡ OutOfMemory };

    fn from(_error: OutOfMemory) -> RaftPushRefused {
        RaftPushRefused::OutOfMemory
    }
}

impl From<AllocError> for RaftPushRefused {
    ghost use Rattle.std.specs.Prelude.{◌≡◌};
    ghost use Rattle.raft_laws.specs.declared.world.RaftPushRefused.TheVariants.{OutOfMemory};

    ghost from_gives = { λ _ e. e ≡ OutOfMemory };

    fn from(_error: AllocError) -> RaftPushRefused {
        RaftPushRefused::OutOfMemory
    }
}

/// All nodes, and every message that was ever sent.
#[derive(Drop)]
pub struct RaftWorld<E: RaftEntry> {
    count: u8,
    nodes: Vec<RaftNode<E>>,
    up: Vec<bool>,
    sent: Vec<Sent<E>>,
}

impl<E: RaftEntry> Model for RaftWorld<E> {
    ghost use Rattle.raft_laws.specs.Net.{RaftNet, IsReached};

    ghost Value = { RaftNet E };

    ghost view = { λ a. record { nodes = a.count; states = a.nodes.items; ups = a.up.items; sent = a.sent.items } };

    ghost invariant = { λ a. IsReached E.noop_entry a.count a.nodes.items a.up.items a.sent.items };
}

impl<E: RaftEntry> RaftWorld<E> {
    /// Nodes with the numbers below `nodes`, all up, with empty logs.
    pub fn begin(alloc: Global, nodes: u8) -> Result<RaftWorld<E>, OutOfMemory>
        requires { nodes ≤ 64 }
        ensures { IfOk result (λ world. Begins world nodes) }
    {
        let mut items = Vec::new(alloc);
        for n in 0..nodes {
            items.push(first_node(alloc, n, nodes)?)?;
        }
        let up = vec![in alloc; true; nodes as usize]?;
        Ok(RaftWorld {
            count: nodes,
            nodes: items,
            up,
            sent: Vec::new(alloc),
        })
    }

    /// How many nodes there are.
    pub fn nodes(&self) -> u8
        ensures { result ≡ self.now.nodes }
    {
        self.count
    }

    /// What a node acts on. Of any two of these, at this moment or at others of a run, one is a front of the other:
    /// `push` only makes them longer.
    pub fn committed(&self, node: NodeId) -> &[LogEntry<E>]
        ensures committed { result.now ≡ committed (world_of self.now) node.0 }
        ensures agree { (other : ℕ) → IsFrontOf result.now (committed (world_of self.now) other) ⊎ IsFrontOf (committed (world_of self.now) other) result.now }
    {
        acted_on(self.count, &self.nodes, node)
    }

    /// An event at a node.
    ///
    /// What it costs is bounded by what the message carries and by the node's own log, which it copies so that the
    /// world is as it was after a refusal; it does not grow with the messages that were sent before.
    pub fn push(
        &mut self,
        alloc: Global,
        node: NodeId,
        event: RaftEvent<E>,
    ) -> Result<(), RaftPushRefused>
        requires { node.0 < self.old.nodes }
        ensures ok { OnOk result (GoesOn E.noop_entry self.old node event self.new) }
        ensures no_message { IsErrOf result RaftPushRefused.NoSuchMessage ↔ IsTrue (misses (world_of self.old) node.0 event) }
        ensures down { IsErrOf result RaftPushRefused.Down ↔ IsTrue (finds_down (world_of self.old) node.0 event) }
        ensures numbers { IsErrOf result RaftPushRefused.NumbersEnd ↔ IsTrue (finds_end (world_of self.old) node.0 event) }
        ensures err { OnErr result (self.new ≡ self.old) }
        ensures longer { (n : ℕ) → IsFrontOf (committed (world_of self.old) n) (committed (world_of self.new) n) }
    {
        push_in(
            self.count,
            &mut self.nodes,
            &mut self.up,
            &mut self.sent,
            alloc,
            node,
            event,
        )?;
        Ok(())
    }
}

/// What a node acts on, and nothing where there is no such node.
fn acted_on<E: RaftEntry>(count: u8, nodes: &Vec<RaftNode<E>>, node: NodeId) -> &[LogEntry<E>]
    ensures { result.now ≡ committed (world_in count nodes.now.items [] []) node.0 }
{
    match nodes.get(node.0 as usize) {
        None => &[],
        Some(node) => &node.log()[..node.committed() as usize],
    }
}

/// A node that comes up for the first time.
fn first_node<E: RaftEntry>(alloc: Global, me: u8, nodes: u8) -> Result<RaftNode<E>, OutOfMemory>
    requires me { me < nodes }
    requires nodes { nodes ≤ 64 }
    ensures { IfOk result (λ node. node ≡ node_in nodes [] me) }
{
    let kept = RaftKept {
        term: 0,
        vote: None,
        log: Log::new(alloc),
        view: 0,
    };
    RaftNode::begin(alloc, NodeId(me), nodes, kept)
}

/// `RaftWorld::push`, over the parts.
fn push_in<E: RaftEntry>(
    count: u8,
    nodes: &mut Vec<RaftNode<E>>,
    up: &mut Vec<bool>,
    sent: &mut Vec<Sent<E>>,
    alloc: Global,
    node: NodeId,
    event: RaftEvent<E>,
) -> Result<(), RaftPushRefused>
    requires reached { IsReached E.noop_entry count nodes.old.items up.old.items sent.old.items }
    requires node { node.0 < count }
    ensures ok { OnOk result (world_in count nodes.new.items up.new.items sent.new.items
        ≡ happens count E.noop_entry (world_in count nodes.old.items up.old.items sent.old.items) (node, event)) }
    ensures states { length nodes.new.items ≡ count }
    ensures ups { length up.new.items ≡ count }
    ensures no_message { IsErrOf result RaftPushRefused.NoSuchMessage ↔ IsTrue (misses (world_in count nodes.old.items up.old.items sent.old.items) node.0 event) }
    ensures down { IsErrOf result RaftPushRefused.Down ↔ IsTrue (finds_down (world_in count nodes.old.items up.old.items sent.old.items) node.0 event) }
    ensures numbers { IsErrOf result RaftPushRefused.NumbersEnd ↔ IsTrue (finds_end (world_in count nodes.old.items up.old.items sent.old.items) node.0 event) }
    ensures err { OnErr result ((nodes.new.items ≡ nodes.old.items) × (up.new.items ≡ up.old.items) × (sent.new.items ≡ sent.old.items)) }
{
    let i = node.0 as usize;
    match event {
        RaftEvent::Tick { unseen } => {
            if !up[i] {
                return Err(RaftPushRefused::Down);
            }
            tick_in(count, nodes, sent, alloc, node, unseen)
        }
        RaftEvent::Propose(change) => {
            if !up[i] {
                return Err(RaftPushRefused::Down);
            }
            put_to(&mut nodes[i], change)?;
            Ok(())
        }
        RaftEvent::Deliver(number) => {
            if !is_sent(sent, node, number) {
                return Err(RaftPushRefused::NoSuchMessage);
            }
            if !up[i] {
                return Err(RaftPushRefused::Down);
            }
            deliver_in(count, nodes, sent, alloc, node, number)
        }
        RaftEvent::Crash => {
            if !up[i] {
                return Err(RaftPushRefused::Down);
            }
            stop_in(count, nodes, alloc, node)?;
            up[i] = false;
            Ok(())
        }
        RaftEvent::Restart => {
            if up[i] {
                return Ok(());
            }
            stop_in(count, nodes, alloc, node)?;
            up[i] = true;
            Ok(())
        }
    }
}

/// A node takes a step by a tick.
fn tick_in<E: RaftEntry>(
    count: u8,
    nodes: &mut Vec<RaftNode<E>>,
    sent: &mut Vec<Sent<E>>,
    alloc: Global,
    node: NodeId,
    unseen: NodeSet,
) -> Result<(), RaftPushRefused>
    requires node { node.0 < length nodes.old.items }
    ensures nodes { OnOk result (nodes.new.items ≡ slice_set nodes.old.items node.0 (raft_step E.noop_entry (node_in count nodes.old.items node.0) (InputTick unseen)).node) }
    ensures sent { OnOk result (sent.new.items ≡ sent.old.items ++ posted node.0 (raft_step E.noop_entry (node_in count nodes.old.items node.0) (InputTick unseen)).sent) }
    ensures goes { OnOk result (IsFalse (ends_numbers (node_in count nodes.old.items node.0) (InputTick unseen))) }
    ensures numbers { IsErrOf result RaftPushRefused.NumbersEnd ↔ IsTrue (ends_numbers (node_in count nodes.old.items node.0) (InputTick unseen)) }
    ensures other { OnErr result ((result ≡ Err RaftPushRefused.NumbersEnd) ⊎ (result ≡ Err RaftPushRefused.OutOfMemory)) }
    ensures err { OnErr result ((nodes.new.items ≡ nodes.old.items) × (sent.new.items ≡ sent.old.items)) }
{
    if ends_at_tick(count, nodes, node, &unseen) {
        return Err(RaftPushRefused::NumbersEnd);
    }
    step_in(count, nodes, sent, alloc, node, RaftInput::Tick { unseen })
}

/// Whether a tick would need a term or an index that is no number.
fn ends_at_tick<E: RaftEntry>(
    count: u8,
    nodes: &Vec<RaftNode<E>>,
    node: NodeId,
    unseen: &NodeSet,
) -> bool
    requires { node.0 < length nodes.now.items }
    ensures { result ≡ ends_numbers (node_in count nodes.now.items node.0) (InputTick unseen.now) }
{
    nodes[node.0 as usize].ends_at_tick(unseen)
}

/// A node takes a step, and what it sends goes into the network.
fn step_in<E: RaftEntry>(
    count: u8,
    nodes: &mut Vec<RaftNode<E>>,
    sent: &mut Vec<Sent<E>>,
    alloc: Global,
    node: NodeId,
    input: RaftInput<E>,
) -> Result<(), RaftPushRefused>
    requires node { node.0 < length nodes.old.items }
    requires input { IsTrue (is_well_formed (node_in count nodes.old.items node.0) input) }
    ensures nodes { OnOk result (nodes.new.items ≡ slice_set nodes.old.items node.0 (raft_step E.noop_entry (node_in count nodes.old.items node.0) input).node) }
    ensures sent { OnOk result (sent.new.items ≡ sent.old.items ++ posted node.0 (raft_step E.noop_entry (node_in count nodes.old.items node.0) input).sent) }
    ensures goes { OnOk result (IsFalse (ends_numbers (node_in count nodes.old.items node.0) input)) }
    ensures numbers { IsErrOf result RaftPushRefused.NumbersEnd → IsTrue (ends_numbers (node_in count nodes.old.items node.0) input) }
    ensures other { OnErr result ((result ≡ Err RaftPushRefused.NumbersEnd) ⊎ (result ≡ Err RaftPushRefused.OutOfMemory)) }
    ensures err { OnErr result ((nodes.new.items ≡ nodes.old.items) × (sent.new.items ≡ sent.old.items)) }
{
    let i = node.0 as usize;
    let mut next = nodes[i].copy(alloc)?;
    let messages = next.step(alloc, input)?;
    let mut more = post(alloc, node, messages)?;
    sent.append(&mut more)?;
    nodes[i] = next;
    Ok(())
}

/// Puts a sender to messages.
fn post<E: RaftEntry>(
    alloc: Global,
    from: NodeId,
    messages: Vec<(NodeId, RaftMessage<E>)>,
) -> Result<Vec<Sent<E>>, AllocError>
    ensures { IfOk result (λ sent. sent.items ≡ posted from.0 messages.items) }
{
    messages
        .into_iter()
        .map(|(to, message)| Sent { from, to, message })
        .collect(alloc)
}

/// A change is put to a node, which takes it where it leads and has room.
fn put_to<E: RaftEntry>(node: &mut RaftNode<E>, change: E) -> Result<(), RaftPushRefused>
    ensures ok { OnOk result (node.new ≡ put_to node.old change) }
    ensures err { OnErr result (node.new ≡ node.old) }
    ensures other { OnErr result (result ≡ Err RaftPushRefused.OutOfMemory) }
{
    if !node.is_leader() || node.log().len() as u64 >= LOG_LIMIT {
        return Ok(());
    }
    if node.propose(change).is_err() {
        return Err(RaftPushRefused::OutOfMemory);
    }
    Ok(())
}

/// Whether a message of that number was sent to a node.
fn is_sent<E: RaftEntry>(sent: &[Sent<E>], node: NodeId, number: u64) -> bool
    ensures { result ≡ not (is_none (message_to sent.now node.0 number)) }
{
    if number == 0 {
        return false;
    }
    match sent.get((number - 1) as usize) {
        None => false,
        Some(message) => message.to.0 == node.0,
    }
}

/// A node takes a message that was sent to it.
fn deliver_in<E: RaftEntry>(
    count: u8,
    nodes: &mut Vec<RaftNode<E>>,
    sent: &mut Vec<Sent<E>>,
    alloc: Global,
    node: NodeId,
    number: u64,
) -> Result<(), RaftPushRefused>
    requires node { node.0 < length nodes.old.items }
    requires sent { IsFalse (is_none (message_to sent.old.items node.0 number)) }
    requires fits { (m : _) → message_to sent.old.items node.0 number ≡ Some m → IsTrue (is_well_formed (node_in count nodes.old.items node.0) (InputDeliver m.from m.message)) }
    ensures comes { OnOk result (Arrives E.noop_entry count nodes.old.items sent.old.items node.0 (message_to sent.old.items node.0 number) nodes.new.items sent.new.items) }
    ensures goes { OnOk result (IsFalse (ends_message (node_in count nodes.old.items node.0) (message_to sent.old.items node.0 number))) }
    ensures numbers { IsErrOf result RaftPushRefused.NumbersEnd ↔ IsTrue (ends_message (node_in count nodes.old.items node.0) (message_to sent.old.items node.0 number)) }
    ensures other { OnErr result ((result ≡ Err RaftPushRefused.NumbersEnd) ⊎ (result ≡ Err RaftPushRefused.OutOfMemory)) }
    ensures err { OnErr result ((nodes.new.items ≡ nodes.old.items) × (sent.new.items ≡ sent.old.items)) }
{
    if ends_at(count, nodes, sent, node, number) {
        return Err(RaftPushRefused::NumbersEnd);
    }
    bring_in(count, nodes, sent, alloc, node, number)
}

/// Whether a message that was sent to a node would need a term or an index that is no number.
fn ends_at<E: RaftEntry>(
    count: u8,
    nodes: &[RaftNode<E>],
    sent: &[Sent<E>],
    node: NodeId,
    number: u64,
) -> bool
    requires node { node.0 < length nodes.now }
    requires sent { IsFalse (is_none (message_to sent.now node.0 number)) }
    requires fits { (m : _) → message_to sent.now node.0 number ≡ Some m → IsTrue (is_well_formed (node_in count nodes.now node.0) (InputDeliver m.from m.message)) }
    ensures { result ≡ ends_message (node_in count nodes.now node.0) (message_to sent.now node.0 number) }
{
    let m = &sent[(number - 1) as usize];
    nodes[node.0 as usize].ends_at(m.from, &m.message)
}

/// A node takes a step by a message that was sent to it.
fn bring_in<E: RaftEntry>(
    count: u8,
    nodes: &mut Vec<RaftNode<E>>,
    sent: &mut Vec<Sent<E>>,
    alloc: Global,
    node: NodeId,
    number: u64,
) -> Result<(), RaftPushRefused>
    requires node { node.0 < length nodes.old.items }
    requires sent { IsFalse (is_none (message_to sent.old.items node.0 number)) }
    requires fits { (m : _) → message_to sent.old.items node.0 number ≡ Some m → IsTrue (is_well_formed (node_in count nodes.old.items node.0) (InputDeliver m.from m.message)) }
    ensures comes { OnOk result (Arrives E.noop_entry count nodes.old.items sent.old.items node.0 (message_to sent.old.items node.0 number) nodes.new.items sent.new.items) }
    ensures goes { OnOk result (IsFalse (ends_message (node_in count nodes.old.items node.0) (message_to sent.old.items node.0 number))) }
    ensures numbers { IsErrOf result RaftPushRefused.NumbersEnd → IsTrue (ends_message (node_in count nodes.old.items node.0) (message_to sent.old.items node.0 number)) }
    ensures other { OnErr result ((result ≡ Err RaftPushRefused.NumbersEnd) ⊎ (result ≡ Err RaftPushRefused.OutOfMemory)) }
    ensures err { OnErr result ((nodes.new.items ≡ nodes.old.items) × (sent.new.items ≡ sent.old.items)) }
{
    let m = &sent[(number - 1) as usize];
    let (from, message) = (m.from, m.message.copy(alloc)?);
    step_in(
        count,
        nodes,
        sent,
        alloc,
        node,
        RaftInput::Deliver { from, message },
    )
}

/// A node stops, or comes up again: it has what it keeps.
fn stop_in<E: RaftEntry>(
    count: u8,
    nodes: &mut Vec<RaftNode<E>>,
    alloc: Global,
    node: NodeId,
) -> Result<(), RaftPushRefused>
    requires node { node.0 < length nodes.old.items }
    requires me { (node_in count nodes.old.items node.0).votes.me ≡ node }
    requires below { node.0 < count }
    requires small { count ≤ 64 }
    ensures nodes { OnOk result (nodes.new.items ≡ slice_set nodes.old.items node.0 (kept count (node_in count nodes.old.items node.0))) }
    ensures other { OnErr result (result ≡ Err RaftPushRefused.OutOfMemory) }
    ensures err { OnErr result (nodes.new.items ≡ nodes.old.items) }
{
    let i = node.0 as usize;
    let kept = nodes[i].copy(alloc)?.into_kept();
    nodes[i] = RaftNode::begin(alloc, node, count, kept)?;
    Ok(())
}
