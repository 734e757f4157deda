//! What a world keeps beside its journal, and how an entry changes it.
ghost use Rattle.std.specs.Prelude.{◌≡◌, is_some, ℕ, ◌+◌, ◌==◌, ◌<◌, ◌↔◌, ◌⊎◌, ◌||◌, ◌&&◌, not, Some, None, false, true, ◌∷◌, OnOk, OnErr, IfOk, IfErr, IfSome, IsErrOf, IsTrue, List, map, length, nat_lt, slice_set, slice_index_or};
ghost use Rattle.std.specs.BTreeSet.{contains};
ghost use Rattle.region_map.specs.declared.id.NodeId.{NodeId};
ghost use Rattle.contract_types.specs.Setup.{SetupState, nodes_below};
ghost use Rattle.node_core.specs.declared.journal.Entry.{Entry};
ghost use Rattle.node_core.specs.Step.{NodeState, begin_node, node_step, ends_numbers};
ghost use Rattle.register_laws.specs.declared.operation.OpId.{OpId};
ghost use Rattle.runs.specs.Run.{sent, numbered, brought, requests, is_requested, entry_of, suits};
ghost use Rattle.world_steps.specs.Waiting.{delivers, is_between};
ghost use Rattle.world_steps.specs.Pairs.{pair_has, is_up_among};
ghost use Rattle.world_steps.specs.World.{op_cmp, AreRequested, IsInStep, most_entries, states, names_nodes, message_refusal, op_refusal, entry_refusal, made_refusal, heavy_refusal, weight_of, total_weight, is_final};

use crate::PushRefused;
use crate::envelope::{collect, find, open};
use crate::waiting_sets::WaitingSets;
use contract_types::{Setup, Which};
use exec_types::{Input, Outputs};
use journal_weight::weight;
use memory::OutOfMemory;
use node_core::{Brought, Entry, Journal, Node};
use region_map::{NodeId, StepRefused};
use register_laws::OpId;
use runs::Envelope;
use std::alloc::Global;
use std::collections::BTreeSet;

/// How many entries a journal holds at most.
pub const MOST_ENTRIES: u64 = 20_000;

/// How heavy a journal is at most.
pub const MOST_WEIGHT: u64 = 134_217_728;

/// The nodes of a table as it begins.
pub fn begin_nodes(alloc: Global, setup: &Setup) -> Result<Vec<Option<Node>>, OutOfMemory>
    ensures { IfOk result
        (λ nodes. nodes.items ≡ map (λ n. Some (begin_node setup.now n)) (nodes_below setup.now.nodes)) }
{
    let mut nodes = Vec::new(alloc);
    for n in 0..setup.nodes() {
        let node = Node::begin(alloc, setup, NodeId(n))?;
        nodes.push(Some(node))?;
    }
    Ok(nodes)
}

/// One step of the node of a number. At a refusal the node is gone.
fn step_node(
    nodes: &mut Vec<Option<Node>>,
    alloc: Global,
    node: NodeId,
    input: &Input,
    brought: Option<Brought>,
) -> Result<Outputs, StepRefused>
    requires { node.0 < length nodes.old.items }
    ensures outs { (s : NodeState) → slice_index_or nodes.old.items node.0 None ≡ Some s
        → IfOk result (λ outs. outs ≡ (node_step s input.now brought).outs) }
    ensures nodes { (s : NodeState) → slice_index_or nodes.old.items node.0 None ≡ Some s
        → OnOk result (nodes.new.items ≡ slice_set nodes.old.items node.0 (Some (node_step s input.now brought).node)) }
    ensures ends { (s : NodeState) → slice_index_or nodes.old.items node.0 None ≡ Some s
        → IsErrOf result StepRefused.NumbersEnd → IsTrue (ends_numbers s input.now brought) }
    ensures goes { (s : NodeState) → slice_index_or nodes.old.items node.0 None ≡ Some s
        → OnOk result (ends_numbers s input.now brought ≡ false) }
{
    let slot = &mut nodes[node.0 as usize];
    match slot.take() {
        None => Err(StepRefused::OutOfMemory),
        Some(stepping) => {
            let (stepped, outputs) = stepping.step(alloc, input, brought)?;
            *slot = Some(stepped);
            Ok(outputs)
        }
    }
}

/// The message that a delivery brings.
fn bring(
    alloc: Global,
    messages: &[Envelope],
    input: &Input,
) -> Result<Option<Brought>, OutOfMemory>
    ensures { (past : List Entry) → messages.now ≡ sent past → IfOk result (λ found. found ≡ brought past input.now) }
{
    match input {
        Input::Request { .. } => Ok(None),
        Input::GiveUp { .. } => Ok(None),
        Input::See { .. } => Ok(None),
        Input::Tick => Ok(None),
        Input::Deliver { message } => match find(messages, *message) {
            None => Ok(None),
            Some(envelope) => {
                let brought = open(alloc, envelope)?;
                Ok(Some(brought))
            }
        },
        Input::Crash => Ok(None),
        Input::Restart => Ok(None),
    }
}

/// Keeps the operation that an input requests.
fn note(requested: &mut BTreeSet<OpId>, input: &Input) -> Result<(), OutOfMemory>
    ensures { (past : List Entry) → AreRequested requested.old past
        → OnOk result ((op : OpId) → contains op_cmp requested.new op ≡ (requests input.now op || is_requested past op)) }
{
    if let Input::Request { op, .. } = input {
        requested.insert(*op)?;
    }
    Ok(())
}

/// A message waits no longer.
pub fn stop_waiting(waits: &mut WaitingSets, messages: &[Envelope], message: u64)
    ensures nodes { waits.new.nodes ≡ waits.old.nodes }
    ensures stopped { (a b : NodeId) → a.0 < waits.old.nodes → b.0 < waits.old.nodes → (n : ℕ)
        → pair_has waits.new a b n
        ≡ (not ((message == n) && is_between a b (numbered messages.now n)) && pair_has waits.old a b n) }
{
    if let Some(envelope) = find(messages, message) {
        waits.remove(envelope, message);
    }
}

/// A message that is delivered waits no longer.
fn arrive(waits: &mut WaitingSets, messages: &[Envelope], input: &Input)
    ensures nodes { waits.new.nodes ≡ waits.old.nodes }
    ensures arrived { (a b : NodeId) → a.0 < waits.old.nodes → b.0 < waits.old.nodes → (n : ℕ)
        → pair_has waits.new a b n
        ≡ (not (delivers input.now n && is_between a b (numbered messages.now n)) && pair_has waits.old a b n) }
{
    if let Input::Deliver { message } = input {
        stop_waiting(waits, messages, *message);
    }
}

/// Whether the nodes of an event are nodes of the table.
fn names_nodes(setup: &Setup, node: NodeId, input: &Input) -> bool
    ensures { result ≡ names_nodes setup.now node input.now }
{
    if node.0 >= setup.nodes() {
        return false;
    }
    match input {
        Input::See { other, .. } => other.0 < setup.nodes(),
        Input::Request { .. } => true,
        Input::GiveUp { .. } => true,
        Input::Tick => true,
        Input::Deliver { .. } => true,
        Input::Crash => true,
        Input::Restart => true,
    }
}

/// The refusal of a message that was not sent, or is for another node.
fn message_refusal(messages: &[Envelope], node: NodeId, input: &Input) -> Option<PushRefused>
    ensures value { (past : List Entry) → messages.now ≡ sent past → result ≡ message_refusal past node input.now None }
    ensures goes_on { IfSome result (λ why. is_final why ≡ false) }
{
    let Input::Deliver { message } = input else {
        return None;
    };
    match find(messages, *message) {
        None => Some(PushRefused::NoSuchMessage),
        Some(envelope) => {
            if envelope.to == node {
                None
            } else {
                Some(PushRefused::NotYours)
            }
        }
    }
}

/// Whether a node takes an input: one that is down takes a restart alone, and only such a node takes it.
fn suits(up: bool, input: &Input) -> bool
    ensures { result ≡ suits up input.now }
{
    match input {
        Input::Restart => !up,
        Input::Request { .. } => up,
        Input::GiveUp { .. } => up,
        Input::See { .. } => up,
        Input::Tick => up,
        Input::Deliver { .. } => up,
        Input::Crash => up,
    }
}

/// Whether a node is up; one that is not there is not.
pub fn is_up(nodes: &[Option<Node>], node: NodeId) -> bool
    ensures { result ≡ is_up_among nodes.now node.0 }
{
    match nodes.get(node.0 as usize) {
        Some(Some(there)) => there.is_up(),
        _ => false,
    }
}

/// Whether an input requests an operation that was requested before.
fn is_known(requested: &BTreeSet<OpId>, input: &Input) -> bool
    ensures { (past : List Entry) → AreRequested requested.now past
        → result ≡ is_some (op_refusal past input.now None) }
{
    match input {
        Input::Request { op, .. } => requested.contains(op),
        _ => false,
    }
}

/// Whether a journal takes no more entries.
fn is_full(journal: &Journal) -> bool
    ensures { result ≡ not (nat_lt (length journal.now.past) most_entries) }
{
    journal.entries().len() as u64 >= MOST_ENTRIES
}

/// The first refusal of an event that needs no step of its node.
pub fn refusal(
    setup: &Setup,
    journal: &Journal,
    nodes: &[Option<Node>],
    messages: &[Envelope],
    requested: &BTreeSet<OpId>,
    node: NodeId,
    input: &Input,
) -> Option<PushRefused>
    ensures value { nodes.now ≡ states setup.now journal.now.past → messages.now ≡ sent journal.now.past
        → AreRequested requested.now journal.now.past
        → result ≡ entry_refusal setup.now journal.now.past node input.now }
    ensures goes_on { IfSome result (λ why. is_final why ≡ false) }
{
    if !names_nodes(setup, node, input) {
        return Some(PushRefused::NoSuchNode);
    }
    if let Some(why) = message_refusal(messages, node, input) {
        return Some(why);
    }
    let up = is_up(nodes, node);
    if !suits(up, input) {
        return Some(if up {
            PushRefused::Up
        } else {
            PushRefused::Down
        });
    }
    if is_known(requested, input) {
        return Some(PushRefused::OpKnown);
    }
    if is_full(journal) {
        return Some(PushRefused::JournalFull(Which::JournalEntries));
    }
    None
}

/// What a journal of this weight weighs with one more entry, unless it is too heavy then.
fn with_weight(before: u64, entry: &Entry) -> Result<u64, PushRefused>
    ensures ok { IfOk result (λ after. after ≡ before + weight_of entry.now) }
    ensures light { OnOk result (heavy_refusal (before + weight_of entry.now) ≡ None) }
    ensures err { IfErr result (λ why. heavy_refusal (before + weight_of entry.now) ≡ Some why) }
    ensures ends { IfErr result (λ why. is_final why ≡ true) }
{
    let after = before.saturating_add(weight(&entry.input, &entry.outputs));
    if after > MOST_WEIGHT {
        return Err(PushRefused::JournalFull(Which::JournalWeight));
    }
    Ok(after)
}

/// Takes an event that nothing but its step may refuse: its node steps, and what that gives is kept. The result is
/// the journal's weight. At a refusal the parts are spoilt, and the journal is as it was.
pub fn take(
    journal: &mut Journal,
    nodes: &mut Vec<Option<Node>>,
    messages: &mut Vec<Envelope>,
    waits: &mut WaitingSets,
    requested: &mut BTreeSet<OpId>,
    before: u64,
    alloc: Global,
    node: NodeId,
    input: Input,
) -> Result<u64, PushRefused>
    requires { node.0 < length nodes.old.items }
    ensures entry { (setup : SetupState) (lost : List ℕ)
        → IsInStep setup journal.old.past lost nodes.old.items messages.old.items waits.old requested.old
        → OnOk result (journal.new
        ≡ record journal.old { past = entry_of setup journal.old.past node input ∷ journal.old.past }) }
    ensures in_step { (setup : SetupState) (lost : List ℕ)
        → IsInStep setup journal.old.past lost nodes.old.items messages.old.items waits.old requested.old
        → entry_refusal setup journal.old.past node input ≡ None
        → OnOk result (IsInStep setup (entry_of setup journal.old.past node input ∷ journal.old.past) lost
        nodes.new.items messages.new.items waits.new requested.new) }
    ensures taken { (setup : SetupState) (lost : List ℕ)
        → IsInStep setup journal.old.past lost nodes.old.items messages.old.items waits.old requested.old
        → before ≡ total_weight journal.old.past
        → OnOk result (made_refusal setup journal.old.past node input ≡ None) }
    ensures refused { (setup : SetupState) (lost : List ℕ)
        → IsInStep setup journal.old.past lost nodes.old.items messages.old.items waits.old requested.old
        → before ≡ total_weight journal.old.past
        → IfErr result (λ why. (why ≡ PushRefused.OutOfMemory)
        ⊎ (made_refusal setup journal.old.past node input ≡ Some why)) }
    ensures weighed { before ≡ total_weight journal.old.past → IfOk result (λ after. after ≡ total_weight journal.new.past) }
    ensures ends { IfErr result (λ why. is_final why ≡ true) }
    ensures kept { OnErr result (journal.new ≡ journal.old) }
{
    let brought = bring(alloc, messages, &input)?;
    let outputs = step_node(nodes, alloc, node, &input, brought)?;
    arrive(waits, messages, &input);
    collect(alloc, node, outputs.as_slice(), messages, waits)?;
    note(requested, &input)?;
    let entry = Entry {
        node,
        input,
        outputs,
    };
    let after = with_weight(before, &entry)?;
    journal.push(entry)?;
    Ok(after)
}
