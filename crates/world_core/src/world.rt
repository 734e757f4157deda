//! All nodes of a table, and the network between them.
ghost use Rattle.std.specs.Prelude.{◌≡◌, ℕ, List, ◌∷◌, ◌++◌, ◌⊎◌, ◌↔◌, [], Some, None, OnOk, OnErr, IfOk, IfErr, IsErrOf, IsTrue, ◌<◌, nat_lt, length};
ghost use Rattle.std.specs.List.{list_all};
ghost use Rattle.contract_types.specs.Setup.{IsSetup};
ghost use Rattle.node_core.specs.declared.journal.Entry.{Entry};
ghost use Rattle.path_runs.specs.runs.Run.{IsRun, message_at, entry_of};
ghost use Rattle.path_runs.specs.runs.Story.{IsRegisterStory, story};
ghost use Rattle.path_runs.specs.runs.StoryOrder.{IsStoryInOrder};
ghost use Rattle.world_steps.specs.Waiting.{waiting, waiting_between};
ghost use Rattle.world_steps.specs.World.{push_refusal, after_refusal, receiver_of, is_up};

use contract_types::Setup;
use exec_types::Input;
use memory::OutOfMemory;
use node_core::{Journal, Node};
use region_map::{NodeId, NodeSet};
use register_laws::OpId;
use std::alloc::Global;
use std::collections::BTreeSet;
use std::marker::Model;
use world_steps::envelope::find;
use world_steps::flowing::first_in;
use world_steps::parts::{begin_nodes, is_up, refusal, stop_waiting, take};
use world_steps::waiting_sets::WaitingSets;
use world_steps::{Envelope, LoseRefused, PushRefused};

/// All nodes of a table, with every message that was sent and the journal of their steps.
#[derive(Drop)]
pub struct World {
    setup: Setup,
    journal: Journal,
    /// The weight of the journal.
    weight: u64,
    nodes: Vec<Option<Node>>,
    sent: Vec<Envelope>,
    /// The messages that were marked lost, in the order in which they were.
    lost: Vec<u64>,
    /// The messages that were neither delivered nor lost.
    waits: WaitingSets,
    requested: BTreeSet<OpId>,
    ended: Option<PushRefused>,
}

impl Model for World {
    ghost use Rattle.world_steps.specs.World.{WorldState, IsWorld};

    ghost Value = { WorldState };

    ghost view = { λ a. record { setup = a.setup; past = a.journal.past; lost = a.lost.items; ended = a.ended } };

    ghost invariant = { λ a. IsWorld a.setup a.journal a.lost.items a.nodes.items a.sent.items a.waits a.requested a.ended a.weight };
}

impl World {
    /// A table as it begins, with no message sent.
    pub fn begin(alloc: Global, setup: Setup) -> Result<World, OutOfMemory>
        ensures begun { IfOk result (λ world. world ≡ record { setup = setup; past = []; lost = []; ended = None }) }
        ensures run { IfOk result (λ world. IsRun world.setup world.past) }
        ensures stories { IfOk result (λ world. (key : List ℕ)
            → IsRegisterStory world.setup world.past key (story world.setup world.past key)) }
        ensures story_order { IfOk result (λ world. (key : List ℕ) → IsStoryInOrder world.setup world.past key) }
    {
        let _config = setup.config();
        let nodes = begin_nodes(alloc, &setup)?;
        let waits = WaitingSets::begin(alloc, setup.nodes())?;
        let journal = Journal::begin(alloc, setup.copy(alloc)?);
        Ok(World {
            setup,
            journal,
            weight: 0,
            nodes,
            sent: Vec::new(alloc),
            lost: Vec::new(alloc),
            waits,
            requested: BTreeSet::new(alloc),
            ended: None,
        })
    }

    /// A node is given an input, and steps. The result is the place of the entry in the journal. Whether the event is
    /// taken or not, the journal is a run, and each key's story is a register story of it, told in the order of the path.
    pub fn push(&mut self, alloc: Global, node: NodeId, input: Input) -> Result<u64, PushRefused>
        ensures taken { OnOk result (push_refusal self.old node input ≡ None) }
        ensures entry { OnOk result (self.new
            ≡ record self.old { past = entry_of self.old.setup self.old.past node input ∷ self.old.past }) }
        ensures place { IfOk result (λ place. place ≡ length self.old.past) }
        ensures refused { IfErr result (λ why. (why ≡ PushRefused.OutOfMemory)
            ⊎ (push_refusal self.old node input ≡ Some why)) }
        ensures after { IfErr result (λ why. self.new ≡ after_refusal self.old why) }
        ensures run { IsRun self.new.setup self.new.past }
        ensures stories { (key : List ℕ)
            → IsRegisterStory self.new.setup self.new.past key (story self.new.setup self.new.past key) }
        ensures story_order { (key : List ℕ) → IsStoryInOrder self.new.setup self.new.past key }
    {
        let _config = self.setup.config();
        if let Some(why) = self.ended {
            return Err(why);
        }
        if let Some(why) = refusal(
            &self.setup,
            &self.journal,
            &self.nodes,
            &self.sent,
            &self.requested,
            node,
            &input,
        ) {
            return Err(why);
        }
        let place = self.journal.entries().len() as u64;
        match take(
            &mut self.journal,
            &mut self.nodes,
            &mut self.sent,
            &mut self.waits,
            &mut self.requested,
            self.weight,
            alloc,
            node,
            input,
        ) {
            Ok(weight) => {
                self.weight = weight;
                Ok(place)
            }
            Err(why) => {
                self.ended = Some(why);
                Err(why)
            }
        }
    }

    /// The node that the message of a number is for. Of a world that ended nothing is said.
    pub fn receiver(&self, message: u64) -> Option<NodeId>
        ensures { self.now.ended ≡ None → result ≡ receiver_of (message_at self.now.past message) }
    {
        match find(&self.sent, message) {
            Some(envelope) => Some(envelope.to),
            None => None,
        }
    }

    /// The least message that waits between some nodes and whose receiver is up: it was sent, and was neither delivered
    /// nor lost. Of a world that ended nothing is said.
    pub fn waiting(&self, only: &NodeSet) -> Option<u64>
        requires { IsTrue (list_all (λ n. nat_lt n self.now.setup.nodes) only.now) }
        ensures { self.now.ended ≡ None
            → result ≡ waiting self.now.setup self.now.past self.now.lost only.now }
    {
        first_in(&self.waits, &self.nodes, only)
    }

    /// Marks a message lost: it waits no longer, and may still be delivered. Of a world that ended nothing is said.
    pub fn lose(&mut self, message: u64) -> Result<(), LoseRefused>
        ensures lost { OnOk result (self.new ≡ record self.old { lost = self.old.lost ++ message ∷ [] }) }
        ensures no_such_message { self.old.ended ≡ None
            → (IsErrOf result LoseRefused.NoSuchMessage ↔ message_at self.old.past message ≡ None) }
        ensures err { OnErr result (self.new ≡ self.old) }
    {
        let Some(_) = find(&self.sent, message) else {
            return Err(LoseRefused::NoSuchMessage);
        };
        self.lost.push(message)?;
        stop_waiting(&mut self.waits, &self.sent, message);
        Ok(())
    }

    /// Marks the messages that wait from one node to another lost, in the order in which they were sent.
    pub fn lose_between(&mut self, from: NodeId, to: NodeId) -> Result<(), OutOfMemory>
        requires sender { from.0 < self.old.setup.nodes }
        requires receiver { to.0 < self.old.setup.nodes }
        ensures lost { self.old.ended ≡ None
            → OnOk result (self.new ≡ record self.old { lost = self.old.lost ++ waiting_between self.old.past self.old.lost from to }) }
        ensures rest { self.new ≡ record self.old { lost = self.new.lost } }
        ensures err { OnErr result (self.new ≡ self.old) }
    {
        self.waits.lose_all(from, to, &mut self.lost)?;
        Ok(())
    }

    /// Whether a node is up; one that is not there is not. Of a world that ended nothing is said.
    pub fn is_up(&self, node: NodeId) -> bool
        ensures { self.now.ended ≡ None → result ≡ is_up self.now node }
    {
        node.0 < self.setup.nodes() && is_up(&self.nodes, node)
    }

    /// What the table began with.
    pub fn setup(&self) -> &Setup
        ensures { result.now ≡ self.now.setup }
    {
        &self.setup
    }

    /// The steps of all nodes so far, which are a run of what a table may begin with.
    pub fn journal(&self) -> &Journal
        ensures value { result.now ≡ record { setup = Some self.now.setup; past = self.now.past } }
        ensures setup { IsSetup self.now.setup }
        ensures run { IsRun self.now.setup self.now.past }
    {
        let _config = self.setup.config();
        &self.journal
    }

    /// The steps of all nodes, which are a run of what a table may begin with.
    pub fn into_journal(self) -> Journal
        ensures value { result ≡ record { setup = Some self.setup; past = self.past } }
        ensures setup { IsSetup self.setup }
        ensures run { IsRun self.setup self.past }
    {
        let _config = self.setup.config();
        self.journal
    }
}
