//! What a script asks.
ghost use Rattle.std.specs.Prelude.{◌≡◌};

use contract_types::Setup;
use region_map::{Key, NodeId, NodeSet};
use register_laws::{Op, OpId};
use std::marker::Model;

/// What one line of a script asks.
#[derive(Debug, Drop)]
pub enum ScriptWord {
    /// A client asks a node for an operation on a key.
    Request {
        op: OpId,
        node: NodeId,
        key: Key,
        what: Op,
    },
    /// The client at a node no longer waits for its operation.
    GiveUp {
        node: NodeId,
        op: OpId,
    },
    /// A node is told that it sees another one, or sees it no longer.
    See {
        node: NodeId,
        other: NodeId,
        up: bool,
    },
    /// A node goes down.
    Crash(NodeId),
    /// A node comes up.
    Restart(NodeId),
    /// Time passes at a node.
    Tick(NodeId),
    /// The network brings the message of this number to a node, or to the node that it is for.
    Deliver {
        message: u64,
        node: Option<NodeId>,
    },
    /// The network loses the message of this number.
    Lose(u64),
    /// The network loses each message from one node to another that was sent so far and was not delivered yet.
    LoseBetween {
        from: NodeId,
        to: NodeId,
    },
    /// The network brings every waiting message, among some nodes or all.
    Flush {
        only: Option<NodeSet>,
    },
    /// So many times each of some nodes ticks that is up, and the network brings every waiting message among them.
    Settle {
        rounds: u64,
        only: Option<NodeSet>,
    },
}

/// A word with the number of its line, from 1.
#[derive(Debug, Drop)]
pub struct ScriptItem {
    pub line: u64,
    pub word: ScriptWord,
}

/// A script that was read: what the table begins with, and the words in order.
#[derive(Debug, Drop)]
pub struct Script {
    setup: Setup,
    items: Vec<ScriptItem>,
}

impl Model for Script {
    ghost use Rattle.script_text.specs.Script.{ScriptState};

    ghost Value = { ScriptState };

    ghost view = { λ a. record { setup = a.setup; items = a.items.items } };
}

impl Script {
    /// A script of this setup and these words.
    pub fn new(setup: Setup, items: Vec<ScriptItem>) -> Script
        ensures { result ≡ record { setup = setup; items = items.items } }
    {
        Script { setup, items }
    }

    /// What the table begins with.
    pub fn setup(&self) -> &Setup
        ensures { result.now ≡ self.now.setup }
    {
        &self.setup
    }

    /// The words in order.
    pub fn items(&self) -> &[ScriptItem]
        ensures { result.now ≡ self.now.items }
    {
        self.items.as_slice()
    }
}
