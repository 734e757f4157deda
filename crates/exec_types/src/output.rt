//! What a node gives in one step.
ghost use Rattle.std.specs.Prelude.{◌≡◌, ◌++◌, ◌∷◌, [], OnOk, OnErr};

use crate::{Message, Outcome};
use contract_types::Results;
use memory::OutOfMemory;
use region_map::{Id, Key, NodeId};
use register_laws::OpId;
use std::alloc::Global;
use std::marker::Model;

/// One output. Outputs of a step stand in the order of these variants, and those of one kind in the order in
/// which the step makes them.
#[derive(Drop)]
pub enum Output {
    /// A message to a node.
    Message {
        to: NodeId,
        message: Message,
    },
    /// The operation took this timestamp of this branch.
    Dispatched {
        op: OpId,
        key: Key,
        branch: Id,
        timestamp: u64,
    },
    /// The node acted on the changes of the log from this index on, and this became of them.
    Viewed {
        first: u64,
        results: Results,
    },
    /// The client is told what became of its operation.
    Answer {
        op: OpId,
        outcome: Outcome,
    },
}

/// The outputs of one step, seen as a list.
#[derive(Drop)]
pub struct Outputs {
    items: Vec<Output>,
}

impl Model for Outputs {
    ghost use Rattle.std.specs.Prelude.{List};
    ghost use Rattle.exec_types.specs.declared.output.Output.{Output};

    ghost Value = { List Output };

    ghost view = { λ a. a.items.items };
}

impl Outputs {
    /// No outputs yet.
    pub fn new(alloc: Global) -> Outputs
        ensures { result ≡ [] }
    {
        Outputs {
            items: Vec::new(alloc),
        }
    }

    /// One more output, behind the others.
    pub fn push(&mut self, output: Output) -> Result<(), OutOfMemory>
        ensures ok { OnOk result (self.new ≡ self.old ++ output ∷ []) }
        ensures err { OnErr result (self.new ≡ self.old) }
    {
        self.items.push(output)?;
        Ok(())
    }

    /// The outputs in order.
    pub fn as_slice(&self) -> &[Output]
        ensures { result.now ≡ self.now }
    {
        self.items.as_slice()
    }
}
