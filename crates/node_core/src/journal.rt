//! The journal: what every node was given and gave, in one order.
ghost use Rattle.std.specs.Prelude.{◌≡◌, [], ◌∷◌, None, Some, reverse, OnOk, OnErr, option_copied};
ghost use Rattle.node_core.specs.Journal.{JournalState, empty_journal};

use contract_types::Setup;
use exec_types::{Input, Outputs};
use memory::OutOfMemory;
use region_map::NodeId;
use std::alloc::Global;
use std::marker::Model;

/// One step of one node.
#[derive(Drop)]
pub struct Entry {
    pub node: NodeId,
    pub input: Input,
    pub outputs: Outputs,
}

/// A setup and the steps of all nodes since, in one order. Contracts see the entries with the newest first.
#[derive(Drop)]
pub struct Journal {
    setup: Option<Setup>,
    entries: Vec<Entry>,
}

impl Model for Journal {
    ghost use Rattle.std.specs.Prelude.{reverse};
    ghost use Rattle.node_core.specs.Journal.{JournalState};

    ghost Value = { JournalState };

    ghost view = { λ a. record { setup = a.setup; past = reverse a.entries.items } };
}

impl Journal {
    /// No setup and no entries.
    pub fn empty(alloc: Global) -> Journal
        ensures { result ≡ empty_journal }
    {
        Journal {
            setup: None,
            entries: Vec::new(alloc),
        }
    }

    /// What the table began with, where it began.
    pub fn setup(&self) -> Option<&Setup>
        ensures { option_copied result ≡ self.now.setup }
    {
        self.setup.as_ref()
    }

    /// The entries, the oldest first.
    pub fn entries(&self) -> &[Entry]
        ensures { reverse result.now ≡ self.now.past }
    {
        self.entries.as_slice()
    }

    /// A journal that begins with this setup.
    pub fn begin(alloc: Global, setup: Setup) -> Journal
        ensures { result ≡ record { setup = Some setup; past = [] } }
    {
        Journal {
            setup: Some(setup),
            entries: Vec::new(alloc),
        }
    }

    /// One more entry, behind the others.
    pub fn push(&mut self, entry: Entry) -> Result<(), OutOfMemory>
        ensures ok { OnOk result (self.new ≡ record self.old { past = entry ∷ self.old.past }) }
        ensures err { OnErr result (self.new ≡ self.old) }
    {
        self.entries.push(entry)?;
        Ok(())
    }
}
