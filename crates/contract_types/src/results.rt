//! What became of changes that a node acted on.
ghost use Rattle.std.specs.Prelude.{◌≡◌, ◌++◌, ◌∷◌, IfOk};

use crate::{Applied, Change};
use memory::OutOfMemory;
use raft_vote::RaftEntry;
use std::alloc::Global;
use std::marker::Model;

/// Changes in the order of their indices, each with what became of it; clauses see them as a list.
#[derive(Drop)]
pub struct Results {
    items: Vec<(Change, Applied)>,
}

impl Model for Results {
    ghost use Rattle.std.specs.Prelude.{List};
    ghost use Rattle.contract_types.specs.declared.change.Change.{Change};
    ghost use Rattle.contract_types.specs.declared.applied.Applied.{Applied};

    ghost Value = { List (Change × Applied) };

    ghost view = { λ a. a.items.items };
}

impl From<Vec<(Change, Applied)>> for Results {
    ghost use Rattle.std.specs.Prelude.{◌≡◌};

    ghost from_gives = { λ v results. results ≡ v.items };

    fn from(items: Vec<(Change, Applied)>) -> Results {
        Results { items }
    }
}

impl Results {
    /// The changes and what became of them.
    pub fn into_vec(self) -> Vec<(Change, Applied)>
        ensures { result.items ≡ self }
    {
        self.items
    }

    /// The changes and what became of them.
    pub fn as_slice(&self) -> &[(Change, Applied)]
        ensures { result.now ≡ self.now }
    {
        self.items.as_slice()
    }

    /// The same results again.
    pub fn copy(&self, alloc: Global) -> Result<Results, OutOfMemory>
        ensures { IfOk result (λ copy. copy ≡ self.now) }
    {
        let items = copy_results(alloc, self.items.as_slice())?;
        Ok(Results { items })
    }
}

/// The same results again.
fn copy_results(
    alloc: Global,
    results: &[(Change, Applied)],
) -> Result<Vec<(Change, Applied)>, OutOfMemory>
    ensures { IfOk result (λ copy. copy.items ≡ results.now) }
{
    let mut copy = Vec::new(alloc);
    for one in results {
        copy.push((one.0.copy(alloc)?, one.1))?;
    }
    Ok(copy)
}

/// What a node acted on at one time: the index of the first change, and the results from there on.
#[derive(Drop)]
pub struct Viewed {
    pub first: u64,
    pub results: Results,
}
