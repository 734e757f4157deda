//! The changes that a table's log holds.
ghost use Rattle.std.specs.Prelude.{◌≡◌, [], ◌∷◌, ◌++◌, IfOk, OnOk, OnErr};
ghost use Rattle.contract_types.specs.declared.contract.Contract.{Contract};

use crate::{Contract, TableConfig};
use branch_history::Version;
use memory::OutOfMemory;
use raft_vote::RaftEntry;
use region_map::{Id, NodeId, Region, RegionMap};
use std::alloc::Global;
use std::marker::Model;

/// Ids, which clauses see as a list.
#[derive(Drop)]
pub struct Ids {
    items: Vec<Id>,
}

impl Model for Ids {
    ghost use Rattle.std.specs.Prelude.{List};
    ghost use Rattle.region_map.specs.declared.id.Id.{Id};

    ghost Value = { List Id };

    ghost view = { λ a. a.items.items };
}

impl From<Vec<Id>> for Ids {
    ghost use Rattle.std.specs.Prelude.{◌≡◌};

    ghost from_gives = { λ v ids. ids ≡ v.items };

    fn from(items: Vec<Id>) -> Ids {
        Ids { items }
    }
}

impl Ids {
    /// The ids.
    pub fn into_vec(self) -> Vec<Id>
        ensures { result.items ≡ self }
    {
        self.items
    }

    /// The ids.
    pub fn as_slice(&self) -> &[Id]
        ensures { result.now ≡ self.now }
    {
        self.items.as_slice()
    }

    /// The same ids again.
    pub fn copy(&self, alloc: Global) -> Result<Ids, OutOfMemory>
        ensures { IfOk result (λ copy. copy ≡ self.now) }
    {
        let items = Vec::from_slice(alloc, self.items.as_slice())?;
        Ok(Ids { items })
    }
}

/// Contracts, which clauses see as a list; those of a table stand in table order.
#[derive(Drop)]
pub struct Contracts {
    items: Vec<Contract>,
}

impl Model for Contracts {
    ghost use Rattle.std.specs.Prelude.{List};
    ghost use Rattle.contract_types.specs.declared.contract.Contract.{Contract};

    ghost Value = { List Contract };

    ghost view = { λ a. a.items.items };
}

impl From<Vec<Contract>> for Contracts {
    ghost use Rattle.std.specs.Prelude.{◌≡◌};

    ghost from_gives = { λ v contracts. contracts ≡ v.items };

    fn from(items: Vec<Contract>) -> Contracts {
        Contracts { items }
    }
}

impl Contracts {
    /// No contracts.
    pub fn new(alloc: Global) -> Contracts
        ensures { result ≡ [] }
    {
        Contracts {
            items: Vec::new(alloc),
        }
    }

    /// The contracts.
    pub fn into_vec(self) -> Vec<Contract>
        ensures { result.items ≡ self }
    {
        self.items
    }

    /// The contracts.
    pub fn as_slice(&self) -> &[Contract]
        ensures { result.now ≡ self.now }
    {
        self.items.as_slice()
    }

    /// Adds a contract behind the others.
    pub fn push(&mut self, contract: Contract) -> Result<(), OutOfMemory>
        ensures ok { OnOk result (self.new ≡ self.old ++ contract ∷ []) }
        ensures err { OnErr result (self.new ≡ self.old) }
    {
        self.items.push(contract)?;
        Ok(())
    }

    /// The same contracts again.
    pub fn copy(&self, alloc: Global) -> Result<Contracts, OutOfMemory>
        ensures { IfOk result (λ copy. copy ≡ self.now) }
    {
        let items = copy_contracts(alloc, &self.items)?;
        Ok(Contracts { items })
    }
}

/// The same contracts again.
fn copy_contracts(alloc: Global, contracts: &[Contract]) -> Result<Vec<Contract>, OutOfMemory>
    ensures { IfOk result (λ copy. copy.items ≡ contracts.now) }
{
    let mut copy = Vec::new(alloc);
    for contract in contracts {
        copy.push(contract.copy(alloc)?)?;
    }
    Ok(copy)
}

/// A change of a table that the log holds. What it does once it is committed, and when it is skipped, is said
/// by `table_apply`.
#[derive(Drop)]
pub enum Change {
    /// Nothing; what a new leader appends.
    Noop,
    /// The table is to become as this configuration says.
    SetConfig(TableConfig),
    /// The contracts with these ids leave, and these others come in their place.
    NewContracts {
        removed: Ids,
        added: Contracts,
    },
    /// The primary of a region begins a branch that goes on from these versions. It knew `based_on` as the
    /// current branches there.
    RegisterBranch {
        branch: Id,
        region: Region,
        tenure: u64,
        maker: NodeId,
        based_on: RegionMap<Id>,
        origin: RegionMap<Version>,
    },
}

impl RaftEntry for Change {
    ghost use Rattle.contract_types.specs.declared.change.Change.TheVariants.{Noop};

    ghost noop_entry = { Noop };

    fn noop() -> Change {
        Change::Noop
    }

    fn copy(&self, alloc: Global) -> Result<Change, OutOfMemory> {
        match self {
            Change::Noop => Ok(Change::Noop),
            Change::SetConfig(config) => {
                let config = config.copy(alloc)?;
                Ok(Change::SetConfig(config))
            }
            Change::NewContracts { removed, added } => {
                let removed = removed.copy(alloc)?;
                let added = added.copy(alloc)?;
                Ok(Change::NewContracts { removed, added })
            }
            Change::RegisterBranch {
                branch,
                region,
                tenure,
                maker,
                based_on,
                origin,
            } => {
                let region = region.copy(alloc)?;
                let based_on = based_on.copy(alloc)?;
                let origin = origin.copy(alloc)?;
                Ok(Change::RegisterBranch {
                    branch: *branch,
                    region,
                    tenure: *tenure,
                    maker: *maker,
                    based_on,
                    origin,
                })
            }
        }
    }
}
