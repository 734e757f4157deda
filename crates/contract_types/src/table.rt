//! The state of a table that follows from its log: what was asked for, which contracts are current, which
//! branches were registered.
ghost use Rattle.std.specs.Prelude.{◌≡◌, ◌∷◌, ◌<◌, ℕ, true, List, not, IfOk, OnOk, OnErr, IsTrue};
ghost use Rattle.std.specs.Option.{is_some};
ghost use Rattle.region_map.specs.Maps.{value_at};
ghost use Rattle.branch_history.specs.Histories.{HasHashes, knows, knows_origins};
ghost use Rattle.contract_types.specs.Tables.{Table, branch_at, setup};

use crate::first::{first_branches, first_contracts};
use crate::{Contracts, TableConfig};
use branch_history::{BranchBirth, History};
use memory::OutOfMemory;
use region_map::{Id, RegionMap};
use std::alloc::Global;
use std::marker::Model;

/// The state of a table. Beside the history it keeps a map of the current branches, so that the branch of a
/// key is found without a walk: of each key it is the branch last registered on a region that has the key.
#[derive(Drop)]
pub struct TableState {
    config: TableConfig,
    contracts: Contracts,
    history: History,
    current: RegionMap<Id>,
}

impl Model for TableState {
    ghost use Rattle.contract_types.specs.Tables.{Table, IsKept};

    ghost Value = { Table };

    ghost view = { λ a. record { config = a.config; contracts = a.contracts; history = a.history } };

    ghost invariant = { λ a. IsKept a.config.hashes a.history a.current };
}

impl TableState {
    /// What a table with this configuration begins with: for each shard a contract that has its roles and, as
    /// its current branch, a first branch of its primary.
    pub fn begin(alloc: Global, config: TableConfig) -> Result<TableState, OutOfMemory>
        ensures { IfOk result (λ state. state ≡ setup config) }
    {
        let contracts = first_contracts(alloc, config.shards())?;
        let (history, current) = first_branches(alloc, &config)?;
        Ok(TableState {
            config,
            contracts,
            history,
            current,
        })
    }

    /// The configuration that was asked for last.
    pub fn config(&self) -> &TableConfig
        ensures { result.now ≡ self.now.config }
    {
        &self.config
    }

    /// The contracts, in table order.
    pub fn contracts(&self) -> &Contracts
        ensures { result.now ≡ self.now.contracts }
    {
        &self.contracts
    }

    /// The branches that were registered. Their origins have as many hashes as the table, so its maps of
    /// versions may be compared by it.
    pub fn history(&self) -> &History
        ensures value { result.now ≡ self.now.history }
        ensures hashes { HasHashes self.now.history self.now.config.hashes }
    {
        &self.history
    }

    /// The current branches: of each pair of a hash of the table and a byte list.
    pub fn current(&self) -> &RegionMap<Id>
        ensures hashes { result.now.hashes ≡ self.now.config.hashes }
        ensures at { (h : ℕ) (k : List ℕ) → h < self.now.config.hashes
            → value_at result.now.pieces h k ≡ branch_at self.now.history h k }
        ensures whole { (h : ℕ) (k : List ℕ) → h < self.now.config.hashes
            → is_some (branch_at self.now.history h k) ≡ true }
    {
        &self.current
    }

    /// Another configuration is asked for.
    pub fn set_config(&mut self, config: TableConfig)
        requires { config.hashes ≡ self.old.config.hashes }
        ensures { self.new ≡ record self.old { config = config } }
    {
        self.config = config;
    }

    /// These are the contracts from now on.
    pub fn set_contracts(&mut self, contracts: Contracts)
        ensures { self.new ≡ record self.old { contracts = contracts } }
    {
        self.contracts = contracts;
    }

    /// Adds a branch that is new and goes on from registered ones. It is the current one on its region from now
    /// on.
    pub fn register(&mut self, alloc: Global, id: Id, birth: BranchBirth) -> Result<(), OutOfMemory>
        requires hashes { birth.origin.hashes ≡ self.old.config.hashes }
        requires new { IsTrue (not (knows self.old.history id)) }
        requires origins { IsTrue (knows_origins self.old.history birth.origin.pieces) }
        ensures ok { OnOk result (self.new ≡ record self.old { history = (id, birth) ∷ self.old.history }) }
        ensures err { OnErr result (self.new ≡ self.old) }
    {
        let mut current = self.current.copy(alloc)?;
        current.set(alloc, &birth.region, id)?;
        add_branch(&mut self.history, id, birth)?;
        self.current = current;
        Ok(())
    }
}

/// Adds a branch that is new and goes on from known ones: then only memory can be wanting.
pub(crate) fn add_branch(
    history: &mut History,
    id: Id,
    birth: BranchBirth,
) -> Result<(), OutOfMemory>
    requires hashes { HasHashes history.old birth.origin.hashes }
    requires new { IsTrue (not (knows history.old id)) }
    requires origins { IsTrue (knows_origins history.old birth.origin.pieces) }
    ensures ok { OnOk result (history.new ≡ (id, birth) ∷ history.old) }
    ensures err { OnErr result (history.new ≡ history.old) }
{
    match history.add(id, birth) {
        Ok(()) => Ok(()),
        Err(_) => Err(OutOfMemory),
    }
}
