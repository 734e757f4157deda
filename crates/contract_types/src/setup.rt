//! What a table begins with.
ghost use Rattle.std.specs.Prelude.{◌≡◌, ◌<◌, IsTrue, IfOk};
ghost use Rattle.contract_types.specs.Setup.{IsSetup, is_setup, whole};

use crate::TableConfig;
use memory::OutOfMemory;
use std::alloc::Global;
use std::marker::Model;

/// The configuration with which a table begins: 1 to `region_map::MAX_NODES` nodes, and 1, 2, 4 or 8 hashes.
#[derive(Debug, Drop)]
pub struct Setup {
    config: TableConfig,
}

impl Model for Setup {
    ghost use Rattle.contract_types.specs.Setup.{SetupState, IsSetup};

    ghost Value = { SetupState };

    ghost view = { λ a. a.config };

    ghost invariant = { λ a. IsSetup a.config };
}

impl Setup {
    /// A table that begins with this configuration.
    pub fn new(config: TableConfig) -> Setup
        requires { IsTrue (is_setup config.nodes config.hashes) }
        ensures { result ≡ config }
    {
        let _nodes = config.nodes();
        Setup { config }
    }

    /// A table of one shard of all keys, which every node keeps and votes for, with node 0 as its primary.
    pub fn whole(alloc: Global, nodes: u8, hashes: u8) -> Result<Setup, OutOfMemory>
        requires { IsTrue (is_setup nodes hashes) }
        ensures { IfOk result (λ setup. setup ≡ whole nodes hashes) }
    {
        let config = TableConfig::whole(alloc, nodes, hashes)?;
        Ok(Setup::new(config))
    }

    /// How many nodes the table has: 1 to `region_map::MAX_NODES`.
    pub fn nodes(&self) -> u8
        ensures value { result ≡ self.now.nodes }
        ensures some { 0 < result }
        ensures few { result < 8 }
    {
        self.config.nodes()
    }

    /// How many hashes the keys of the table have: 1, 2, 4 or 8.
    pub fn hashes(&self) -> u8
        ensures value { result ≡ self.now.hashes }
        ensures some { 0 < result }
    {
        self.config.hashes()
    }

    /// The configuration.
    pub fn config(&self) -> &TableConfig
        ensures value { result.now ≡ self.now }
        ensures setup { IsSetup self.now }
    {
        let _nodes = self.config.nodes();
        &self.config
    }

    /// The same setup again.
    pub fn copy(&self, alloc: Global) -> Result<Setup, OutOfMemory>
        ensures { IfOk result (λ setup. setup ≡ self.now) }
    {
        let config = self.config.copy(alloc)?;
        Ok(Setup { config })
    }
}
