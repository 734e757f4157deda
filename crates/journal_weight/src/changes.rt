//! The weights of the changes that a table's log holds.
use crate::weigh::{Weigh, total};
use contract_types::{Applied, Change, Contract, ShardConfig};
use raft_vote::LogEntry;

impl Weigh for ShardConfig {
    ghost use Rattle.journal_weight.specs.Weights.{shard_weight};

    ghost weight = { shard_weight };

    fn weigh(&self) -> u64 {
        self.region.weigh().saturating_add(256)
    }
}

impl Weigh for Contract {
    ghost use Rattle.journal_weight.specs.Weights.{contract_weight};

    ghost weight = { contract_weight };

    fn weigh(&self) -> u64 {
        self.region.weigh().saturating_add(256)
    }
}

impl Weigh for Change {
    ghost use Rattle.journal_weight.specs.Weights.{change_weight};

    ghost weight = { change_weight };

    fn weigh(&self) -> u64 {
        match self {
            Change::Noop => 0,
            Change::SetConfig(config) => total(config.shards()),
            Change::NewContracts { added, .. } => total(added.as_slice()),
            Change::RegisterBranch {
                region,
                based_on,
                origin,
                ..
            } => region
                .weigh()
                .saturating_add(based_on.weigh())
                .saturating_add(origin.weigh()),
        }
    }
}

impl Weigh for LogEntry<Change> {
    ghost use Rattle.journal_weight.specs.Weights.{log_entry_weight};

    ghost weight = { log_entry_weight };

    fn weigh(&self) -> u64 {
        self.change.weigh().saturating_add(64)
    }
}

/// A change that a node acted on.
impl Weigh for (Change, Applied) {
    ghost use Rattle.journal_weight.specs.Weights.{result_weight};

    ghost weight = { result_weight };

    fn weigh(&self) -> u64 {
        self.0.weigh().saturating_add(64)
    }
}
