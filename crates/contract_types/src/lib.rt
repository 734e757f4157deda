//! The words of a table's contracts: who replicates, who votes, who is primary, what its configuration is, what
//! its log says, and what became of what it says.
//!
//! A contract names the replicas of a region, which of them vote, and which one is primary. Acks count from the
//! log index `since` on, at which the contract was made. A primary keeps its tenure over contracts that follow
//! one another on one region. A table begins with a contract and a branch for each shard of its configuration;
//! from then on its contracts and branches change as the log says.
//!
//! Above: the log changes, the plan, the executors, the nodes. Below: `region_map`, `branch_history`, `raft_vote`.
//! Promise: `TableConfig::new` refuses exactly what breaks a rule, the first rule first; a table's map of current
//! branches is that of the branches last registered.
#![tactic(auto)]

pub use ack::{Ack, ServerAck};
pub use applied::{Applied, Condition};
pub use change::{Change, Contracts, Ids};
pub use config::{ConfigRefused, MAX_SHARDS, ShardConfig, TableConfig, nodes_below};
pub use contract::{Contract, Holder};
pub use counts::Counts;
pub use first::{first_contract, setup_id};
pub use id_source::IdSource;
pub use laws::{a_test_finds_configurations, each_pair_has_one_shard, no_two_shards_have_a_pair};
pub use limits::Which;
pub use placed::Placed;
pub use region_map::majority;
pub use results::{Results, Viewed};
pub use setup::Setup;
pub use table::TableState;

pub mod ack;
pub mod applied;
pub mod change;
pub mod config;
pub mod contract;
pub mod counts;
mod first;
pub mod id_source;
pub mod laws;
pub mod limits;
pub mod placed;
pub mod results;
pub mod setup;
pub mod table;
pub mod tiling;
