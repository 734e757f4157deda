//! A configuration whose shards leave something out.
ghost use Rattle.std.specs.Prelude.{IsTrue, IsErrOf};
ghost use Rattle.contract_types.specs.Configs.{Overlaps, HasGap, has_roles};

use contract_types::{ConfigRefused, ShardConfig, TableConfig};
use std::alloc::Global;

/// Where the shards of a table with one hash meet every other rule and leave a key out, they are refused for that.
pub fn one_hash_leaves_no_gap(
    alloc: Global,
    nodes: u8,
    shards: Vec<ShardConfig>,
) -> Result<TableConfig, ConfigRefused>
    requires roles { IsTrue (has_roles nodes 1 shards.items) }
    requires apart { ¬ Overlaps shards.items }
    requires gap { HasGap 1 shards.items }
    ensures { IsErrOf result ConfigRefused.Gap }
{
    TableConfig::new(alloc, nodes, 1, shards)
}
