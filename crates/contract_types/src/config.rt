//! What an operator asks for: how a table is cut into shards, and who replicates each of them.
ghost use Rattle.contract_types.specs.Setup.{nodes_below, whole_shard, whole};
ghost use Rattle.std.specs.Prelude.{◌≡◌, ◌<◌, ◌≤◌, ◌↔◌, ◌&&◌, not, IfOk, IsErrOf, IsTrue};
ghost use Rattle.contract_types.specs.Configs.{ConfigState, IsConfig, has_no_shards, is_bad_region, has_bad_region, are_nodes, has_bad_replicas, has_bad_roles, has_regions, has_replicas, has_roles, Overlaps, HasGap};

use crate::Placed;
use crate::tiling::{Rule, allows_everywhere};
use memory::OutOfMemory;
use region_map::bound::is_range;
use region_map::{NodeId, NodeSet, Region};
use std::alloc::Global;
use std::marker::Model;
use thiserror::Error;

/// The most shards that a table has.
pub const MAX_SHARDS: usize = 16;

/// One part of a table: its region, who keeps its rows, which of these vote, and who is to be primary.
#[derive(Debug, Drop)]
pub struct ShardConfig {
    pub region: Region,
    pub replicas: NodeSet,
    pub voters: NodeSet,
    pub primary: NodeId,
}

impl Placed for ShardConfig {
    ghost place = { λ s. s.region };

    fn region(&self) -> &Region {
        &self.region
    }
}

impl ShardConfig {
    /// The same shard again.
    pub fn copy(&self, alloc: Global) -> Result<ShardConfig, OutOfMemory>
        ensures { IfOk result (λ shard. shard ≡ self.now) }
    {
        Ok(ShardConfig {
            region: self.region.copy(alloc)?,
            replicas: self.replicas,
            voters: self.voters,
            primary: self.primary,
        })
    }
}

/// Why shards are no configuration of a table.
#[derive(Clone, Copy, Debug, PartialEq, Eq, Error)]
pub enum ConfigRefused {
    #[error("a table has 1 to 16 shards")]
    NoShards,
    #[error("a region is empty, or has hashes that the table has not")]
    Region,
    #[error("a shard has no replicas, or one that is no node of the table")]
    Replicas,
    #[error("a voter is no replica, or a primary is no voter")]
    Roles,
    #[error("two shards overlap")]
    Overlap,
    #[error("some key lies in no shard")]
    Gap,
    #[error("out of memory")]
    OutOfMemory,
}

/// The configuration of a table. No value of it breaks any of the rules that `new` tries, so each pair of a hash
/// of the table and a byte list lies in exactly one shard.
#[derive(Debug, Drop)]
pub struct TableConfig {
    nodes: u8,
    hashes: u8,
    shards: Vec<ShardConfig>,
}

impl Model for TableConfig {
    ghost use Rattle.contract_types.specs.Configs.{ConfigState, IsConfig};

    ghost Value = { ConfigState };

    ghost view = { λ a. record { nodes = a.nodes; hashes = a.hashes; shards = a.shards.items } };

    ghost invariant = { λ a. IsConfig (record { nodes = a.nodes; hashes = a.hashes; shards = a.shards.items }) };
}

impl TableConfig {
    /// These shards as the configuration of a table with so many nodes and hashes. Each rule is tried on all
    /// shards before the next one: their number, regions, replicas, roles, whether two overlap, and whether
    /// they leave a gap. It is passed an allocator as all that makes such values is, though the rules want no
    /// memory.
    pub fn new(
        _alloc: Global,
        nodes: u8,
        hashes: u8,
        shards: Vec<ShardConfig>,
    ) -> Result<TableConfig, ConfigRefused>
        ensures ok { IfOk result (λ c. c ≡ record { nodes = nodes; hashes = hashes; shards = shards.items }) }
        ensures config { IfOk result (λ c. IsConfig c) }
        ensures no_shards { IsErrOf result ConfigRefused.NoShards ↔ IsTrue (has_no_shards shards.items) }
        ensures region { IsErrOf result ConfigRefused.Region
            ↔ IsTrue (not (has_no_shards shards.items) && has_bad_region hashes shards.items) }
        ensures replicas { IsErrOf result ConfigRefused.Replicas
            ↔ IsTrue (has_regions hashes shards.items && has_bad_replicas nodes shards.items) }
        ensures roles { IsErrOf result ConfigRefused.Roles
            ↔ IsTrue (has_replicas nodes hashes shards.items && has_bad_roles shards.items) }
        ensures overlap { IsErrOf result ConfigRefused.Overlap
            ↔ IsTrue (has_roles nodes hashes shards.items) × Overlaps shards.items }
        ensures gap { IsErrOf result ConfigRefused.Gap
            ↔ IsTrue (has_roles nodes hashes shards.items) × (¬ Overlaps shards.items) × HasGap hashes shards.items }
    {
        if has_no_shards(&shards) {
            return Err(ConfigRefused::NoShards);
        }
        if has_bad_region(hashes, &shards) {
            return Err(ConfigRefused::Region);
        }
        if has_bad_replicas(nodes, &shards) {
            return Err(ConfigRefused::Replicas);
        }
        if has_bad_roles(&shards) {
            return Err(ConfigRefused::Roles);
        }
        if overlaps(&shards) {
            return Err(ConfigRefused::Overlap);
        }
        if has_gap(hashes, &shards) {
            return Err(ConfigRefused::Gap);
        }
        Ok(TableConfig {
            nodes,
            hashes,
            shards,
        })
    }

    /// One shard of all keys, which every node keeps and votes for, with node 0 as its primary.
    pub fn whole(alloc: Global, nodes: u8, hashes: u8) -> Result<TableConfig, OutOfMemory>
        requires nodes { 0 < nodes }
        requires few { nodes ≤ 64 }
        requires hashes { 0 < hashes }
        ensures { IfOk result (λ c. c ≡ whole nodes hashes) }
    {
        let mut shards = Vec::new(alloc);
        shards.push(whole_shard(nodes, hashes))?;
        Ok(TableConfig {
            nodes,
            hashes,
            shards,
        })
    }

    /// How many nodes the table has.
    pub fn nodes(&self) -> u8
        ensures value { result ≡ self.now.nodes }
        ensures config { IsConfig self.now }
    {
        self.nodes
    }

    /// How many hashes the keys of the table have.
    pub fn hashes(&self) -> u8
        ensures value { result ≡ self.now.hashes }
        ensures config { IsConfig self.now }
    {
        self.hashes
    }

    /// The shards.
    pub fn shards(&self) -> &[ShardConfig]
        ensures value { result.now ≡ self.now.shards }
        ensures config { IsConfig self.now }
    {
        self.shards.as_slice()
    }

    /// The same configuration again.
    pub fn copy(&self, alloc: Global) -> Result<TableConfig, OutOfMemory>
        ensures { IfOk result (λ config. config ≡ self.now) }
    {
        let shards = copy_shards(alloc, &self.shards)?;
        Ok(TableConfig {
            nodes: self.nodes,
            hashes: self.hashes,
            shards,
        })
    }
}

/// The nodes with numbers below this one, at most 64.
pub fn nodes_below(nodes: u8) -> NodeSet
    requires { nodes ≤ 64 }
    ensures { result ≡ nodes_below nodes }
{
    let mut set = NodeSet::empty();
    for node in 0..nodes {
        set = set.with(NodeId(node));
    }
    set
}

/// All keys, which every node keeps and votes for, with node 0 as the primary.
fn whole_shard(nodes: u8, hashes: u8) -> ShardConfig
    requires { nodes ≤ 64 }
    ensures { result ≡ whole_shard nodes hashes }
{
    let all = nodes_below(nodes);
    ShardConfig {
        region: Region {
            hash_from: 0,
            hash_to: hashes,
            from: None,
            to: None,
        },
        replicas: all,
        voters: all,
        primary: NodeId(0),
    }
}

/// The same shards again.
fn copy_shards(alloc: Global, shards: &[ShardConfig]) -> Result<Vec<ShardConfig>, OutOfMemory>
    ensures { IfOk result (λ copy. copy.items ≡ shards.now) }
{
    let mut copy = Vec::new(alloc);
    for shard in shards {
        copy.push(shard.copy(alloc)?)?;
    }
    Ok(copy)
}

fn has_no_shards(shards: &[ShardConfig]) -> bool
    ensures { result ≡ has_no_shards shards.now }
{
    shards.is_empty() || shards.len() > MAX_SHARDS
}

fn is_bad_region(hashes: u8, region: &Region) -> bool
    ensures { result ≡ is_bad_region hashes region.now }
{
    !(region.hash_from < region.hash_to && is_range(&region.from, &region.to))
        || region.hash_to > hashes
}

fn has_bad_region(hashes: u8, shards: &[ShardConfig]) -> bool
    ensures { result ≡ has_bad_region hashes shards.now }
{
    shards
        .iter()
        .any(|shard| is_bad_region(hashes, &shard.region))
}

/// Whether all members are nodes of the table.
fn are_nodes(nodes: u8, set: &NodeSet) -> bool
    ensures { result ≡ are_nodes nodes set.now }
{
    set.iter().filter(|n| n.0 >= nodes).count() == 0
}

fn has_bad_replicas(nodes: u8, shards: &[ShardConfig]) -> bool
    ensures { result ≡ has_bad_replicas nodes shards.now }
{
    shards.iter().any(|shard| shard.replicas.len() == 0 || !are_nodes(nodes, &shard.replicas))
}

fn has_bad_roles(shards: &[ShardConfig]) -> bool
    ensures { result ≡ has_bad_roles shards.now }
{
    shards.iter().any(|shard| {
        shard.voters.without(&shard.replicas).len() > 0 || !shard.voters.has(shard.primary)
    })
}

/// Whether two shards have a pair in common.
fn overlaps(shards: &[ShardConfig]) -> bool
    ensures { IsTrue result ↔ Overlaps shards.now }
{
    !allows_everywhere(Rule::Apart, shards, shards)
}

/// Whether a pair of the table lies in no shard.
fn has_gap(hashes: u8, shards: &[ShardConfig]) -> bool
    ensures { IsTrue result ↔ HasGap hashes shards.now }
{
    !allows_everywhere(Rule::Whole(hashes), shards, shards)
}
