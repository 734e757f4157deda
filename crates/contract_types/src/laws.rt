//! What holds of every configuration.
ghost use Rattle.std.specs.Prelude.{◌≡◌, ◌↔◌, ℕ, ◌<◌, true, List, length, nat_lt, slice_index_or, if◌then◌else◌};
ghost use Rattle.region_map.specs.Regions.{in_region};
ghost use Rattle.contract_types.specs.declared.config.ShardConfig.{ShardConfig};
ghost use Rattle.contract_types.specs.Configs.{ConfigState, IsConfig, is_config, shard_region};
ghost use Rattle.contract_types.specs.Tilings.{holders};

/// Each pair of a hash of the table and a byte list lies in exactly one shard, and no other pair lies in any.
pub fn each_pair_has_one_shard()
    ensures { (config : ConfigState) (h : ℕ) (k : List ℕ) → IsConfig config
        → holders shard_region config.shards h k ≡ (if nat_lt h config.hashes then 1 else 0) }
{}

/// No two shards have a pair in common: shards at two places that both have one are the same.
pub fn no_two_shards_have_a_pair()
    ensures { (config : ConfigState) (h : ℕ) (k : List ℕ) (i j : ℕ) (shard : ShardConfig) → IsConfig config
        → i < length config.shards → j < length config.shards
        → in_region (slice_index_or config.shards i shard).region h k ≡ true
        → in_region (slice_index_or config.shards j shard).region h k ≡ true → i ≡ j }
{}

/// Whether shards are a configuration can be tested.
pub fn a_test_finds_configurations()
    ensures { (config : ConfigState) → (is_config config ≡ true) ↔ IsConfig config }
{}
