//! What holds of the table that follows from any list of changes: each the contract of a function that does
//! nothing.
ghost use Rattle.std.specs.Prelude.{◌≡◌, ◌↔◌, ◌≤◌, ◌<◌, ℕ, min, suc, true, ◌⊎◌, List, nat_lt, Some, if◌then◌else◌};
ghost use Rattle.std.specs.List.{AllByRecursion};
ghost use Rattle.std.specs.Option.{is_some};
ghost use Rattle.region_map.specs.declared.id.Id.{Id};
ghost use Rattle.region_map.specs.declared.id.NodeId.{NodeId};
ghost use Rattle.region_map.specs.declared.region.Region.{Region};
ghost use Rattle.region_map.specs.Regions.{in_region};
ghost use Rattle.region_map.specs.Maps.{Pieced, value_at};
ghost use Rattle.branch_history.specs.declared.version.Version.{Version};
ghost use Rattle.branch_history.specs.declared.history.BranchBirth.{BranchBirth};
ghost use Rattle.branch_history.specs.Paths.{Branches};
ghost use Rattle.branch_history.specs.Histories.{birth_of, IsHistory};
ghost use Rattle.contract_types.specs.declared.contract.Contract.{Contract};
ghost use Rattle.contract_types.specs.declared.change.Change.{Change};
ghost use Rattle.contract_types.specs.declared.change.Change.TheVariants.{RegisterBranch};
ghost use Rattle.contract_types.specs.declared.applied.Applied.TheVariants.{Taken};
ghost use Rattle.contract_types.specs.Configs.{ConfigState, IsConfig};
ghost use Rattle.contract_types.specs.Tilings.{holders};
ghost use Rattle.contract_types.specs.Tables.{branch_at};
ghost use Rattle.table_apply.specs.Conditions.{contract_region, tile, branch_on, is_based_on};
ghost use Rattle.table_apply.specs.Effects.{applied_at, FitsTable};
ghost use Rattle.table_apply.specs.Runs.{Registers, table_at, change_at, contract_at, how_many, Replaces, Goes, IsPast, AreFounded};

/// What is asked of the regions of added contracts: each pair of a hash and a byte list lies in one of them where it
/// lies in one of the removed, and in none elsewhere.
pub fn regions_are_compared_at_every_pair()
    ensures { (added removed : List Contract) → (tile added removed ≡ true)
        ↔ ((h : ℕ) (k : List ℕ) → holders contract_region added h k ≡ min 1 (holders contract_region removed h k)) }
{}

/// What is asked of the branches that a maker knew: at every pair of the table they are the current ones on the
/// region, and none outside of it.
pub fn branches_are_compared_at_every_pair()
    ensures { (hashes : ℕ) (history : Branches) (region : Region) (based_on : Pieced Id)
        → (is_based_on hashes history region based_on ≡ true)
        ↔ ((based_on.hashes ≡ hashes) × ((h : ℕ) (k : List ℕ) → h < hashes → value_at based_on.pieces h k ≡ branch_on history region h k)) }
{}

/// At all times the contracts are disjoint and cover the table: each pair of a hash of the table and a byte list
/// lies in exactly one of their regions, and no other pair lies in any.
pub fn one_contract_has_each_pair()
    ensures count { (config : ConfigState) (changes : List Change) (w h : ℕ) (k : List ℕ) → IsConfig config
        → holders contract_region (table_at config changes w).contracts h k ≡ (if nat_lt h config.hashes then 1 else 0) }
    ensures some { (config : ConfigState) (changes : List Change) (w h : ℕ) (k : List ℕ) → IsConfig config → h < config.hashes
        → is_some (contract_at (table_at config changes w).contracts h k) ≡ true }
{}

/// No id stands at two contracts of a table.
pub fn contracts_have_ids_of_their_own()
    ensures { (config : ConfigState) (changes : List Change) (w : ℕ) (id : Id)
        → how_many (table_at config changes w).contracts id ≤ 1 }
{}

/// A branch has an id of its own, and the branches that it goes on from were registered before it. So, where the
/// maps that the changes bring have as many hashes as the table, the laws of paths hold of its history.
pub fn origins_are_registered_first()
    ensures founded { (config : ConfigState) (changes : List Change) (w : ℕ) → AreFounded (table_at config changes w).history }
    ensures history { (config : ConfigState) (changes : List Change) (w : ℕ)
        → ((place : ℕ) → FitsTable config.hashes (change_at changes place)) → IsHistory (table_at config changes w).history }
{}

/// A branch is registered in the tenure of the contract in force on its region, whose primary is its maker, and
/// from the current branches there.
pub fn a_branch_is_registered_in_its_tenure()
    ensures { (config : ConfigState) (changes : List Change) (w : ℕ) (branch : Id) (region : Region) (tenure : ℕ) (maker : NodeId)
        (based_on : Pieced Id) (origin : Pieced Version) (h : ℕ) (k : List ℕ) → IsConfig config
        → (applied_at (table_at config changes w) (suc w) (RegisterBranch branch region tenure maker based_on origin)).applied ≡ Taken
        → in_region region h k ≡ true → Registers (table_at config changes w) region tenure maker based_on h k }
{}

/// Each pair of the table has a current branch, which is registered, and whose region has the pair.
pub fn each_pair_has_a_current_branch()
    ensures some { (config : ConfigState) (changes : List Change) (w h : ℕ) (k : List ℕ) → IsConfig config → h < config.hashes
        → is_some (branch_at (table_at config changes w).history h k) ≡ true }
    ensures registered { (config : ConfigState) (changes : List Change) (w h : ℕ) (k : List ℕ) (id : Id)
        → branch_at (table_at config changes w).history h k ≡ Some id
        → (b : BranchBirth) × (birth_of (table_at config changes w).history id ≡ Some b) × (in_region b.region h k ≡ true) }
{}

/// A change leaves the contract of a pair as it is, or replaces it: a contract with a primary follows one with the
/// same primary or with none on the same region.
pub fn contracts_follow()
    ensures { (config : ConfigState) (changes : List Change) (w h : ℕ) (k : List ℕ) (c : Contract) → IsConfig config
        → contract_at (table_at config changes (suc w)).contracts h k ≡ Some c
        → (contract_at (table_at config changes w).contracts h k ≡ Some c)
        ⊎ ((old : Contract) × (contract_at (table_at config changes w).contracts h k ≡ Some old) × Replaces (suc w) old c) }
{}

/// The index of a contract, and the one since which it has its tenure, are not above that of the table.
pub fn contracts_are_past()
    ensures { (config : ConfigState) (changes : List Change) (w : ℕ) → AllByRecursion (IsPast w) (table_at config changes w).contracts }
{}

/// From the index of its tenure on, up to the contract, the pair's contract had this region, primary and tenure.
pub fn tenures_last()
    ensures { (config : ConfigState) (changes : List Change) (w u h : ℕ) (k : List ℕ) (c : Contract) → IsConfig config
        → contract_at (table_at config changes w).contracts h k ≡ Some c → c.tenure ≤ u → u ≤ w
        → (d : Contract) × (contract_at (table_at config changes u).contracts h k ≡ Some d) × Goes c d }
{}

/// The tenures of a pair never fall, and in one tenure it has one region and one primary.
pub fn tenures_rise()
    ensures { (config : ConfigState) (changes : List Change) (v w h : ℕ) (k : List ℕ) (c d : Contract) → IsConfig config → v ≤ w
        → contract_at (table_at config changes v).contracts h k ≡ Some c
        → contract_at (table_at config changes w).contracts h k ≡ Some d
        → (c.tenure ≤ d.tenure) × (c.tenure ≡ d.tenure → Goes d c) }
{}

/// A table depends on the changes before it alone.
pub fn a_table_follows_from_its_changes()
    ensures { (config : ConfigState) (changes others : List Change) (w : ℕ)
        → ((place : ℕ) → place < w → change_at changes place ≡ change_at others place)
        → table_at config changes w ≡ table_at config others w }
{}
