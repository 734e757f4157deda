//! From where on contracts are in force, and at which timestamp branches begin: each the contract of a function
//! that does nothing.
ghost use Rattle.std.specs.Prelude.{◌≡◌, ◌≤◌, ℕ, List, Some};
ghost use Rattle.region_map.specs.declared.id.Id.{Id};
ghost use Rattle.branch_history.specs.declared.history.BranchBirth.{BranchBirth};
ghost use Rattle.branch_history.specs.Paths.{origin_at};
ghost use Rattle.branch_history.specs.Histories.{birth_of};
ghost use Rattle.contract_types.specs.declared.contract.Contract.{Contract};
ghost use Rattle.contract_types.specs.declared.change.Change.{Change};
ghost use Rattle.contract_types.specs.Configs.{ConfigState, IsConfig};
ghost use Rattle.table_apply.specs.Effects.{greatest};
ghost use Rattle.table_apply.specs.Runs.{table_at, contract_at};

/// From the index `since` of a contract on, it is the contract of its pairs: a view that reaches this index, and
/// none below it, has seen the contract.
pub fn contracts_last()
    ensures { (config : ConfigState) (changes : List Change) (w u h : ℕ) (k : List ℕ) (c : Contract) → IsConfig config
        → contract_at (table_at config changes w).contracts h k ≡ Some c → c.since ≤ u → u ≤ w
        → contract_at (table_at config changes u).contracts h k ≡ Some c }
{}

/// A branch begins at the greatest timestamp that it goes on from, or at 0 where there is none, and so at no pair
/// before the version that it goes on from.
pub fn branches_begin_in_time()
    ensures initial { (config : ConfigState) (changes : List Change) (w : ℕ) (id : Id) (birth : BranchBirth)
        → birth_of (table_at config changes w).history id ≡ Some birth → birth.initial ≡ greatest birth.origin.pieces }
    ensures origin { (config : ConfigState) (changes : List Change) (w h : ℕ) (k : List ℕ) (id : Id) (birth : BranchBirth)
        → birth_of (table_at config changes w).history id ≡ Some birth → (origin_at birth h k).timestamp ≤ birth.initial }
{}
