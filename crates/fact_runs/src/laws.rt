//! The facts of one key, in every run. Nodes tick, go down and come up, and messages come in any order, again and
//! again, or never.
ghost use Rattle.std.specs.Prelude.{◌≡◌, ◌↔◌, ℕ, ◌≤◌, ◌<◌, List};
ghost use Rattle.path_facts.specs.Invariant.{Facts};
ghost use Rattle.path_facts.specs.Paths.{Birth, IsIn, on};
ghost use Rattle.key_births.specs.Births.{key_version};
ghost use Rattle.row_runs.specs.runs.region_map.declared.id.Id.{Id};
ghost use Rattle.row_runs.specs.runs.region_map.Keys.{hash_of};
ghost use Rattle.row_runs.specs.runs.region_map.Equal.{same_id};
ghost use Rattle.row_runs.specs.runs.branch_history.declared.version.Version.{Version};
ghost use Rattle.row_runs.specs.runs.branch_history.Paths.{is_on};
ghost use Rattle.row_runs.specs.runs.contract_types.Setup.{SetupState, IsSetup};
ghost use Rattle.row_runs.specs.runs.table_apply.Runs.{contract_at};
ghost use Rattle.row_runs.specs.runs.table_log.Logs.{table_of};
ghost use Rattle.row_runs.specs.runs.node_core.declared.journal.Entry.{Entry};
ghost use Rattle.row_runs.specs.runs.Latest.{told_table};
ghost use Rattle.row_runs.specs.runs.Run.{IsRun};
ghost use Rattle.fact_runs.specs.KeyRuns.{state_at, contract_or_none, key_run};

/// In every run, each key has the facts from which alone it follows that decided points stay: how its contracts follow one
/// another in the longest log that was told, how its branches came into that log and what their makers had as they asked for
/// them, and how far each node came at each moment: on the log, in its lives, and in its version of the key.
pub fn facts_of_runs()
    ensures { (setup : SetupState) → IsSetup setup → (past : List Entry) → IsRun setup past
        → (key : List ℕ) → Facts (key_run setup past key) }
{}

/// In every run, the paths of a key in the table that the journal tells are those of the run at the key.
pub fn paths_of_keys()
    ensures { (setup : SetupState) → IsSetup setup → (past : List Entry) → IsRun setup past
        → (key : List ℕ) (v x : Version) → is_on (told_table setup past).history (hash_of key setup.hashes) key v x
        ≡ on same_id (key_run setup past key).births (key_version v) (key_version x) }
{}

/// In every run, the contract of a key at the index up to which a node acts on the log is the one that has the key in that
/// node's own table.
pub fn own_contracts_of_keys()
    ensures { (setup : SetupState) → IsSetup setup → (past : List Entry) → IsRun setup past
        → (key : List ℕ) (node m : ℕ) → (key_run setup past key).contract ((key_run setup past key).view node m)
        ≡ contract_or_none (contract_at (table_of (state_at setup past node m).log).contracts (hash_of key setup.hashes) key) }
{}

/// In every run, the branches of a key stand in the log in the order of their tenures; those of one tenure have one maker, and
/// stand in the order of the lives in which it made them.
pub fn branches_of_keys_are_ordered()
    ensures tenures { (setup : SetupState) → IsSetup setup → (past : List Entry) → IsRun setup past
        → (key : List ℕ) (y z : Birth Id) → IsIn (key_run setup past key).births y → IsIn (key_run setup past key).births z
        → y.registered ≤ z.registered → y.tenure ≤ z.tenure }
    ensures makers { (setup : SetupState) → IsSetup setup → (past : List Entry) → IsRun setup past
        → (key : List ℕ) (y z : Birth Id) → IsIn (key_run setup past key).births y → IsIn (key_run setup past key).births z
        → y.registered ≤ z.registered → y.tenure ≡ z.tenure → y.maker ≡ z.maker }
    ensures lives { (setup : SetupState) → IsSetup setup → (past : List Entry) → IsRun setup past
        → (key : List ℕ) (y z : Birth Id) → IsIn (key_run setup past key).births y → IsIn (key_run setup past key).births z
        → y.tenure ≡ z.tenure → (y.registered < z.registered) ↔ (y.life < z.life) }
{}
