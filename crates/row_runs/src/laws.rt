//! Rows and versions of nodes, in a run. Nodes tick, go down and come up, and messages come in any order, again and
//! again, or never.
ghost use Rattle.std.specs.Prelude.{◌≡◌, ◌⊎◌, ◌&&◌, ℕ, List, Some, None, true, is_some};
ghost use Rattle.std.specs.List.{list_any};
ghost use Rattle.path_runs.specs.runs.branch_history.declared.version.Version.{Version};
ghost use Rattle.path_runs.specs.runs.branch_history.Paths.{zero};
ghost use Rattle.path_runs.specs.runs.contract_types.Setup.{SetupState, IsSetup};
ghost use Rattle.path_runs.specs.runs.store_api.Rows.{has_key, row_of};
ghost use Rattle.path_runs.specs.runs.store_api.Versions.{version_of};
ghost use Rattle.path_runs.specs.runs.node_core.declared.journal.Entry.{Entry};
ghost use Rattle.path_runs.specs.runs.node_core.Step.{is_led, serves};
ghost use Rattle.path_runs.specs.runs.Latest.{told_table};
ghost use Rattle.path_runs.specs.runs.Run.{IsRun, state};
ghost use Rattle.path_runs.specs.runs.Story.{path, points};
ghost use Rattle.path_runs.specs.runs.Stored.{row_after, path_row, IsOfBranch};

/// In every run, each key has a version at each node, up or down, and its row there is what the operations on it left that
/// lie on the path of that version: a put, a deletion and a compare-and-set that swapped leave their timestamp as the row's
/// recency, a read and one that did not swap change nothing, and a deleted key keeps a row without a value. At the
/// node that leads the key's shard, and so at the one that serves the key, these are all operations on the path of the
/// key's branch.
pub fn rows_of_runs()
    ensures versions { (setup : SetupState) → IsSetup setup → (past : List Entry) → IsRun setup past
        → (n : ℕ) (key : List ℕ) → is_some (version_of (state setup n past).versions key) ≡ true }
    ensures rows { (setup : SetupState) → IsSetup setup → (past : List Entry) → IsRun setup past
        → (n : ℕ) (key : List ℕ) (version : Version) → version_of (state setup n past).versions key ≡ Some version
        → row_of (state setup n past).rows key ≡ path_row setup past key version }
    ensures leading { (setup : SetupState) → IsSetup setup → (past : List Entry) → IsRun setup past
        → (n : ℕ) (key : List ℕ) → list_any (λ s. is_led n s && has_key s.region setup.hashes key) setup.shards ≡ true
        → row_of (state setup n past).rows key ≡ row_after None (path setup past key) }
    ensures served { (setup : SetupState) → IsSetup setup → (past : List Entry) → IsRun setup past
        → (n : ℕ) (key : List ℕ) → serves (state setup n past) key ≡ true
        → row_of (state setup n past).rows key ≡ row_after None (path setup past key) }
{}

/// In every run, each version of a key at a node is zero, or of a branch that is registered in the table that the journal
/// tells, whose region has the key, and not before the branch began. The table began with it, a primary made it by the first
/// sync of a branch that it started, or an operation took it.
pub fn versions_of_runs()
    ensures { (setup : SetupState) → IsSetup setup → (past : List Entry) → IsRun setup past
        → (n : ℕ) (key : List ℕ) (version : Version) → version_of (state setup n past).versions key ≡ Some version
        → (version ≡ zero) ⊎ IsOfBranch (points past) (told_table setup past) setup.hashes key version }
{}
