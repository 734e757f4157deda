//! Decided points in every run. Nodes tick, go down and come up, and messages come in any order, again and again, or never.
ghost use Rattle.std.specs.Prelude.{◌≡◌, ◌⊎◌, ℕ, ◌≤◌, ◌<◌, true, List, ◌∷◌};
ghost use Rattle.path_facts.specs.Runs.{IsMost, StaysReplica, holds};
ghost use Rattle.path_facts.specs.Decided.{DecidedPoint, place, holds_all};
ghost use Rattle.row_runs.specs.runs.branch_history.Paths.{is_on};
ghost use Rattle.row_runs.specs.runs.region_map.Keys.{hash_of};
ghost use Rattle.row_runs.specs.runs.contract_types.Setup.{SetupState, IsSetup};
ghost use Rattle.row_runs.specs.runs.store_api.Versions.{point};
ghost use Rattle.row_runs.specs.runs.table_log.Logs.{table_of};
ghost use Rattle.row_runs.specs.runs.node_core.declared.journal.Entry.{Entry};
ghost use Rattle.row_runs.specs.runs.DonePoints.{IsDoneAt, StaysIn, StaysInAll};
ghost use Rattle.row_runs.specs.runs.Latest.{told_table};
ghost use Rattle.row_runs.specs.runs.Run.{IsRun, state};
ghost use Rattle.row_runs.specs.runs.Story.{Point, IsIn, path};
ghost use Rattle.fact_runs.specs.KeyRuns.{key_run};
ghost use Rattle.decided_runs.specs.Decided.{IsDecided, GoesOnAt};

/// In every run, a point of which it was answered that its operation is done was decided: its branch's maker stood there, in
/// the life in which it made the branch, and so did more than half of the voters.
pub fn done_points_are_decided()
    ensures { (setup : SetupState) → IsSetup setup → (past : List Entry) → IsRun setup past
        → (q : Point) → IsDoneAt past q → IsDecided setup past q }
{}

/// In every run, what is decided stays, operations and syncs alike: each branch that is registered later on the key goes on
/// from it, in the table that the journal tells. Of two decided points of a key one is on the path of the other.
pub fn decided_points_of_runs_stay()
    ensures told { (setup : SetupState) → IsSetup setup → (past : List Entry) → IsRun setup past
        → (key : List ℕ) (d : DecidedPoint (key_run setup past key)) → GoesOnAt setup past key d }
    ensures one_path { (setup : SetupState) → IsSetup setup → (past : List Entry) → IsRun setup past
        → (key : List ℕ) (d e : DecidedPoint (key_run setup past key))
        → (is_on (told_table setup past).history (hash_of key setup.hashes) key (point d.birth.branch d.timestamp) (point e.birth.branch e.timestamp) ≡ true)
        ⊎ (is_on (told_table setup past).history (hash_of key setup.hashes) key (point e.birth.branch e.timestamp) (point d.birth.branch d.timestamp) ≡ true) }
{}

/// In every run, what is decided is held. At the end more than half of the voters of the key's last contract hold all that is
/// decided on the key, up or down; and a node that holds a decided point goes on holding it while it is a replica by its own
/// table.
pub fn decided_points_of_runs_are_held()
    ensures majority { (setup : SetupState) → IsSetup setup → (past : List Entry) → IsRun setup past
        → (key : List ℕ) (d : DecidedPoint (key_run setup past key)) (ds : List (DecidedPoint (key_run setup past key)))
        → IsMost (holds_all (key_run setup past key) (d ∷ ds)) ((key_run setup past key).contract (key_run setup past key).last).voters }
    ensures lasts { (setup : SetupState) → IsSetup setup → (past : List Entry) → IsRun setup past
        → (key : List ℕ) (d : DecidedPoint (key_run setup past key))
        → (node m n : ℕ) → m ≤ n → StaysReplica (key_run setup past key) node m n
        → holds (key_run setup past key) (place (key_run setup past key) d) m node ≡ true
        → holds (key_run setup past key) (place (key_run setup past key) d) n node ≡ true }
{}

/// In every run, what was answered stays, since it is decided. This says what `answered_points_stay` says, and rests on
/// nothing but the facts of one key and on what is decided.
pub fn done_points_stay()
    ensures told { (setup : SetupState) → IsSetup setup → (past : List Entry) → IsRun setup past
        → (q : Point) → IsDoneAt past q → StaysIn setup.hashes (told_table setup past).history q }
    ensures whole { (setup : SetupState) → IsSetup setup → (past : List Entry) → IsRun setup past
        → (q : Point) → IsDoneAt past q → StaysInAll setup.hashes (told_table setup past).history q }
    ensures tables { (setup : SetupState) → IsSetup setup → (past : List Entry) → IsRun setup past
        → (q : Point) → IsDoneAt past q → (n : ℕ) → n < setup.nodes → StaysIn setup.hashes (table_of (state setup n past).log).history q }
    ensures on_path { (setup : SetupState) → IsSetup setup → (past : List Entry) → IsRun setup past
        → (q : Point) → IsDoneAt past q → IsIn (path setup past q.key) q }
{}
