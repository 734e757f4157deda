//! Paths of a key, in a run. Nodes tick, go down and come up, and messages come in any order, again and
//! again, or never.
ghost use Rattle.std.specs.Prelude.{◌≡◌, ◌<◌, ℕ, List, Some, true, ◌≢◌, ◌∷◌, ◌++◌};
ghost use Rattle.id_runs.specs.runs.contract_types.Setup.{SetupState, IsSetup};
ghost use Rattle.id_runs.specs.runs.node_core.declared.journal.Entry.{Entry};
ghost use Rattle.id_runs.specs.runs.Run.{IsRun, state};
ghost use Rattle.id_runs.specs.runs.Story.{IsRegisterStory, story, answer, Point, IsIn, points, path, same_key};
ghost use Rattle.id_runs.specs.runs.region_map.Keys.{hash_of};
ghost use Rattle.id_runs.specs.runs.region_map.Maps.{value_at};
ghost use Rattle.id_runs.specs.runs.branch_history.declared.version.Version.{Version};
ghost use Rattle.id_runs.specs.runs.branch_history.declared.history.BranchBirth.{BranchBirth};
ghost use Rattle.id_runs.specs.runs.branch_history.Paths.{Branches, is_on};
ghost use Rattle.id_runs.specs.runs.branch_history.Histories.{knows, birth_of};
ghost use Rattle.id_runs.specs.runs.store_api.Rows.{has_key};
ghost use Rattle.id_runs.specs.runs.store_api.Versions.{point, version_of};
ghost use Rattle.id_runs.specs.runs.primary_exec.declared.asking.Asking.{Asking};
ghost use Rattle.id_runs.specs.runs.table_log.Logs.{table_of};
ghost use Rattle.id_runs.specs.runs.StoryOrder.{IsStoryInOrder};
ghost use Rattle.id_runs.specs.runs.Latest.{told_table};
ghost use Rattle.id_runs.specs.runs.DonePoints.{IsDoneAt, StaysIn, StaysInAll, is_before_on, Starts};

/// In every run, each key's story is a register story.
pub fn stories_of_runs()
    ensures { (setup : SetupState) → IsSetup setup → (past : List Entry) → IsRun setup past
        → (key : List ℕ) → IsRegisterStory setup past key (story setup past key) }
{}

/// In every run, each key's story is told in the order of the path: each of its points lies on the path of every later one.
pub fn stories_in_path_order()
    ensures { (setup : SetupState) → IsSetup setup → (past : List Entry) → IsRun setup past
        → (key : List ℕ) → IsStoryInOrder setup past key }
{}

/// In every run, what was answered stays: each branch that was registered after the branch of a done operation's point, and
/// that has its key, goes on from that point, whenever the answer came; in the table that the journal tells, and in that
/// of each node. So the point is on the path of the key's current branch.
pub fn answered_points_stay()
    ensures told { (setup : SetupState) → IsSetup setup → (past : List Entry) → IsRun setup past
        → (q : Point) → IsDoneAt past q → StaysIn setup.hashes (told_table setup past).history q }
    ensures whole { (setup : SetupState) → IsSetup setup → (past : List Entry) → IsRun setup past
        → (q : Point) → IsDoneAt past q → StaysInAll setup.hashes (told_table setup past).history q }
    ensures tables { (setup : SetupState) → IsSetup setup → (past : List Entry) → IsRun setup past
        → (q : Point) → IsDoneAt past q → (n : ℕ) → n < setup.nodes → StaysIn setup.hashes (table_of (state setup n past).log).history q }
    ensures on_path { (setup : SetupState) → IsSetup setup → (past : List Entry) → IsRun setup past
        → (q : Point) → IsDoneAt past q → IsIn (path setup past q.key) q }
{}

/// In every run, the operations on one key take its points in the order of the path: each point is on the path of every
/// point of the key that is taken later, and what is on the path of a point, and is another one, was taken earlier.
pub fn paths_of_runs()
    ensures on_path { (setup : SetupState) → IsSetup setup → (past : List Entry) → IsRun setup past
        → (first later : List Point) (q : Point) → points past ≡ first ++ q ∷ later
        → (p : Point) → IsIn first p → same_key p.key q.key ≡ true
        → is_before_on setup.hashes (told_table setup past).history p q ≡ true }
    ensures earlier { (setup : SetupState) → IsSetup setup → (past : List Entry) → IsRun setup past
        → (first later : List Point) (q : Point) → points past ≡ first ++ q ∷ later
        → (p : Point) → IsIn (points past) p → same_key p.key q.key ≡ true → p ≢ q
        → is_before_on setup.hashes (told_table setup past).history p q ≡ true → IsIn first p }
{}

/// In every run, a primary starts a branch from its own versions, and has in them what was answered: as the step begins in
/// which it starts, its version of each key of the region is the one from which the branch was registered to go on, and
/// each done operation's point on the key, of a branch that was registered before this one, is on the path of that version,
/// whenever the answer came.
pub fn starts_have_answered_points()
    ensures from { (setup : SetupState) → IsSetup setup → (past : List Entry) (e : Entry) → IsRun setup (e ∷ past)
        → (a : Asking) → Starts setup past e a → (key : List ℕ) → has_key a.contract.region setup.hashes key ≡ true
        → (birth : BranchBirth) × (birth_of (table_of (state setup e.node.0 (e ∷ past)).log).history a.branch ≡ Some birth)
        × (value_at birth.origin.pieces (hash_of key setup.hashes) key ≡ version_of (state setup e.node.0 past).versions key) }
    ensures answered { (setup : SetupState) → IsSetup setup → (past : List Entry) → IsRun setup past
        → (later earlier : List Entry) (e : Entry) → past ≡ later ++ e ∷ earlier → (a : Asking) → Starts setup earlier e a
        → (q : Point) → IsDoneAt past q → has_key a.contract.region setup.hashes q.key ≡ true
        → (newer older : Branches) (birth : BranchBirth) → (told_table setup past).history ≡ newer ++ (a.branch, birth) ∷ older
        → knows older q.branch ≡ true
        → (version : Version) → version_of (state setup e.node.0 earlier).versions q.key ≡ Some version
        → is_on older (hash_of q.key setup.hashes) q.key version (point q.branch q.timestamp) ≡ true }
{}
