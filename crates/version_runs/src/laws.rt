//! Versions and timestamps, wherever they stand in a run. Nodes tick, go down and come up, and messages come in any order,
//! again and again, or never.
ghost use Rattle.std.specs.Prelude.{◌≡◌, ◌⊎◌, ◌<◌, ℕ, List, Some, true, ◌∷◌, ◌++◌};
ghost use Rattle.path_runs.specs.runs.region_map.declared.id.Id.{Id};
ghost use Rattle.path_runs.specs.runs.region_map.Keys.{hash_of};
ghost use Rattle.path_runs.specs.runs.branch_history.declared.version.Version.{Version};
ghost use Rattle.path_runs.specs.runs.branch_history.declared.history.BranchBirth.{BranchBirth};
ghost use Rattle.path_runs.specs.runs.branch_history.Histories.{birth_of, IsInTime};
ghost use Rattle.path_runs.specs.runs.raft_vote.declared.log.LogEntry.{LogEntry};
ghost use Rattle.path_runs.specs.runs.contract_types.Setup.{SetupState, IsSetup};
ghost use Rattle.path_runs.specs.runs.contract_types.declared.change.Change.{Change};
ghost use Rattle.path_runs.specs.runs.table_log.Logs.{table_of};
ghost use Rattle.path_runs.specs.runs.store_api.Rows.{has_key};
ghost use Rattle.path_runs.specs.runs.store_api.Versions.{version_of};
ghost use Rattle.path_runs.specs.runs.secondary_exec.declared.following.Following.{Following};
ghost use Rattle.path_runs.specs.runs.node_core.declared.journal.Entry.{Entry};
ghost use Rattle.path_runs.specs.runs.declared.envelope.Envelope.{Envelope};
ghost use Rattle.path_runs.specs.runs.Latest.{told_table};
ghost use Rattle.path_runs.specs.runs.Run.{IsRun, state, sent};
ghost use Rattle.path_runs.specs.runs.Story.{IsIn};
ghost use Rattle.version_runs.specs.Carried.{Carries, IsInSession, GivesOrigin};
ghost use Rattle.version_runs.specs.Origins.{BeginsAnew, HadOrigin};
ghost use Rattle.version_runs.specs.Takings.{Takes};
ghost use Rattle.version_runs.specs.Traced.{IsPointOf, IsTraced};

/// In every run, the timestamps of a branch, those of syncs too, are taken by its maker alone, in the life in which it made
/// the branch, and they rise: of two that are taken in different steps the later one is greater, and a step takes no
/// two of one branch.
pub fn sync_makers_of_runs()
    ensures node { (setup : SetupState) → IsSetup setup → (past : List Entry) → IsRun setup past
        → (later earlier : List Entry) (e : Entry) → past ≡ later ++ e ∷ earlier
        → (branch : Id) (at : ℕ) → Takes setup earlier e branch at → branch.node ≡ e.node }
    ensures life { (setup : SetupState) → IsSetup setup → (past : List Entry) → IsRun setup past
        → (later earlier : List Entry) (e : Entry) → past ≡ later ++ e ∷ earlier
        → (branch : Id) (at : ℕ) → Takes setup earlier e branch at
        → branch.life ≡ (state setup e.node.0 (e ∷ earlier)).life }
    ensures rise { (setup : SetupState) → IsSetup setup → (past : List Entry) → IsRun setup past
        → (later between earlier : List Entry) (e d : Entry) → past ≡ later ++ e ∷ (between ++ d ∷ earlier)
        → (branch : Id) (first second : ℕ) → Takes setup earlier d branch first
        → Takes setup (between ++ d ∷ earlier) e branch second → first < second }
    ensures one { (setup : SetupState) → IsSetup setup → (past : List Entry) → IsRun setup past
        → (later earlier : List Entry) (e : Entry) → past ≡ later ++ e ∷ earlier
        → (branch : Id) (first second : ℕ) → Takes setup earlier e branch first → Takes setup earlier e branch second
        → first ≡ second }
{}

/// In every run, each version in a store, in a message that was sent and in a change of a log is zero, or of a branch that
/// its maker started, at the branch's initial timestamp or at one that was taken, and so is the point to which a secondary
/// came in its session. As each beginning of a run is a run, the branch was started and the timestamp taken by the time
/// at which the version is there. A message of a session is of one that was there, and its timestamps are those of the
/// branch that the session brings.
pub fn versions_in_messages_of_runs()
    ensures stores { (setup : SetupState) → IsSetup setup → (past : List Entry) → IsRun setup past
        → (n : ℕ) (key : List ℕ) (version : Version) → version_of (state setup n past).versions key ≡ Some version
        → IsTraced setup past version }
    ensures followings { (setup : SetupState) → IsSetup setup → (past : List Entry) → IsRun setup past
        → (n : ℕ) (f : Following) → IsIn (state setup n past).followings f → IsPointOf setup past f.branch f.position }
    ensures messages { (setup : SetupState) → IsSetup setup → (past : List Entry) → IsRun setup past
        → (m : Envelope) → IsIn (sent past) m → (version : Version) → Carries setup past m.message version
        → IsTraced setup past version }
    ensures sessions { (setup : SetupState) → IsSetup setup → (past : List Entry) → IsRun setup past
        → (m : Envelope) → IsIn (sent past) m → IsInSession setup past m.message }
    ensures logs { (setup : SetupState) → IsSetup setup → (past : List Entry) → IsRun setup past
        → (n : ℕ) (e : LogEntry Change) → IsIn (state setup n past).log.raft.log e
        → (version : Version) → GivesOrigin e.change version → IsTraced setup past version }
{}

/// In every run, histories are in time at each key: in the table that the journal tells, and in that of each node, the
/// version from which a branch goes on is zero, or of an older branch that has the key, at or above that one's initial
/// timestamp, and it is not later than the new branch's own initial timestamp. It is one that the branch's maker had; only
/// the branches with which the table began go on from nothing.
pub fn histories_in_time_of_runs()
    ensures told { (setup : SetupState) → IsSetup setup → (past : List Entry) → IsRun setup past
        → (key : List ℕ) → IsInTime (told_table setup past).history (hash_of key setup.hashes) key }
    ensures tables { (setup : SetupState) → IsSetup setup → (past : List Entry) → IsRun setup past
        → (key : List ℕ) (n : ℕ) → n < setup.nodes
        → IsInTime (table_of (state setup n past).log).history (hash_of key setup.hashes) key }
    ensures had { (setup : SetupState) → IsSetup setup → (past : List Entry) → IsRun setup past
        → (key : List ℕ) (branch : Id) (birth : BranchBirth) → birth_of (told_table setup past).history branch ≡ Some birth
        → has_key birth.region setup.hashes key ≡ true → BeginsAnew setup branch birth key ⊎ HadOrigin setup past branch birth key }
{}
