//! Which nodes hold what was done, over every run: nodes tick, go down and come up, and messages come in any order, again and
//! again, or never.
ghost use Rattle.std.specs.Prelude.{◌≡◌, ◌<◌, ◌*◌, ℕ, List, ◌++◌, Some, true, length, count_by};
ghost use Rattle.row_runs.specs.runs.contract_types.declared.config.ShardConfig.{ShardConfig};
ghost use Rattle.row_runs.specs.runs.contract_types.declared.counts.Counts.{Counts};
ghost use Rattle.row_runs.specs.runs.contract_types.Setup.{SetupState, IsSetup};
ghost use Rattle.row_runs.specs.runs.register_laws.declared.operation.OpId.{OpId};
ghost use Rattle.row_runs.specs.runs.exec_types.declared.outcome.Outcome.TheVariants.{NoMajority};
ghost use Rattle.row_runs.specs.runs.store_api.Rows.{has_key};
ghost use Rattle.row_runs.specs.runs.node_core.declared.journal.Entry.{Entry};
ghost use Rattle.row_runs.specs.runs.Run.{IsRun};
ghost use Rattle.row_runs.specs.runs.Story.{Point, IsIn, points, answer};
ghost use Rattle.row_runs.specs.runs.DonePoints.{IsDoneAt};
ghost use Rattle.durability_laws.specs.Counted.{LacksMajority};
ghost use Rattle.durability_laws.specs.Held.{holds};

/// In every run, more than half of the voters of a key's shard hold each done operation's point on the key: their versions of
/// the key have it on their paths, in nodes that are up and in nodes that are down. As what a run begins with is a run too, so
/// it is at each moment from the answer on. And a node that holds a point goes on holding it, whether it is a voter or not.
pub fn done_points_are_held()
    ensures majority { (setup : SetupState) → IsSetup setup → (past : List Entry) → IsRun setup past
        → (q : Point) → IsDoneAt past q → (shard : ShardConfig) → IsIn setup.shards shard → has_key shard.region setup.hashes q.key ≡ true
        → length shard.voters < 2 * count_by (holds setup past q) shard.voters }
    ensures lasts { (setup : SetupState) → IsSetup setup → (past : List Entry) → IsRun setup past
        → (later earlier : List Entry) → past ≡ later ++ earlier → (q : Point) → IsIn (points earlier) q
        → (node : ℕ) → holds setup earlier q node ≡ true → holds setup past q node ≡ true }
{}

/// In every run, "no majority" is answered only with counts that are none: twice the counted voters are at most all voters,
/// or so it is with the temporary voters where these are set.
pub fn give_ups_lack_a_majority()
    ensures { (setup : SetupState) → IsSetup setup → (past : List Entry) → IsRun setup past
        → (op : OpId) (counts : Counts) → answer past op ≡ Some (NoMajority counts) → LacksMajority counts }
{}
