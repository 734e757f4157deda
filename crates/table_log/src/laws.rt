//! What holds of every log and its table: each the contract of a function that does nothing.
ghost use Rattle.std.specs.Prelude.{◌≡◌, ◌+◌, ◌-◌, ◌<◌, ◌≤◌, ℕ, true, [], ◌++◌, List, length, take, slice_get, Some, None};
ghost use Rattle.raft_node.specs.declared.input.RaftInput.{RaftInput};
ghost use Rattle.contract_types.specs.declared.change.Change.{Change};
ghost use Rattle.contract_types.specs.Configs.{ConfigState};
ghost use Rattle.table_apply.specs.Runs.{table_at};
ghost use Rattle.region_map.specs.declared.id.NodeId.{NodeId};
ghost use Rattle.table_log.specs.Fitting.{changes_of, fits, log_fits, sent_fits};
ghost use Rattle.table_log.specs.Logs.{LogState, table_of, begun_log, restarted, may_take, log_step, with_proposed, result_at, results_from, results, caught_up, viewed};

/// After catching up the table is that of the log up to the view, and there is nothing to act on.
pub fn catching_up_ends()
    ensures table { (s : LogState) → table_of (caught_up s) ≡ table_at s.config (changes_of s.raft.log) s.raft.view }
    ensures nothing { (s : LogState) → viewed (caught_up s) ≡ None }
    ensures results { (s : LogState) → results (caught_up s) ≡ [] }
{}

/// The results are those of the indices behind the one that was acted on, in order; and acting in two parts gives
/// the results of acting at once.
pub fn results_come_in_order()
    ensures count { (s : LogState) → length (results s) ≡ s.raft.view - s.acted }
    ensures each { (s : LogState) (k : ℕ) → k < s.raft.view - s.acted
        → slice_get (results s) k ≡ Some (result_at s.config (changes_of s.raft.log) (s.acted + k)) }
    ensures parts { (config : ConfigState) (changes : List Change) (first m n : ℕ)
        → results_from config changes first (m + n) ≡ results_from config changes first m ++ results_from config changes (first + m) n }
{}

/// What a node acted on stays in its log, so that its table stays, whatever the log is given.
pub fn steps_keep_the_table()
    ensures steps { (s : LogState) (input : RaftInput Change) → s.acted ≤ s.raft.view → s.raft.view ≤ length s.raft.log
        → may_take s input ≡ true → table_of (log_step s input).log ≡ table_of s }
    ensures proposals { (s : LogState) (change : Change) → s.acted ≤ s.raft.view → s.raft.view ≤ length s.raft.log
        → table_of (with_proposed s change) ≡ table_of s }
    ensures restarts { (s : LogState) → table_of (restarted s) ≡ table_of s }
{}

/// A table follows from what its log has up to there. So of two logs that agree up to what the one acted on, its
/// table is the one that the other had there.
pub fn tables_follow_from_a_prefix()
    ensures changes { (config : ConfigState) (xs ys : List Change) (a : ℕ) → take a xs ≡ take a ys
        → table_at config xs a ≡ table_at config ys a }
    ensures logs { (s t : LogState) → s.config ≡ t.config → take s.acted s.raft.log ≡ take s.acted t.raft.log
        → table_of s ≡ table_at t.config (changes_of t.raft.log) s.acted }
{}

/// A log holds and sends changes that fit its table alone, as long as it is given such changes.
pub fn logs_stay_fitting()
    ensures begins { (config : ConfigState) (me : NodeId) → log_fits config.hashes (begun_log config me).raft.log ≡ true }
    ensures steps { (s : LogState) (input : RaftInput Change) → log_fits s.config.hashes s.raft.log ≡ true → may_take s input ≡ true
        → log_fits s.config.hashes (log_step s input).log.raft.log ≡ true }
    ensures sends { (s : LogState) (input : RaftInput Change) → log_fits s.config.hashes s.raft.log ≡ true
        → sent_fits s.config.hashes (log_step s input).sent ≡ true }
    ensures proposals { (s : LogState) (change : Change) → log_fits s.config.hashes s.raft.log ≡ true → fits s.config.hashes change ≡ true
        → log_fits s.config.hashes (with_proposed s change).raft.log ≡ true }
{}
