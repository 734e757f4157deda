//! Answers, and who serves, in a run. Nodes tick, go down and come up, and messages come in any order, again and
//! again, or never.
ghost use Rattle.std.specs.Prelude.{◌≡◌, ◌≤◌, ℕ, List, Some, false};
ghost use Rattle.path_runs.specs.runs.region_map.declared.id.Id.{Id};
ghost use Rattle.path_runs.specs.runs.contract_types.Setup.{SetupState, IsSetup};
ghost use Rattle.path_runs.specs.runs.register_laws.declared.operation.OpId.{OpId};
ghost use Rattle.path_runs.specs.runs.register_laws.declared.operation.Reply.{Reply};
ghost use Rattle.path_runs.specs.runs.contract_types.declared.counts.Counts.{Counts};
ghost use Rattle.path_runs.specs.runs.exec_types.declared.outcome.Outcome.TheVariants.{Done, NotServing, NoMajority};
ghost use Rattle.path_runs.specs.runs.node_core.declared.journal.Entry.{Entry};
ghost use Rattle.path_runs.specs.runs.node_core.Step.{serves};
ghost use Rattle.path_runs.specs.runs.Run.{IsRun, state};
ghost use Rattle.path_runs.specs.runs.Story.{answer, points};
ghost use Rattle.path_runs.specs.runs.DonePoints.{Took};
ghost use Rattle.path_runs.specs.runs.Served.{IsNotServed};
ghost use Rattle.path_runs.specs.runs.Serving.{is_served_by};
ghost use Rattle.path_runs.specs.runs.GivenUp.{IsGivenUp};
ghost use Rattle.path_runs.specs.runs.Answers.{answers_to};
ghost use Rattle.path_runs.specs.runs.write_dispatch.Dispatch.{are_majorities};

/// In every run, "not serving" is answered exactly where the node that was asked was not to serve the key as it took the
/// request, by its own table, its life and the contract's tenure.
pub fn refusals_of_runs()
    ensures only { (setup : SetupState) → IsSetup setup → (past : List Entry) → IsRun setup past
        → (op : OpId) → answer past op ≡ Some NotServing → IsNotServed setup past op }
    ensures always { (setup : SetupState) → IsSetup setup → (past : List Entry) → IsRun setup past
        → (op : OpId) → IsNotServed setup past op → answer past op ≡ Some NotServing }
{}

/// In every run, "no majority" is answered only where the operation was given up while it was pending, with the counts
/// that it then had, and these are no majorities.
pub fn give_ups_of_runs()
    ensures given_up { (setup : SetupState) → IsSetup setup → (past : List Entry) → IsRun setup past
        → (op : OpId) (counts : Counts) → answer past op ≡ Some (NoMajority counts) → IsGivenUp setup past op counts }
    ensures short { (setup : SetupState) → IsSetup setup → (past : List Entry) → IsRun setup past
        → (op : OpId) (counts : Counts) → answer past op ≡ Some (NoMajority counts) → are_majorities counts ≡ false }
{}

/// In every run, an operation that is answered "done" took the point that its answer names: the timestamp of the branch.
pub fn done_answers_name_points()
    ensures { (setup : SetupState) → IsSetup setup → (past : List Entry) → IsRun setup past
        → (op : OpId) (reply : Reply) (branch : Id) (timestamp : ℕ) → answer past op ≡ Some (Done reply branch timestamp)
        → Took (points past) op branch timestamp }
{}

/// In every run, an operation is answered at most once.
pub fn single_answers_of_runs()
    ensures { (setup : SetupState) → IsSetup setup → (past : List Entry) → IsRun setup past
        → (op : OpId) → answers_to past op ≤ 1 }
{}

/// In every run, a node serves a key exactly where it is up, a contract of its table has the key and names it as the
/// primary with no hand-over, and it made the key's current branch in its present life and in the contract's tenure.
pub fn serving_of_runs()
    ensures { (setup : SetupState) → IsSetup setup → (past : List Entry) → IsRun setup past
        → (n : ℕ) (key : List ℕ) → serves (state setup n past) key ≡ is_served_by (state setup n past) key }
{}
