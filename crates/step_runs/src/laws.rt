//! What one step adds to a run: its points, answers and outputs, and the timestamps of a branch over all of them. Nodes tick, go down and come up, and messages come in any order, again and
//! again, or never.
ghost use Rattle.std.specs.Prelude.{List};
ghost use Rattle.std.specs.List.{AllByRecursion};
ghost use Rattle.runs.specs.contract_types.Setup.{SetupState, IsSetup};
ghost use Rattle.runs.specs.node_core.declared.journal.Entry.{Entry};
ghost use Rattle.runs.specs.Run.{IsRun};
ghost use Rattle.runs.specs.Story.{points};
ghost use Rattle.runs.specs.Rising.{AreRising, IsOfLife};

/// In every run, the timestamps of one branch rise in the order in which operations take them: none is taken twice, over
/// crashes and restarts too. And each branch that an operation took a point of was made by a node in a life that it has
/// had.
pub fn points_of_runs()
    ensures rise { (setup : SetupState) → IsSetup setup → (past : List Entry) → IsRun setup past → AreRising (points past) }
    ensures lives { (setup : SetupState) → IsSetup setup → (past : List Entry) → IsRun setup past
        → AllByRecursion (IsOfLife setup past) (points past) }
{}
