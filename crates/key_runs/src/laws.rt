//! All operations on one key, in a run. Nodes tick, go down and come up, and messages come in any order, again and
//! again, or never.
ghost use Rattle.std.specs.Prelude.{List, IsTrue};
ghost use Rattle.change_runs.specs.runs.contract_types.Setup.{SetupState, IsSetup};
ghost use Rattle.change_runs.specs.runs.register_laws.declared.operation.OpId.{OpId};
ghost use Rattle.change_runs.specs.runs.node_core.declared.journal.Entry.{Entry};
ghost use Rattle.change_runs.specs.runs.Run.{IsRun, is_requested};
ghost use Rattle.change_runs.specs.runs.Story.{is_answered};

/// In every run, an operation that was answered was requested.
pub fn answers_of_runs()
    ensures { (setup : SetupState) → IsSetup setup → (past : List Entry) → IsRun setup past
        → (op : OpId) → IsTrue (is_answered past op) → IsTrue (is_requested past op) }
{}
