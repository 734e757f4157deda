//! Where each change of a log comes from, in a run. Nodes tick, go down and come up, and messages come in any order, again and
//! again, or never.
ghost use Rattle.std.specs.Prelude.{◌≡◌, ℕ, List};
ghost use Rattle.log_runs.specs.runs.contract_types.Setup.{SetupState, IsSetup};
ghost use Rattle.log_runs.specs.runs.contract_types.Tables.{first_contracts};
ghost use Rattle.log_runs.specs.runs.table_log.Logs.{table_of};
ghost use Rattle.log_runs.specs.runs.node_core.declared.journal.Entry.{Entry};
ghost use Rattle.log_runs.specs.runs.Run.{IsRun, state};

/// In every run, the contracts of each node's table are those with which the table began. (nothing but the registering of
/// branches is proposed so far)
pub fn contracts_of_runs()
    ensures { (setup : SetupState) → IsSetup setup → (past : List Entry) → IsRun setup past
        → (n : ℕ) → (table_of (state setup n past).log).contracts ≡ first_contracts 0 setup.shards }
{}
