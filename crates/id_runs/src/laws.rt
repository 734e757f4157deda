//! The ids that nodes draw, and who takes the points of a branch, in a run. Nodes tick, go down and come up, and messages come in any order, again and
//! again, or never.
ghost use Rattle.std.specs.Prelude.{◌≡◌, ℕ, List, ◌∷◌, ◌++◌, false};
ghost use Rattle.lead_runs.specs.runs.region_map.declared.id.Id.{Id};
ghost use Rattle.lead_runs.specs.runs.branch_history.Histories.{knows};
ghost use Rattle.lead_runs.specs.runs.contract_types.Setup.{SetupState, IsSetup};
ghost use Rattle.lead_runs.specs.runs.contract_types.Tables.{setup as table_of};
ghost use Rattle.lead_runs.specs.runs.register_laws.declared.operation.OpId.{OpId};
ghost use Rattle.lead_runs.specs.runs.exec_types.declared.output.Output.TheVariants.{Dispatched};
ghost use Rattle.lead_runs.specs.runs.primary_exec.declared.asking.Asking.{Asking};
ghost use Rattle.lead_runs.specs.runs.secondary_exec.declared.waiting.Waiting.{Waiting};
ghost use Rattle.lead_runs.specs.runs.node_core.declared.journal.Entry.{Entry};
ghost use Rattle.lead_runs.specs.runs.Committed.{IsEarlier};
ghost use Rattle.lead_runs.specs.runs.Run.{IsRun, state};
ghost use Rattle.lead_runs.specs.runs.Story.{IsIn};

/// In every run, the timestamps of a branch are taken by its maker alone, in the life in which it made the branch.
pub fn makers_of_runs()
    ensures node { (setup : SetupState) → IsSetup setup → (past : List Entry) → IsRun setup past
        → (later earlier : List Entry) (e : Entry) → past ≡ later ++ e ∷ earlier
        → (op : OpId) (key : List ℕ) (branch : Id) (timestamp : ℕ) → IsIn e.outputs (Dispatched op key branch timestamp)
        → branch.node ≡ e.node }
    ensures life { (setup : SetupState) → IsSetup setup → (past : List Entry) → IsRun setup past
        → (later earlier : List Entry) (e : Entry) → past ≡ later ++ e ∷ earlier
        → (op : OpId) (key : List ℕ) (branch : Id) (timestamp : ℕ) → IsIn e.outputs (Dispatched op key branch timestamp)
        → branch.life ≡ (state setup e.node.0 earlier).life }
{}

/// In every run, no id is drawn twice. Two requests for a branch under one id, at whatever moments and nodes, are one
/// request of one node in one of its lives, and so are two secondaries that wait to join under one id; no request for a
/// branch has the id of a secondary that waits, or that of a branch with which the table began.
pub fn ids_of_runs()
    ensures branches { (setup : SetupState) → IsSetup setup → (past : List Entry) → IsRun setup past
        → (p q : List Entry) → IsEarlier past p → IsEarlier past q → (n m : ℕ) (a b : Asking)
        → IsIn (state setup n p).asking a → IsIn (state setup m q).asking b → a.branch ≡ b.branch
        → (n ≡ m) × ((state setup n p).life ≡ (state setup m q).life) × (a ≡ b) }
    ensures joins { (setup : SetupState) → IsSetup setup → (past : List Entry) → IsRun setup past
        → (p q : List Entry) → IsEarlier past p → IsEarlier past q → (n m : ℕ) (v w : Waiting)
        → IsIn (state setup n p).waiting v → IsIn (state setup m q).waiting w → v.asked ≡ w.asked
        → (n ≡ m) × ((state setup n p).life ≡ (state setup m q).life) × (v ≡ w) }
    ensures apart { (setup : SetupState) → IsSetup setup → (past : List Entry) → IsRun setup past
        → (p q : List Entry) → IsEarlier past p → IsEarlier past q → (n m : ℕ) (a : Asking) (w : Waiting)
        → IsIn (state setup n p).asking a → IsIn (state setup m q).waiting w → a.branch ≡ w.asked → ⊥ }
    ensures new { (setup : SetupState) → IsSetup setup → (past : List Entry) → IsRun setup past
        → (p : List Entry) → IsEarlier past p → (n : ℕ) (a : Asking)
        → IsIn (state setup n p).asking a → knows (table_of setup).history a.branch ≡ false }
{}
