//! A law of the table that a node acts on.
ghost use Rattle.std.specs.Prelude.{ℕ, List};
ghost use Rattle.list_laws.specs.Members.{IsIn};
ghost use Rattle.runs.specs.region_map.declared.id.Id.{Id};
ghost use Rattle.runs.specs.branch_history.declared.history.BranchBirth.{BranchBirth};
ghost use Rattle.runs.specs.contract_types.declared.change.Change.{Change};
ghost use Rattle.runs.specs.contract_types.Configs.{ConfigState};
ghost use Rattle.runs.specs.table_apply.Runs.{table_at};
ghost use Rattle.step_laws.specs.Begins.{IsGreatest};

/// A branch begins at the greatest timestamp of the versions that it goes on from, or at 0.
pub fn branches_begin_at_their_greatest_origin()
    ensures { (config : ConfigState) (changes : List Change) (w : ℕ) (b : Id × BranchBirth)
        → IsIn (table_at config changes w).history b → IsGreatest b.1.initial b.1.origin.pieces }
{}
