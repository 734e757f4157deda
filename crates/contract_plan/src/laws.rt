//! What holds of every plan: each the contract of a function that does nothing.
ghost use Rattle.std.specs.Prelude.{◌≡◌, ℕ, true, false, Some, Option, if◌then◌else◌};
ghost use Rattle.std.specs.List.{Contains};
ghost use Rattle.region_map.specs.declared.id.Id.{Id};
ghost use Rattle.region_map.specs.declared.id.NodeId.{NodeId};
ghost use Rattle.region_map.specs.declared.region.Region.{Region};
ghost use Rattle.region_map.specs.Maps.{Pieced};
ghost use Rattle.branch_history.specs.declared.version.Version.{Version};
ghost use Rattle.branch_history.specs.Histories.{knows, knows_origins};
ghost use Rattle.contract_types.specs.declared.ack.Ack.{Ack};
ghost use Rattle.contract_types.specs.declared.change.Change.{Change};
ghost use Rattle.contract_types.specs.declared.change.Change.TheVariants.{RegisterBranch};
ghost use Rattle.contract_types.specs.declared.contract.Contract.{Contract};
ghost use Rattle.contract_types.specs.declared.applied.Applied.TheVariants.{Taken, Skipped};
ghost use Rattle.contract_types.specs.declared.applied.Condition.TheVariants.{IdNew, BasedOn};
ghost use Rattle.contract_types.specs.Tables.{Table};
ghost use Rattle.table_apply.specs.Conditions.{has_tenure, is_based_on};
ghost use Rattle.table_apply.specs.Effects.{applied_at};
ghost use Rattle.contract_plan.specs.declared.plans.Plan.TheVariants.{Propose};
ghost use Rattle.contract_plan.specs.Plans.{plan_of, rests_on};

/// A branch that is planned for a contract of a table is due in that table: it has the contract's tenure, and it is
/// new. So the table takes it, unless the current branches are not those that the primary knew, or the branch goes on
/// from one that is not registered.
pub fn plans_are_due()
    ensures tenure { (t : Table) (c : Contract) (acks : NodeId → Option Ack)
        (branch : Id) (region : Region) (tenure : ℕ) (maker : NodeId) (based_on : Pieced Id) (origin : Pieced Version)
        → Contains t.contracts c → plan_of c t acks ≡ Propose (RegisterBranch branch region tenure maker based_on origin)
        → has_tenure t.contracts region tenure maker ≡ true }
    ensures new { (t : Table) (c : Contract) (acks : NodeId → Option Ack)
        (branch : Id) (region : Region) (tenure : ℕ) (maker : NodeId) (based_on : Pieced Id) (origin : Pieced Version)
        → plan_of c t acks ≡ Propose (RegisterBranch branch region tenure maker based_on origin) → knows t.history branch ≡ false }
    ensures applied { (t : Table) (c : Contract) (acks : NodeId → Option Ack) (index : ℕ)
        (branch : Id) (region : Region) (tenure : ℕ) (maker : NodeId) (based_on : Pieced Id) (origin : Pieced Version)
        → Contains t.contracts c → plan_of c t acks ≡ Propose (RegisterBranch branch region tenure maker based_on origin)
        → (applied_at t index (RegisterBranch branch region tenure maker based_on origin)).applied
        ≡ (if is_based_on t.config.hashes t.history region based_on
        then (if knows_origins t.history origin.pieces then Taken else Skipped IdNew)
        else Skipped BasedOn) }
{}

/// A plan that proposes rests on the last ack of a server, and an ack that a plan would rest on makes it propose.
pub fn plans_rest_on_an_ack()
    ensures rests { (c : Contract) (t : Table) (acks : NodeId → Option Ack) (change : Change) → plan_of c t acks ≡ Propose change
        → (server : NodeId) × (ack : Ack) × (acks server ≡ Some ack) × (rests_on c t.history server ack ≡ true) }
    ensures proposes { (c : Contract) (t : Table) (acks : NodeId → Option Ack) (server : NodeId) (ack : Ack)
        → acks server ≡ Some ack → rests_on c t.history server ack ≡ true → (change : Change) × (plan_of c t acks ≡ Propose change) }
{}
