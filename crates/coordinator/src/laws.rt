//! What holds of all acks: each the contract of a function that does nothing.
ghost use Rattle.std.specs.Prelude.{◌≡◌, ◌==◌, ◌&&◌, false, List, [], Some, if◌then◌else◌};
ghost use Rattle.std.specs.List.{Contains};
ghost use Rattle.region_map.specs.declared.id.Id.{Id};
ghost use Rattle.region_map.specs.declared.id.NodeId.{NodeId};
ghost use Rattle.region_map.specs.Equal.{same_id};
ghost use Rattle.contract_types.specs.declared.ack.Ack.{Ack};
ghost use Rattle.contract_types.specs.declared.change.Change.{Change};
ghost use Rattle.contract_types.specs.declared.contract.Contract.{Contract};
ghost use Rattle.contract_types.specs.Tables.{Table};
ghost use Rattle.contract_plan.specs.declared.plans.Plan.TheVariants.{Keep, Propose};
ghost use Rattle.contract_plan.specs.Plans.{plan_of};
ghost use Rattle.coordinator.specs.declared.acks.ContractAcks.{ContractAcks};
ghost use Rattle.coordinator.specs.Acks.{with_ack, ack_of};
ghost use Rattle.coordinator.specs.Proposals.{is_used, proposals_of, after_proposals};

/// After a server sent an ack, that is its last one under the contract's id, and all others are as before.
pub fn the_last_ack_is_kept()
    ensures { (acks : List ContractAcks) (contract : Id) (server : NodeId) (ack : Ack) (id : Id) (node : NodeId)
        → ack_of (with_ack contract server ack acks) id node
        ≡ (if same_id contract id && (server.0 == node.0) then Some ack else ack_of acks id node) }
{}

/// Each change that is proposed is the plan for a contract of the table, by the acks under the contract's own id.
pub fn proposals_are_planned()
    ensures { (acks : List ContractAcks) (t : Table) (change : Change) → Contains (proposals_of acks t) change
        → (c : Contract) × Contains t.contracts c × (plan_of c t (ack_of acks c.id) ≡ Propose change) }
{}

/// Once the plans are proposed, the acks that are left lead to none at the same table; an ack that no plan rests on is
/// still there.
pub fn an_ack_is_used_once()
    ensures kept { (acks : List ContractAcks) (t : Table) (c : Contract) → Contains t.contracts c
        → plan_of c t (ack_of (after_proposals acks t) c.id) ≡ Keep }
    ensures none { (acks : List ContractAcks) (t : Table) → proposals_of (after_proposals acks t) t ≡ [] }
    ensures others { (acks : List ContractAcks) (t : Table) (contract : Id) (server : NodeId) (ack : Ack)
        → ack_of acks contract server ≡ Some ack → is_used t contract (record { server = server; ack = ack }) ≡ false
        → ack_of (after_proposals acks t) contract server ≡ Some ack }
{}
