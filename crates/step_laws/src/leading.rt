//! Laws of a leader's step.
ghost use Rattle.std.specs.Prelude.{◌≡◌, ◌≤◌, ◌<◌, ◌⊎◌, ℕ, Option, Some, length, drop, true, false};
ghost use Rattle.list_laws.specs.Members.{IsIn};
ghost use Rattle.runs.specs.region_map.declared.id.Id.{Id};
ghost use Rattle.runs.specs.region_map.declared.id.NodeId.{NodeId};
ghost use Rattle.runs.specs.region_map.Maps.{Pieced};
ghost use Rattle.runs.specs.branch_history.declared.version.Version.{Version};
ghost use Rattle.runs.specs.branch_history.Histories.{knows};
ghost use Rattle.runs.specs.raft_vote.Rows.{is_leader};
ghost use Rattle.runs.specs.contract_types.declared.ack.Ack.{Ack};
ghost use Rattle.runs.specs.contract_types.declared.ack.Ack.TheVariants.{NeedBranch};
ghost use Rattle.runs.specs.contract_types.declared.change.Change.TheVariants.{RegisterBranch};
ghost use Rattle.runs.specs.contract_types.declared.contract.Contract.{Contract};
ghost use Rattle.runs.specs.contract_types.declared.contract.Holder.{Holder};
ghost use Rattle.runs.specs.coordinator.Acks.{ack_of};
ghost use Rattle.runs.specs.table_log.Logs.{table_of};
ghost use Rattle.runs.specs.exec_types.declared.input.Input.TheVariants.{Tick, Deliver};
ghost use Rattle.runs.specs.exec_types.declared.message.Message.TheVariants.{Say};
ghost use Rattle.runs.specs.node_core.declared.node.Brought.{Brought};
ghost use Rattle.runs.specs.node_core.Step.{NodeState, ack_fits, node_step};

/// A leader that acts on all of its log appends at a tick, in its own term, each branch for which a primary's last ack
/// asks and which is not registered, unless its log is full then.
pub fn leaders_append_each_plan()
    ensures { (s : NodeState) (brought : Option Brought) (c : Contract) (holder : Holder) (branch : Id) (based_on : Pieced Id) (origin : Pieced Version)
        → is_leader s.log.raft.votes.role ≡ true → s.log.raft.view ≡ length s.log.raft.log
        → IsIn (table_of s.log).contracts c → c.primary ≡ Some holder
        → ack_of s.acks c.id holder.server ≡ Some (NeedBranch branch based_on origin)
        → knows (table_of s.log).history branch ≡ false → origin.hashes ≡ s.log.config.hashes
        → IsIn (drop (length s.log.raft.log) (node_step s Tick brought).node.log.raft.log)
        (record { term = s.log.raft.votes.term; change = RegisterBranch branch c.region c.tenure holder.server based_on origin })
        ⊎ (128 ≤ length (node_step s Tick brought).node.log.raft.log) }
{}

/// A leader keeps what a server says under a contract's id, as the last ack of that server.
pub fn leaders_keep_what_they_are_told()
    ensures { (s : NodeState) (number : ℕ) (from : NodeId) (contract : Id) (ack : Ack)
        → is_leader s.log.raft.votes.role ≡ true → from.0 < s.setup.nodes → ack_fits s.setup.hashes ack ≡ true
        → ack_of (node_step s (Deliver number) (Some (record { from = from; message = Say contract ack }))).node.acks contract from ≡ Some ack }
{}
