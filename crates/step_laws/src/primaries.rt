//! Laws of a primary's step.
ghost use Rattle.std.specs.Prelude.{◌≡◌, ◌≤◌, ◌<◌, ◌⊎◌, ◌∷◌, [], ℕ, List, Option, Some, None, length, true, false};
ghost use Rattle.std.specs.List.{slice_index_or};
ghost use Rattle.list_laws.specs.Members.{IsIn};
ghost use Rattle.runs.specs.region_map.declared.id.Id.{Id};
ghost use Rattle.runs.specs.region_map.declared.id.NodeId.{NodeId};
ghost use Rattle.runs.specs.region_map.Nodes.{has};
ghost use Rattle.runs.specs.register_laws.declared.operation.OpId.{OpId};
ghost use Rattle.runs.specs.register_laws.declared.operation.Op.{Op};
ghost use Rattle.runs.specs.register_laws.declared.operation.Reply.{Reply};
ghost use Rattle.runs.specs.contract_types.declared.contract.Contract.{Contract};
ghost use Rattle.runs.specs.contract_types.declared.contract.Holder.{Holder};
ghost use Rattle.runs.specs.table_log.Logs.{table_of};
ghost use Rattle.runs.specs.exec_types.declared.input.Input.{Input};
ghost use Rattle.runs.specs.exec_types.declared.input.Input.TheVariants.{Request, Tick, Deliver};
ghost use Rattle.runs.specs.exec_types.declared.message.Got.{Got};
ghost use Rattle.runs.specs.exec_types.declared.message.Message.TheVariants as message;
ghost use Rattle.runs.specs.exec_types.declared.outcome.Outcome.TheVariants.{Done};
ghost use Rattle.runs.specs.exec_types.declared.output.Output.TheVariants.{Dispatched, Answer};
ghost use Rattle.runs.specs.store_api.Rows.{has_key};
ghost use Rattle.runs.specs.write_dispatch.declared.decided.Decided.{Decided};
ghost use Rattle.runs.specs.write_dispatch.declared.decided.KeptAck.{KeptAck};
ghost use Rattle.runs.specs.primary_exec.declared.session.Session.{Session};
ghost use Rattle.runs.specs.primary_exec.declared.asking.Asking.{Asking};
ghost use Rattle.runs.specs.primary_exec.Execution.{Execution};
ghost use Rattle.runs.specs.node_core.declared.node.Brought.{Brought};
ghost use Rattle.runs.specs.node_core.Step.{NodeState, node_step};
ghost use Rattle.step_laws.specs.Counting.{AllWaitInOrder, CountsIt, StillWaits, has_majorities};
ghost use Rattle.step_laws.specs.Outs.{AsksFor, GoesOn, dispatched_in, refused_in};

/// A request is taken up in the step that brings it: where the region of an execution has the key, the operation is
/// dispatched, once and alone, and on that key; where none has, it is answered "not serving".
pub fn requests_are_taken_up_at_once()
    ensures dispatched { (s : NodeState) (op : OpId) (key : List ℕ) (what : Op) (brought : Option Brought) (x : Execution)
        → IsIn s.executions x → has_key x.contract.region s.setup.hashes key ≡ true
        → (dispatched_in (node_step s (Request op key what) brought).outs ≡ (op, key) ∷ [])
        × (refused_in (node_step s (Request op key what) brought).outs ≡ []) }
    ensures refused { (s : NodeState) (op : OpId) (key : List ℕ) (what : Op) (brought : Option Brought)
        → ((x : Execution) → IsIn s.executions x → has_key x.contract.region s.setup.hashes key ≡ false)
        → (dispatched_in (node_step s (Request op key what) brought).outs ≡ [])
        × (refused_in (node_step s (Request op key what) brought).outs ≡ op ∷ []) }
{}

/// After a step nothing waits whose timestamp has a majority. What waited before it, or was dispatched in it, still waits,
/// or was answered in it that it is done, unless its node went down or its client gave it up.
pub fn what_has_a_majority_is_answered()
    ensures none_is_left { (s : NodeState) (input : Input) (brought : Option Brought) → AllWaitInOrder s.executions
        → (x : Execution) (d : Decided) → IsIn (node_step s input brought).node.executions x → IsIn x.dispatch.waiting d
        → has_majorities x d.at ≡ false }
    ensures in_order { (s : NodeState) (input : Input) (brought : Option Brought) → AllWaitInOrder s.executions
        → AllWaitInOrder (node_step s input brought).node.executions }
    ensures done { (s : NodeState) (input : Input) (brought : Option Brought) (x : Execution) (d : Decided) (op : OpId)
        → IsIn s.executions x → IsIn x.dispatch.waiting d → d.op ≡ Some op → GoesOn input op
        → IsIn (node_step s input brought).outs (Answer op (Done d.reply x.branch d.at))
        ⊎ StillWaits (node_step s input brought).node.executions x.branch d }
    ensures dispatched { (s : NodeState) (q op : OpId) (key k : List ℕ) (what : Op) (brought : Option Brought) (branch : Id) (timestamp : ℕ)
        → IsIn (node_step s (Request q key what) brought).outs (Dispatched op k branch timestamp)
        → (reply : Reply) × (IsIn (node_step s (Request q key what) brought).outs (Answer op (Done reply branch timestamp))
        ⊎ StillWaits (node_step s (Request q key what) brought).node.executions branch (record { op = Some op; at = timestamp; reply = reply })) }
{}

/// An acknowledgement of a session counts in the step that brings it: the server is known to stand where it says, if its view
/// counts for the contract. What is asked of the node is that it has a place for the server's ack, and kept none of a greater
/// view that tells of less.
pub fn acknowledgements_count_at_once()
    ensures { (s : NodeState) (number : ℕ) (from : NodeId) (got : Got) (x : Execution) (session : Session) (at : ℕ)
        → IsIn s.executions x → IsIn x.sessions session → session.server.0 ≡ from.0 → session.name ≡ got.session → got.stands ≡ Some at
        → from.0 < s.setup.nodes → from.0 < length x.dispatch.acks → x.contract.since ≤ got.view
        → ((kept : KeptAck) → slice_index_or x.dispatch.acks from.0 None ≡ Some kept → got.view < kept.view → at ≤ kept.at)
        → CountsIt (node_step s (Deliver number) (Some (record { from = from; message = message.Got got }))).node.executions x from.0 at }
{}

/// A primary that waits for its branch asks for it at each tick after which its node knows a leader, whatever else it asks
/// for. What is asked of the node is that it acts on nothing that its log has not, and asks once under the contract.
pub fn primaries_ask_at_each_tick()
    ensures { (s : NodeState) (brought : Option Brought) (leader : NodeId) (c : Contract) (holder : Holder) (a : Asking)
        → s.log.acted ≤ length s.log.raft.log
        → (node_step s Tick brought).node.log.raft.votes.leader ≡ Some leader
        → IsIn (table_of s.log).contracts c → c.primary ≡ Some holder → holder.server.0 ≡ s.me.0 → has c.replicas s.me.0 ≡ true
        → IsIn s.asking a → a.contract.id ≡ c.id → ((b : Asking) → IsIn s.asking b → b.contract.id ≡ c.id → b ≡ a)
        → AsksFor (node_step s Tick brought).outs leader c.id a.branch }
{}
