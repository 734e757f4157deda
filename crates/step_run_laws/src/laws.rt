//! Laws of each entry of a run. Nodes tick, go down and come up, and messages come in any order, again and again, or never.
ghost use Rattle.std.specs.Prelude.{◌≡◌, ◌+◌, ◌∷◌, [], ◌⊎◌, ◌≤◌, ℕ, List, Some, length, drop, true, false};
ghost use Rattle.list_laws.specs.Members.{IsIn};
ghost use Rattle.path_runs.specs.runs.region_map.declared.id.Id.{Id};
ghost use Rattle.path_runs.specs.runs.region_map.declared.id.NodeId.{NodeId};
ghost use Rattle.path_runs.specs.runs.register_laws.declared.operation.OpId.{OpId};
ghost use Rattle.path_runs.specs.runs.register_laws.declared.operation.Op.{Op};
ghost use Rattle.path_runs.specs.runs.contract_types.Setup.{SetupState, IsSetup};
ghost use Rattle.path_runs.specs.runs.contract_types.declared.ack.Ack.TheVariants.{NeedBranch, Ready};
ghost use Rattle.path_runs.specs.runs.region_map.Maps.{Pieced};
ghost use Rattle.path_runs.specs.runs.branch_history.declared.version.Version.{Version};
ghost use Rattle.path_runs.specs.runs.branch_history.Histories.{knows};
ghost use Rattle.path_runs.specs.runs.raft_vote.Rows.{is_leader};
ghost use Rattle.path_runs.specs.runs.coordinator.Acks.{ack_of};
ghost use Rattle.path_runs.specs.runs.contract_types.declared.change.Change.TheVariants.{RegisterBranch};
ghost use Rattle.path_runs.specs.runs.contract_types.declared.applied.Applied.{Applied};
ghost use Rattle.path_runs.specs.runs.contract_types.declared.change.Change.{Change};
ghost use Rattle.path_runs.specs.runs.contract_types.declared.contract.Contract.{Contract};
ghost use Rattle.path_runs.specs.runs.contract_types.declared.contract.Holder.{Holder};
ghost use Rattle.path_runs.specs.runs.table_log.Logs.{table_of};
ghost use Rattle.path_runs.specs.runs.store_api.Rows.{has_key};
ghost use Rattle.path_runs.specs.runs.exec_types.declared.input.Input.TheVariants.{Request, Tick, Deliver};
ghost use Rattle.path_runs.specs.runs.exec_types.declared.message.Message.TheVariants as message;
ghost use Rattle.path_runs.specs.runs.exec_types.declared.outcome.Outcome.TheVariants.{Done};
ghost use Rattle.path_runs.specs.runs.exec_types.declared.output.Output.TheVariants.{Message, Viewed, Answer};
ghost use Rattle.path_runs.specs.runs.write_dispatch.declared.decided.Decided.{Decided};
ghost use Rattle.path_runs.specs.runs.primary_exec.Execution.{Execution};
ghost use Rattle.path_runs.specs.runs.node_core.declared.journal.Entry.{Entry};
ghost use Rattle.path_runs.specs.runs.Run.{IsRun, message_at, state};
ghost use Rattle.path_runs.specs.runs.declared.envelope.Envelope.{Envelope};
ghost use Rattle.path_runs.specs.runs.exec_types.declared.message.Stream.{Stream};
ghost use Rattle.path_runs.specs.runs.secondary_exec.declared.following.Following.{Following};
ghost use Rattle.step_laws.specs.Follows.{IsApplied};
ghost use Rattle.path_runs.specs.runs.Serving.{is_served_by};
ghost use Rattle.path_runs.specs.runs.Committed.{viewed_by};
ghost use Rattle.step_laws.specs.Counting.{StillWaits, has_majorities};
ghost use Rattle.step_laws.specs.Outs.{AsksFor, GoesOn, dispatched_in, refused_in};
ghost use Rattle.step_run_laws.specs.Synced.{IsReadyRightly};

/// In every run, a request is taken up in the entry that brings it: where its node is to serve the key, by its table, its
/// life and the contract's tenure, the operation is dispatched, once and alone, on that key; else it is answered "not
/// serving".
pub fn requests_are_taken_up()
    ensures dispatched { (setup : SetupState) → IsSetup setup → (past : List Entry) (e : Entry) → IsRun setup (e ∷ past)
        → (op : OpId) (key : List ℕ) (what : Op) → e.input ≡ Request op key what → is_served_by (state setup e.node.0 past) key ≡ true
        → (dispatched_in e.outputs ≡ (op, key) ∷ []) × (refused_in e.outputs ≡ []) }
    ensures refused { (setup : SetupState) → IsSetup setup → (past : List Entry) (e : Entry) → IsRun setup (e ∷ past)
        → (op : OpId) (key : List ℕ) (what : Op) → e.input ≡ Request op key what → is_served_by (state setup e.node.0 past) key ≡ false
        → (dispatched_in e.outputs ≡ []) × (refused_in e.outputs ≡ op ∷ []) }
{}

/// In every run, nothing waits at a node whose timestamp has a majority; and what waited at the node of an entry waits there
/// still, or is answered in the entry that it is done, unless the node goes down or the client gives it up.
pub fn majorities_are_answered()
    ensures none_is_left { (setup : SetupState) → IsSetup setup → (past : List Entry) → IsRun setup past
        → (n : ℕ) (x : Execution) (d : Decided) → IsIn (state setup n past).executions x → IsIn x.dispatch.waiting d → has_majorities x d.at ≡ false }
    ensures done { (setup : SetupState) → IsSetup setup → (past : List Entry) (e : Entry) → IsRun setup (e ∷ past)
        → (x : Execution) (d : Decided) (op : OpId) → IsIn (state setup e.node.0 past).executions x → IsIn x.dispatch.waiting d → d.op ≡ Some op → GoesOn e.input op
        → IsIn e.outputs (Answer op (Done d.reply x.branch d.at)) ⊎ StillWaits (state setup e.node.0 (e ∷ past)).executions x.branch d }
{}

/// In every run, the primary of a key, by a contract of its own table, serves the key, or asks for a branch under that contract
/// at each tick after which it knows a leader.
pub fn primaries_serve_or_ask()
    ensures { (setup : SetupState) → IsSetup setup → (past : List Entry) (e : Entry) → IsRun setup (e ∷ past)
        → (key : List ℕ) (c : Contract) (holder : Holder) (leader : NodeId) → e.input ≡ Tick
        → (state setup e.node.0 (e ∷ past)).log.raft.votes.leader ≡ Some leader
        → IsIn (table_of (state setup e.node.0 past).log).contracts c → has_key c.region setup.hashes key ≡ true
        → c.primary ≡ Some holder → holder.server.0 ≡ e.node.0
        → (is_served_by (state setup e.node.0 past) key ≡ true) ⊎ ((branch : Id) × AsksFor e.outputs leader c.id branch) }
{}

/// In every run, a leader that acts on all of its log appends at a tick, in its own term, each branch for which a primary's
/// last ack asks and which is not registered, unless its log is full then.
pub fn leaders_append_what_is_asked()
    ensures { (setup : SetupState) → IsSetup setup → (past : List Entry) (e : Entry) → IsRun setup (e ∷ past)
        → (c : Contract) (holder : Holder) (branch : Id) (based_on : Pieced Id) (origin : Pieced Version) → e.input ≡ Tick
        → is_leader (state setup e.node.0 past).log.raft.votes.role ≡ true
        → (state setup e.node.0 past).log.raft.view ≡ length (state setup e.node.0 past).log.raft.log
        → IsIn (table_of (state setup e.node.0 past).log).contracts c → c.primary ≡ Some holder
        → ack_of (state setup e.node.0 past).acks c.id holder.server ≡ Some (NeedBranch branch based_on origin)
        → knows (table_of (state setup e.node.0 past).log).history branch ≡ false
        → IsIn (drop (length (state setup e.node.0 past).log.raft.log) (state setup e.node.0 (e ∷ past)).log.raft.log)
        (record { term = (state setup e.node.0 past).log.raft.votes.term; change = RegisterBranch branch c.region c.tenure holder.server based_on origin })
        ⊎ (128 ≤ length (state setup e.node.0 (e ∷ past)).log.raft.log) }
{}

/// In every run, a secondary that is given the next part of its session, by its primary, applies it in the entry that brings
/// it, and tells its primary so: each key of its region stands at the part's timestamp then, and the part's key has its row.
/// The region is one that has a key.
pub fn given_parts_are_applied()
    ensures { (setup : SetupState) → IsSetup setup → (past : List Entry) (e : Entry) → IsRun setup (e ∷ past)
        → (number : ℕ) (m : Envelope) (f : Following) (stream : Stream) (key : List ℕ) → e.input ≡ Deliver number
        → message_at past number ≡ Some m → m.from.0 ≡ f.primary.0 → m.message ≡ message.Stream stream
        → IsIn (state setup e.node.0 past).followings f → has_key f.region setup.hashes key ≡ true
        → stream.session ≡ f.session → stream.number ≡ f.got + 1
        → IsApplied (state setup e.node.0 past) (record { node = state setup e.node.0 (e ∷ past); outs = e.outputs }) f stream }
{}

/// In every run, a node that tells on what it acted names the index behind the changes that it told of before.
pub fn told_views_go_on()
    ensures { (setup : SetupState) → IsSetup setup → (past : List Entry) (e : Entry) → IsRun setup (e ∷ past)
        → (first : ℕ) (results : List (Change × Applied)) → IsIn e.outputs (Viewed first results)
        → first ≡ length (viewed_by e.node.0 past) + 1 }
{}

/// In every run, a node says that it is ready under a contract only where it executes the contract and either writes a branch
/// with which the table began, or its sync under that contract was counted, at an earlier moment, at more than half of the
/// contract's voters, and of its voters to come.
pub fn ready_primaries_are_synced()
    ensures { (setup : SetupState) → IsSetup setup → (past : List Entry) (e : Entry) → IsRun setup (e ∷ past)
        → (to : NodeId) (contract : Id) → IsIn e.outputs (Message to (message.Say contract Ready))
        → (x : Execution) × (IsIn (state setup e.node.0 past).executions x) × (x.contract.id ≡ contract) × IsReadyRightly setup past e.node.0 x }
{}
