//! The log of all nodes in a run, and who sends to whom. Nodes tick, go down and come up, and messages come in any order, again and
//! again, or never.
ghost use Rattle.std.specs.Prelude.{◌≡◌, ◌<◌, ℕ, List, Some, IsTrue, ◌⊎◌};
ghost use Rattle.step_runs.specs.runs.contract_types.Setup.{SetupState, IsSetup};
ghost use Rattle.step_runs.specs.runs.node_core.declared.journal.Entry.{Entry};
ghost use Rattle.step_runs.specs.runs.declared.envelope.Envelope.{Envelope};
ghost use Rattle.step_runs.specs.runs.Run.{IsRun, message_at, state};
ghost use Rattle.step_runs.specs.runs.raft_vote.declared.message.RaftMessage.{RaftMessage};
ghost use Rattle.step_runs.specs.runs.raft_node.declared.input.RaftInput.TheVariants.{Deliver};
ghost use Rattle.raft_laws.specs.Laws.{IsFrontOf};
ghost use Rattle.step_runs.specs.runs.contract_types.declared.change.Change.{Change};
ghost use Rattle.step_runs.specs.runs.exec_types.declared.message.Message.TheVariants.{Raft};
ghost use Rattle.step_runs.specs.runs.table_log.Fitting.{changes_of};
ghost use Rattle.step_runs.specs.runs.table_log.Logs.{results_from, may_take};
ghost use Rattle.step_runs.specs.runs.Committed.{committed, IsEarlier, viewed_by};

/// In every run, each message goes from a node of the table to a node of the table.
pub fn messages_of_runs()
    ensures from { (setup : SetupState) → IsSetup setup → (past : List Entry) → IsRun setup past
        → (number : ℕ) (message : Envelope) → message_at past number ≡ Some message → message.from.0 < setup.nodes }
    ensures to { (setup : SetupState) → IsSetup setup → (past : List Entry) → IsRun setup past
        → (number : ℕ) (message : Envelope) → message_at past number ≡ Some message → message.to.0 < setup.nodes }
{}

/// In every run, of what two nodes act on, at whatever moments, one is a front of the other; what a node acts on only
/// becomes longer; and between steps a node acts on all that it knows to be committed.
pub fn committed_logs_of_runs()
    ensures agree { (setup : SetupState) → IsSetup setup → (past : List Entry) → IsRun setup past
        → (p q : List Entry) → IsEarlier past p → IsEarlier past q → (a b : ℕ)
        → IsFrontOf (committed (state setup a p)) (committed (state setup b q))
        ⊎ IsFrontOf (committed (state setup b q)) (committed (state setup a p)) }
    ensures longer { (setup : SetupState) → IsSetup setup → (past : List Entry) → IsRun setup past
        → (p : List Entry) → IsEarlier past p → (n : ℕ)
        → IsFrontOf (committed (state setup n p)) (committed (state setup n past)) }
    ensures still { (setup : SetupState) → IsSetup setup → (past : List Entry) → IsRun setup past
        → (n : ℕ) → (state setup n past).log.acted ≡ (state setup n past).log.raft.view }
{}

/// In every run, a node may take each message of the log that is for it.
pub fn log_messages_of_runs()
    ensures { (setup : SetupState) → IsSetup setup → (past : List Entry) → IsRun setup past
        → (number : ℕ) (e : Envelope) (m : RaftMessage Change) → message_at past number ≡ Some e → e.message ≡ Raft m
        → IsTrue (may_take (state setup e.to.0 past).log (Deliver e.from m)) }
{}

/// In every run, the changes that a node told to have acted on, one after the other, are those of its log up to its view,
/// each with what became of it.
pub fn views_of_runs()
    ensures { (setup : SetupState) → IsSetup setup → (past : List Entry) → IsRun setup past
        → (n : ℕ) → viewed_by n past ≡ results_from setup (changes_of (state setup n past).log.raft.log) 0 (state setup n past).log.acted }
{}
