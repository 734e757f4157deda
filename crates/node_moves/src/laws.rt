//! What one step of a node does, for laws of runs that open no step themselves. Each law is of every state, input and
//! brought message, and knows no run.
ghost use Rattle.std.specs.Prelude.{ℕ, List, Option};
ghost use Rattle.list_laws.specs.Members.{IsIn};
ghost use Rattle.region_map.specs.declared.id.NodeId.{NodeId};
ghost use Rattle.exec_types.specs.declared.input.Input.{Input};
ghost use Rattle.exec_types.specs.declared.message.Message.{Message};
ghost use Rattle.exec_types.specs.declared.output.Output.{Output};
ghost use Rattle.exec_types.specs.declared.output.Output.TheVariants as output;
ghost use Rattle.primary_exec.specs.Execution.{Execution};
ghost use Rattle.node_core.specs.declared.node.Brought.{Brought};
ghost use Rattle.node_core.specs.Step.{NodeState, node_step};
ghost use Rattle.node_moves.specs.Move.{HasHashes, StepMoves};
ghost use Rattle.node_moves.specs.Parts.{StepParts};
ghost use Rattle.node_moves.specs.Says.{Says, StepSays};
ghost use Rattle.node_moves.specs.Sends.{Sends, StepLogs};

/// Each answer, dispatch and view among the outputs of a step has its cause; and without the messages the outputs are what
/// the row of the input says, then the view, then the answers to what is decided at the end of the step.
pub fn says_of_steps()
    ensures each { (s : NodeState) (input : Input) (brought : Option Brought) (out : Output)
        → IsIn (node_step s input brought).outs out → Says s input (node_step s input brought).node out }
    ensures whole { (s : NodeState) (input : Input) (brought : Option Brought)
        → (xs : List Execution) × StepSays s input (node_step s input brought).node (node_step s input brought).outs xs }
{}

/// Each message among the outputs of a step comes from somewhere: the log, a contract of which the node tells its leader, a
/// stream, a following. And the messages of the log are, in order, those for which the log moved.
pub fn sends_of_steps()
    ensures each { (s : NodeState) (input : Input) (brought : Option Brought) (to : NodeId) (message : Message)
        → IsIn (node_step s input brought).outs (output.Message to message)
        → Sends s input brought (node_step s input brought).node to message }
    ensures logs { (s : NodeState) (input : Input) (brought : Option Brought)
        → StepLogs s input brought (node_step s input brought).node (node_step s input brought).outs }
{}

/// What asks, writes, waits and follows at a node, and its versions and rows, change by one move of the row; then, where the
/// view rises, by what starts by the new table; then by the answers to what is decided, which are those that the step says.
/// So it is of the whole lists, and at each key of those that have it: there nothing is asked of the node but that its
/// versions are of as many hashes as its table.
pub fn moves_of_steps()
    ensures parts { (s : NodeState) (input : Input) (brought : Option Brought)
        → (xs : List Execution) × StepSays s input (node_step s input brought).node (node_step s input brought).outs xs
        × StepParts s input brought (node_step s input brought).node xs }
    ensures keys { (s : NodeState) (input : Input) (brought : Option Brought) (key : List ℕ) → HasHashes s
        → StepMoves s input brought key (node_step s input brought).node }
{}
