//! Outcomes of operations in what a node has seen.
ghost use Rattle.std.specs.Prelude.{◌≡◌, ◌≤◌, true, false, length, reverse, take};
ghost use Rattle.std.specs.List.{list_any};
ghost use Rattle.node_turn.specs.Outcomes.{is_answer, answers, has_outcome, lacks, awaited};

use exec_types::Output;
use node_core::Entry;
use register_laws::OpId;

/// Whether an output answers an operation.
fn is_answer(output: &Output, op: OpId) -> bool
    ensures { result ≡ is_answer op output.now }
{
    match output {
        Output::Message { .. } => false,
        Output::Dispatched { .. } => false,
        Output::Viewed { .. } => false,
        Output::Answer { op: answered, .. } => *answered == op,
    }
}

/// Whether a step answered an operation.

fn answers(entry: &Entry, op: OpId) -> bool
    ensures { result ≡ answers op entry.now }
{
    entry
        .outputs
        .as_slice()
        .iter()
        .any(|output| is_answer(output, op))
}

/// Whether an operation has an outcome among entries, the oldest of which comes first.
fn has_outcome(seen: &[Entry], op: OpId) -> bool
    ensures { result ≡ list_any (answers op) seen.now }
{
    seen.iter().any(|entry| answers(entry, op))
}

/// Whether an operation has an outcome, where so many entries, the oldest ones, are known to have none.
fn is_answered(seen: &[Entry], op: OpId, asked: u64) -> bool
    requires within { asked ≤ length seen.now }
    requires lacking { has_outcome (reverse (take asked seen.now)) op ≡ false }
    ensures { result ≡ has_outcome (reverse seen.now) op }
{
    has_outcome(&seen[asked as usize..], op)
}

/// The operation that an item still waits for. So many entries, the oldest ones, are known to have no outcome of it.
#[tactic(auto, using(crate::proofs::Answering::lacks_outcome))]
pub fn awaited(seen: &[Entry], after: Option<OpId>, asked: u64) -> Option<OpId>
    requires within { asked ≤ length seen.now }
    requires lacking { lacks (reverse (take asked seen.now)) after ≡ true }
    ensures { result ≡ awaited (reverse seen.now) after }
{
    match after {
        None => None,
        Some(op) => {
            if is_answered(seen, op, asked) {
                None
            } else {
                Some(op)
            }
        }
    }
}
