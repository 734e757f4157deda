//! Which operations a journal answers "done".
ghost use Rattle.std.specs.Prelude.{◌≡◌, ◌==◌, ℕ, [], ◌∷◌, Some, None, reverse, IfOk, OnOk, if◌then◌else◌};
ghost use Rattle.std.specs.Ordering.{nat_cmp};
ghost use Rattle.std.specs.BTreeMap.{get};
ghost use Rattle.step_runs.specs.runs.Story.{answer_in, is_done_outcome};
ghost use Rattle.journal_story.specs.Done.{mark_of, or_mark, op_of, MarksAnswers, is_done_by};

use exec_types::{Outcome, Output};
use memory::OutOfMemory;
use node_core::Entry;
use register_laws::OpId;
use std::alloc::Global;
use std::collections::BTreeMap;

/// Marks an operation that was answered, unless it has a mark: its first answer counts.
fn mark_answer(
    marks: &mut BTreeMap<u64, bool>,
    op: OpId,
    outcome: &Outcome,
) -> Result<(), OutOfMemory>
    ensures { OnOk result ((n : ℕ) → get nat_cmp marks.new n
        ≡ or_mark (get nat_cmp marks.old n) (if op.0 == n then Some (is_done_outcome (Some outcome.now)) else None)) }
{
    if marks.contains_key(&op.0) {
        return Ok(());
    }
    let done = matches!(outcome, Outcome::Done { .. });
    marks.insert(op.0, done)?;
    Ok(())
}

fn mark_output(marks: &mut BTreeMap<u64, bool>, output: &Output) -> Result<(), OutOfMemory>
    ensures { OnOk result ((n : ℕ) → get nat_cmp marks.new n
        ≡ or_mark (get nat_cmp marks.old n) (mark_of (answer_in (output.now ∷ []) (op_of n)))) }
{
    match output {
        Output::Answer { op, outcome } => mark_answer(marks, *op, outcome),
        _ => Ok(()),
    }
}

fn mark_outputs(marks: &mut BTreeMap<u64, bool>, outputs: &[Output]) -> Result<(), OutOfMemory>
    ensures { OnOk result ((n : ℕ) → get nat_cmp marks.new n
        ≡ or_mark (get nat_cmp marks.old n) (mark_of (answer_in outputs.now (op_of n)))) }
{
    for output in outputs {
        mark_output(marks, output)?;
    }
    Ok(())
}

/// Marks each operation that was answered: whether it is done. This walks the journal once.
pub fn marks_of(alloc: Global, entries: &[Entry]) -> Result<BTreeMap<u64, bool>, OutOfMemory>
    ensures { IfOk result (λ marks. MarksAnswers marks (reverse entries.now)) }
{
    let mut marks = BTreeMap::new(alloc);
    for entry in entries {
        mark_outputs(&mut marks, entry.outputs.as_slice())?;
    }
    Ok(marks)
}

/// Whether an operation is done by its mark.
pub fn is_done(marks: &BTreeMap<u64, bool>, op: OpId) -> bool
    ensures { result ≡ is_done_by marks.now op }
{
    match marks.get(&op.0) {
        Some(done) => *done,
        None => false,
    }
}
