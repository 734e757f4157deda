//! What a journal and the refused requests say of operations, kept by their numbers.
ghost use Rattle.std.specs.Prelude.{◌≡◌, ◌==◌, ◌||◌, ℕ, [], ◌∷◌, Some, None, reverse, IfOk, OnOk, if◌then◌else◌};
ghost use Rattle.std.specs.Ordering.{nat_cmp};
ghost use Rattle.std.specs.BTreeMap.{get};
ghost use Rattle.std.specs.BTreeSet.{contains};
ghost use Rattle.std.specs.String.{string_bytes};
ghost use Rattle.journal_story.specs.runs.Run.{requests, is_requested};
ghost use Rattle.journal_story.specs.runs.Story.{answer, answer_in, is_done};
ghost use Rattle.journal_story.specs.Done.{op_of};
ghost use Rattle.report_text.specs.Known.{answered, all_answered, or_answered, KeepsAnswers, KeepsRequests, KeepsDown};
ghost use Rattle.report_text.specs.Report.{fate_text, unasked_text, is_down, op_line};

use crate::Printed;
use crate::answered::Answered;
use crate::texts::outcome_text;
use exec_types::{Input, Outcome, Output};
use memory::OutOfMemory;
use node_core::{Entry, Journal};
use register_laws::OpId;
use std::alloc::Global;
use std::collections::{BTreeMap, BTreeSet};
use std::marker::Model;

/// A journal with its answers and requests by the numbers of operations, and the operations that were asked of nodes
/// that were down.
#[derive(Drop)]
pub struct Known<'a> {
    journal: &'a Journal,
    answers: BTreeMap<u64, Answered>,
    requested: BTreeSet<u64>,
    down: &'a [OpId],
    asked_down: BTreeSet<u64>,
}

impl<'a> Model for Known<'a> {
    ghost use Rattle.report_text.specs.Known.{KnownState, KeepsAnswers, KeepsRequests, KeepsDown};

    ghost Value = { KnownState };

    ghost view = { λ a. record { past = a.journal.now.past; down = a.down.now } };

    ghost invariant = { λ a. KeepsAnswers a.answers a.journal.now.past × KeepsRequests a.requested a.journal.now.past
        × KeepsDown a.asked_down a.down.now };
}

/// Keeps the outcome, unless the operation has one already.
fn keep_answer(
    alloc: Global,
    answers: &mut BTreeMap<u64, Answered>,
    op: OpId,
    outcome: &Outcome,
) -> Result<(), OutOfMemory>
    ensures { OnOk result ((n : ℕ) → get nat_cmp answers.new n
        ≡ or_answered (get nat_cmp answers.old n) (if op.0 == n then Some (answered outcome.now) else None)) }
{
    if answers.contains_key(&op.0) {
        return Ok(());
    }
    let text = Printed::new(outcome_text(alloc, outcome)?);
    let done = matches!(outcome, Outcome::Done { .. });
    answers.insert(op.0, Answered { text, done })?;
    Ok(())
}

fn keep_output(
    alloc: Global,
    answers: &mut BTreeMap<u64, Answered>,
    output: &Output,
) -> Result<(), OutOfMemory>
    ensures { OnOk result ((n : ℕ) → get nat_cmp answers.new n
        ≡ or_answered (get nat_cmp answers.old n) (all_answered (answer_in (output.now ∷ []) (op_of n)))) }
{
    match output {
        Output::Answer { op, outcome } => keep_answer(alloc, answers, *op, outcome),
        _ => Ok(()),
    }
}

fn keep_outputs(
    alloc: Global,
    answers: &mut BTreeMap<u64, Answered>,
    outputs: &[Output],
) -> Result<(), OutOfMemory>
    ensures { OnOk result ((n : ℕ) → get nat_cmp answers.new n
        ≡ or_answered (get nat_cmp answers.old n) (all_answered (answer_in outputs.now (op_of n)))) }
{
    for output in outputs {
        keep_output(alloc, answers, output)?;
    }
    Ok(())
}

fn answers_of(alloc: Global, entries: &[Entry]) -> Result<BTreeMap<u64, Answered>, OutOfMemory>
    ensures { IfOk result (λ answers. KeepsAnswers answers (reverse entries.now)) }
{
    let mut answers = BTreeMap::new(alloc);
    for entry in entries {
        keep_outputs(alloc, &mut answers, entry.outputs.as_slice())?;
    }
    Ok(answers)
}

fn keep_request(requested: &mut BTreeSet<u64>, input: &Input) -> Result<(), OutOfMemory>
    ensures { OnOk result ((n : ℕ) → contains nat_cmp requested.new n
        ≡ (requests input.now (op_of n) || contains nat_cmp requested.old n)) }
{
    if let Input::Request { op, .. } = input {
        requested.insert(op.0)?;
    }
    Ok(())
}

fn requests_of(alloc: Global, entries: &[Entry]) -> Result<BTreeSet<u64>, OutOfMemory>
    ensures { IfOk result (λ requested. KeepsRequests requested (reverse entries.now)) }
{
    let mut requested = BTreeSet::new(alloc);
    for entry in entries {
        keep_request(&mut requested, &entry.input)?;
    }
    Ok(requested)
}

fn keep_number(numbers: &mut BTreeSet<u64>, op: &OpId) -> Result<(), OutOfMemory>
    ensures { OnOk result ((n : ℕ) → contains nat_cmp numbers.new n ≡ ((op.now.0 == n) || contains nat_cmp numbers.old n)) }
{
    numbers.insert(op.0)?;
    Ok(())
}

fn numbers_of(alloc: Global, ops: &[OpId]) -> Result<BTreeSet<u64>, OutOfMemory>
    ensures { IfOk result (λ numbers. KeepsDown numbers ops.now) }
{
    let mut numbers = BTreeSet::new(alloc);
    for op in ops {
        keep_number(&mut numbers, op)?;
    }
    Ok(numbers)
}

impl<'a> Known<'a> {
    /// Reads the journal once, and the operations that were asked of nodes that were down.
    pub(crate) fn of(
        alloc: Global,
        journal: &'a Journal,
        down: &'a [OpId],
    ) -> Result<Known<'a>, OutOfMemory>
        ensures { IfOk result (λ known. known ≡ record { past = journal.now.past; down = down.now }) }
    {
        let entries = journal.entries();
        let answers = answers_of(alloc, entries)?;
        let requested = requests_of(alloc, entries)?;
        let asked_down = numbers_of(alloc, down)?;
        Ok(Known {
            journal,
            answers,
            requested,
            down,
            asked_down,
        })
    }

    /// The entries, the oldest first.
    pub(crate) fn entries(&self) -> &'a [Entry]
        ensures { reverse result.now ≡ self.now.past }
    {
        self.journal.entries()
    }

    /// Whether the operation was done.
    pub(crate) fn is_done(&self, op: OpId) -> bool
        ensures { result ≡ is_done self.now.past op }
    {
        match self.answers.get(&op.0) {
            Some(answered) => answered.done,
            None => false,
        }
    }

    fn unasked_text(&self, op: OpId) -> &'static str
        ensures { result.now ≡ unasked_text (is_down self.now.down op) }
    {
        if self.asked_down.contains(&op.0) {
            "down"
        } else {
            "unsent"
        }
    }

    fn fate_text(&self, alloc: Global, op: OpId) -> Result<String, OutOfMemory>
        ensures { IfOk result (λ s. string_bytes s ≡ fate_text (answer self.now.past op) (is_requested self.now.past op) (is_down self.now.down op)) }
    {
        match self.answers.get(&op.0) {
            Some(answered) => Ok(String::from_str(alloc, answered.text.as_str())?),
            None => {
                if self.requested.contains(&op.0) {
                    return Ok(String::from_str(alloc, "open")?);
                }
                let unasked = self.unasked_text(op);
                Ok(String::from_str(alloc, unasked)?)
            }
        }
    }

    /// The line that tells what became of an operation.
    pub(crate) fn op_line(&self, alloc: Global, op: OpId) -> Result<Printed, OutOfMemory>
        ensures { IfOk result (λ line. line ≡ op_line self.now.past self.now.down op) }
    {
        let fate = self.fate_text(alloc, op)?;
        Ok(Printed::new(format!(in alloc; "op {} {fate}\n", op.0)?))
    }
}
