//! The story of a key in a journal.
ghost use Rattle.std.specs.Prelude.{◌≡◌, ◌++◌, ◌∷◌, [], None, map, reverse, IfOk, OnOk};
ghost use Rattle.register_laws.specs.Lists.{told_from};
ghost use Rattle.step_runs.specs.runs.Story.{points, points_in, points_of};
ghost use Rattle.journal_story.specs.Telling.{story_in, is_shown_by, calls_of};

use crate::done::{is_done, marks_of};
use crate::latest::{longest, told_table};
use crate::paths::is_on_current;
use branch_history::Version;
use contract_types::TableState;
use exec_types::{Input, Output};
use memory::OutOfMemory;
use node_core::{Entry, Journal};
use region_map::Key;
use register_laws::{Op, OpId, Told, step};
use std::alloc::Global;
use std::collections::BTreeMap;

/// Whether an operation stands in stories: a read once it is done, any other as it is dispatched.
fn is_shown(marks: &BTreeMap<u64, bool>, op: OpId, what: &Op) -> bool
    ensures { result ≡ is_shown_by marks.now op what.now }
{
    !matches!(what, Op::Read) || is_done(marks, op)
}

fn add_call<'a>(
    table: &TableState,
    marks: &BTreeMap<u64, bool>,
    key: &Key,
    calls: &mut Vec<(OpId, &'a Op)>,
    what: &'a Op,
    output: &Output,
) -> Result<(), OutOfMemory>
    ensures { OnOk result (map (λ c. (c.0, c.1.now)) calls.new.items
        ≡ map (λ c. (c.0, c.1.now)) calls.old.items ++ calls_of table.now marks.now key.now (points_in what.now (output.now ∷ []))) }
{
    if let Output::Dispatched {
        op,
        key: written,
        branch,
        timestamp,
    } = output
    {
        let version = Version {
            branch: Some(*branch),
            timestamp: *timestamp,
        };
        if written == key && is_on_current(table, key, &version) && is_shown(marks, *op, what) {
            calls.push((*op, what))?;
        }
    }
    Ok(())
}

fn add_calls<'a>(
    table: &TableState,
    marks: &BTreeMap<u64, bool>,
    key: &Key,
    calls: &mut Vec<(OpId, &'a Op)>,
    what: &'a Op,
    outputs: &[Output],
) -> Result<(), OutOfMemory>
    ensures { OnOk result (map (λ c. (c.0, c.1.now)) calls.new.items
        ≡ map (λ c. (c.0, c.1.now)) calls.old.items ++ calls_of table.now marks.now key.now (points_in what.now outputs.now)) }
{
    for output in outputs {
        add_call(table, marks, key, calls, what, output)?;
    }
    Ok(())
}

fn add_entry<'a>(
    table: &TableState,
    marks: &BTreeMap<u64, bool>,
    key: &Key,
    calls: &mut Vec<(OpId, &'a Op)>,
    entry: &'a Entry,
) -> Result<(), OutOfMemory>
    ensures { OnOk result (map (λ c. (c.0, c.1.now)) calls.new.items
        ≡ map (λ c. (c.0, c.1.now)) calls.old.items ++ calls_of table.now marks.now key.now (points_of entry.now.input entry.now.outputs)) }
{
    if let Input::Request { what, .. } = &entry.input {
        return add_calls(table, marks, key, calls, what, entry.outputs.as_slice());
    }
    Ok(())
}

/// The operations that stand in the story of a key, as they were dispatched.
fn calls_of<'a>(
    alloc: Global,
    table: &TableState,
    marks: &BTreeMap<u64, bool>,
    key: &Key,
    entries: &'a [Entry],
) -> Result<Vec<(OpId, &'a Op)>, OutOfMemory>
    ensures { IfOk result (λ calls. map (λ c. (c.0, c.1.now)) calls.items
        ≡ calls_of table.now marks.now key.now (points (reverse entries.now))) }
{
    let mut calls = Vec::new(alloc);
    for entry in entries {
        add_entry(table, marks, key, &mut calls, entry)?;
    }
    Ok(calls)
}

/// Operations with the replies that a register gives them, from no value.
fn replied(alloc: Global, calls: &[(OpId, &Op)]) -> Result<Vec<Told>, OutOfMemory>
    ensures { IfOk result (λ told. told.items ≡ told_from None (map (λ c. (c.0, c.1.now)) calls.now)) }
{
    let mut told = Vec::new(alloc);
    let mut state = None;
    for (op, what) in calls {
        let (reply, left) = step(alloc, &state, what)?;
        let what = what.copy(alloc)?;
        told.push(Told {
            op: *op,
            what,
            reply,
        })?;
        state = left;
    }
    Ok(told)
}

/// The story of a key: the operations on it in the order in which they took effect, with the replies of the register. A
/// read stands in it once it is done, any other operation once it is dispatched.
pub fn story(alloc: Global, journal: &Journal, key: &Key) -> Result<Vec<Told>, OutOfMemory>
    ensures { IfOk result (λ told. told.items ≡ story_in journal.now key.now) }
{
    let Some(setup) = journal.setup() else {
        return Ok(Vec::new(alloc));
    };
    let entries = journal.entries();
    let viewed = longest(alloc, setup, entries)?;
    let table = told_table(alloc, setup, viewed.as_slice())?;
    let marks = marks_of(alloc, entries)?;
    let calls = calls_of(alloc, &table, &marks, key, entries)?;
    let told = replied(alloc, calls.as_slice())?;
    Ok(told)
}
