//! The stories of keys, gathered in one walk over a journal.
ghost use Rattle.std.specs.Prelude.{◌≡◌, ◌++◌, ◌∷◌, [], ℕ, List, None, IfOk, OnOk, if◌then◌else◌};
ghost use Rattle.std.specs.Ordering.{nat_cmp};
ghost use Rattle.std.specs.Cmp.Lexicographic.{slice_cmp};
ghost use Rattle.std.specs.BTreeMap.{get, is_at};
ghost use Rattle.register_laws.specs.Lists.{is_read};
ghost use Rattle.journal_story.specs.runs.Story.{same_key, is_shown, points, points_in, points_of};
ghost use Rattle.report_text.specs.Report.{keys_from, with_key};
ghost use Rattle.report_text.specs.Stories.{text_at, told_op, points_text, line_by};

use crate::Printed;
use crate::known::Known;
use crate::texts::bytes_text;
use branch_history::Version;
use contract_types::TableState;
use exec_types::{Input, Output};
use journal_story::is_on_current;
use memory::OutOfMemory;
use node_core::Entry;
use region_map::Key;
use register_laws::{Op, OpId};
use script_text::{ScriptItem, ScriptWord};
use std::alloc::Global;
use std::collections::{BTreeMap, BTreeSet};

fn is_read(what: &Op) -> bool
    ensures { result ≡ is_read what.now }
{
    matches!(what, Op::Read)
}

/// Whether an operation stands in stories.
fn is_shown(known: &Known, op: OpId, what: &Op) -> bool
    ensures { result ≡ is_shown known.now.past op what.now }
{
    !is_read(what) || known.is_done(op)
}

/// Takes out what is told of the key.
fn take_text(alloc: Global, texts: &mut BTreeMap<Key, Printed>, key: &Key) -> Printed
    ensures text { result ≡ text_at texts.old key.now }
    ensures gone { (other : List ℕ) → get (slice_cmp nat_cmp) texts.new other
        ≡ (if is_at (slice_cmp nat_cmp key.now) other then None else get (slice_cmp nat_cmp) texts.old other) }
{
    match texts.remove(key) {
        Some(text) => text,
        None => Printed::new(String::new(alloc)),
    }
}

/// One more operation, behind those of the key.
fn tell(
    alloc: Global,
    texts: &mut BTreeMap<Key, Printed>,
    key: &Key,
    op: OpId,
) -> Result<(), OutOfMemory>
    ensures { OnOk result ((other : List ℕ) → text_at texts.new other
        ≡ text_at texts.old other ++ (if same_key key.now other then told_op op.0 else [])) }
{
    let mut text = take_text(alloc, texts, key);
    text.add_op(alloc, op)?;
    let copy = key.copy(alloc)?;
    texts.insert(copy, text)?;
    Ok(())
}

fn tell_output(
    alloc: Global,
    table: &TableState,
    known: &Known,
    texts: &mut BTreeMap<Key, Printed>,
    what: &Op,
    output: &Output,
) -> Result<(), OutOfMemory>
    ensures { OnOk result ((key : List ℕ) → text_at texts.new key
        ≡ text_at texts.old key ++ points_text table.now known.now.past key (points_in what.now (output.now ∷ []))) }
{
    if let Output::Dispatched {
        op,
        key,
        branch,
        timestamp,
    } = output
    {
        let version = Version {
            branch: Some(*branch),
            timestamp: *timestamp,
        };
        if is_shown(known, *op, what) && is_on_current(table, key, &version) {
            return tell(alloc, texts, key, *op);
        }
    }
    Ok(())
}

fn tell_outputs(
    alloc: Global,
    table: &TableState,
    known: &Known,
    texts: &mut BTreeMap<Key, Printed>,
    what: &Op,
    outputs: &[Output],
) -> Result<(), OutOfMemory>
    ensures { OnOk result ((key : List ℕ) → text_at texts.new key
        ≡ text_at texts.old key ++ points_text table.now known.now.past key (points_in what.now outputs.now)) }
{
    for output in outputs {
        tell_output(alloc, table, known, texts, what, output)?;
    }
    Ok(())
}

fn tell_entry(
    alloc: Global,
    table: &TableState,
    known: &Known,
    texts: &mut BTreeMap<Key, Printed>,
    entry: &Entry,
) -> Result<(), OutOfMemory>
    ensures { OnOk result ((key : List ℕ) → text_at texts.new key
        ≡ text_at texts.old key ++ points_text table.now known.now.past key (points_of entry.now.input entry.now.outputs)) }
{
    if let Input::Request { what, .. } = &entry.input {
        return tell_outputs(alloc, table, known, texts, what, entry.outputs.as_slice());
    }
    Ok(())
}

/// What the story of each key tells.
pub(crate) fn texts_of(
    alloc: Global,
    table: &TableState,
    known: &Known,
) -> Result<BTreeMap<Key, Printed>, OutOfMemory>
    ensures { IfOk result (λ texts. (key : List ℕ) → text_at texts key ≡ points_text table.now known.now.past key (points known.now.past)) }
{
    let entries = known.entries();
    let mut texts = BTreeMap::new(alloc);
    for entry in entries {
        tell_entry(alloc, table, known, &mut texts, entry)?;
    }
    Ok(texts)
}

fn keep_key(alloc: Global, keys: &mut BTreeSet<Key>, word: &ScriptWord) -> Result<(), OutOfMemory>
    ensures { OnOk result (keys.new.keys ≡ with_key keys.old.keys word.now) }
{
    if let ScriptWord::Request { key, .. } = word {
        keys.insert(key.copy(alloc)?)?;
    }
    Ok(())
}

/// The keys that the items name, in order.
pub(crate) fn keys_of(alloc: Global, items: &[ScriptItem]) -> Result<BTreeSet<Key>, OutOfMemory>
    ensures { IfOk result (λ keys. keys.keys ≡ keys_from [] items.now) }
{
    let mut keys = BTreeSet::new(alloc);
    for item in items {
        keep_key(alloc, &mut keys, &item.word)?;
    }
    Ok(keys)
}

fn text_at<'a>(texts: &'a BTreeMap<Key, Printed>, key: &Key) -> &'a str
    ensures { result.now ≡ text_at texts.now key.now }
{
    match texts.get(key) {
        Some(text) => text.as_str(),
        None => "",
    }
}

/// The line of a key's story.
pub(crate) fn story_line(
    alloc: Global,
    texts: &BTreeMap<Key, Printed>,
    key: &Key,
) -> Result<Printed, OutOfMemory>
    ensures { IfOk result (λ line. line ≡ line_by texts.now key.now) }
{
    let told = text_at(texts, key);
    let name = bytes_text(alloc, key.as_bytes())?;
    Ok(Printed::new(format!(in alloc; "story {name}{told}\n")?))
}
