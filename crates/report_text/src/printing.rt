//! The lines of a report, and printing them.
ghost use Rattle.std.specs.Prelude.{◌≡◌, ◌++◌, [], ◌<◌, ◌≤◌, ℕ, length, take, map, IfOk, OnOk, OnErr, IsErrOf, IsTrue};
ghost use Rattle.line_io.specs.Bytes.{Appends};
ghost use Rattle.line_io.specs.Counts.{rose};
ghost use Rattle.journal_story.specs.runs.Latest.{told_table};
ghost use Rattle.report_text.specs.Report.{with_op_line, op_lines, refusal_line, with_skipped, skipped_lines, story_line, keys_from, report, joined};
ghost use Rattle.report_text.specs.Stories.{line_by};
ghost use Rattle.report_text.specs.declared.print_refused.PrintRefused.TheVariants.{WriteFault, OutOfMemory};

use crate::known::Known;
use crate::stories::{keys_of, story_line, texts_of};
use crate::texts::{ending_line, header_line, refusal_line, skipped_line};
use crate::{Ending, PrintRefused, Printed, Refusal};
use contract_types::{Applied, Change, Setup, TableState};
use journal_story::{longest, told_table};
use line_io::{Sink, WriteFault, write_all};
use memory::OutOfMemory;
use node_core::Journal;
use region_map::Key;
use register_laws::OpId;
use script_text::{ScriptItem, ScriptWord};
use std::alloc::Global;
use std::collections::{BTreeMap, BTreeSet};

fn add_op_line(
    alloc: Global,
    lines: &mut Vec<Printed>,
    known: &Known,
    word: &ScriptWord,
) -> Result<(), OutOfMemory>
    ensures { OnOk result (lines.new.items ≡ lines.old.items ++ with_op_line known.now.past known.now.down word.now []) }
{
    if let ScriptWord::Request { op, .. } = word {
        lines.push(known.op_line(alloc, *op)?)?;
    }
    Ok(())
}

fn add_op_lines(
    alloc: Global,
    lines: &mut Vec<Printed>,
    known: &Known,
    items: &[ScriptItem],
) -> Result<(), OutOfMemory>
    ensures { OnOk result (lines.new.items ≡ lines.old.items ++ op_lines known.now.past known.now.down items.now) }
{
    for item in items {
        add_op_line(alloc, lines, known, &item.word)?;
    }
    Ok(())
}

fn add_refusals(
    alloc: Global,
    lines: &mut Vec<Printed>,
    refused: &[Refusal],
) -> Result<(), OutOfMemory>
    ensures { OnOk result (lines.new.items ≡ lines.old.items ++ map refusal_line refused.now) }
{
    for refusal in refused {
        lines.push(refusal_line(alloc, *refusal)?)?;
    }
    Ok(())
}

fn add_skipped_line(
    alloc: Global,
    lines: &mut Vec<Printed>,
    index: u64,
    applied: Applied,
) -> Result<(), OutOfMemory>
    ensures { OnOk result (lines.new.items ≡ lines.old.items ++ with_skipped index applied []) }
{
    if let Applied::Skipped(condition) = applied {
        lines.push(skipped_line(alloc, index, condition)?)?;
    }
    Ok(())
}

fn add_skipped_lines(
    alloc: Global,
    lines: &mut Vec<Printed>,
    viewed: &[&(Change, Applied)],
) -> Result<(), OutOfMemory>
    ensures { OnOk result (lines.new.items ≡ lines.old.items ++ skipped_lines 1 (map (λ r. r.now) viewed.now)) }
{
    for place in 0..viewed.len() {
        add_skipped_line(alloc, lines, place as u64 + 1, viewed[place].1)?;
    }
    Ok(())
}

fn add_story_lines(
    alloc: Global,
    lines: &mut Vec<Printed>,
    texts: &BTreeMap<Key, Printed>,
    keys: &BTreeSet<Key>,
) -> Result<(), OutOfMemory>
    ensures { OnOk result (lines.new.items ≡ lines.old.items ++ map (line_by texts.now) keys.now.keys) }
{
    for key in keys.iter() {
        lines.push(story_line(alloc, texts, key)?)?;
    }
    Ok(())
}

fn add_stories(
    alloc: Global,
    lines: &mut Vec<Printed>,
    setup: &Setup,
    table: &TableState,
    known: &Known,
    items: &[ScriptItem],
) -> Result<(), OutOfMemory>
    requires told { table.now ≡ told_table setup.now known.now.past }
    requires hashes { table.now.config.hashes ≡ setup.now.hashes }
    ensures { OnOk result (lines.new.items
        ≡ lines.old.items ++ map (story_line setup.now known.now.past) (keys_from [] items.now)) }
{
    let texts = texts_of(alloc, table, known)?;
    let keys = keys_of(alloc, items)?;
    add_story_lines(alloc, lines, &texts, &keys)?;
    Ok(())
}

fn lines_of(
    alloc: Global,
    setup: &Setup,
    items: &[ScriptItem],
    journal: &Journal,
    down: &[OpId],
    refused: &[Refusal],
    ending: Ending,
) -> Result<Vec<Printed>, OutOfMemory>
    ensures { IfOk result (λ lines. lines.items
        ≡ report setup.now items.now journal.now.past down.now refused.now ending) }
{
    let known = Known::of(alloc, journal, down)?;
    let viewed = longest(alloc, setup, journal.entries())?;
    let table = told_table(alloc, setup, viewed.as_slice())?;
    let mut lines = Vec::new(alloc);
    lines.push(header_line(alloc, setup)?)?;
    add_op_lines(alloc, &mut lines, &known, items)?;
    add_refusals(alloc, &mut lines, refused)?;
    add_skipped_lines(alloc, &mut lines, viewed.as_slice())?;
    add_stories(alloc, &mut lines, setup, &table, &known, items)?;
    lines.push(ending_line(alloc, ending)?)?;
    Ok(lines)
}

fn write_lines<K: Sink>(lines: &[Printed], sink: &mut K) -> Result<(), WriteFault>
    ensures ok { OnOk result (Appends (K.held sink.old) (joined lines.now) (K.held sink.new)) }
    ensures part { OnErr result ((n : ℕ) × (n ≤ length (joined lines.now))
        × Appends (K.held sink.old) (take n (joined lines.now)) (K.held sink.new)) }
    ensures fault { OnErr result (IsTrue (rose (K.faults sink.old) (K.faults sink.new))) }
    ensures never_falls { K.faults sink.old ≤ K.faults sink.new }
{
    for line in lines {
        write_all(sink, line.as_bytes())?;
    }
    Ok(())
}

/// Prints the report of a script and its journal, each line as one piece.
///
/// The lines are made before the first is written, so that a want of memory leaves the sink as it was. After a fault
/// the sink has taken the first bytes of the report. `down` are the operations that were asked of nodes that were down,
/// and `refused` the other events that did nothing.
pub fn print_report<K: Sink>(
    alloc: Global,
    setup: &Setup,
    items: &[ScriptItem],
    journal: &Journal,
    down: &[OpId],
    refused: &[Refusal],
    ending: Ending,
    sink: &mut K,
) -> Result<(), PrintRefused>
    ensures ok { OnOk result (Appends (K.held sink.old)
        (joined (report setup.now items.now journal.now.past down.now refused.now ending)) (K.held sink.new)) }
    ensures part { OnErr result
        (let text = joined (report setup.now items.now journal.now.past down.now refused.now ending) in
        (n : ℕ) × (n ≤ length text) × Appends (K.held sink.old) (take n text) (K.held sink.new)) }
    ensures fault { IsErrOf result PrintRefused.WriteFault → IsTrue (rose (K.faults sink.old) (K.faults sink.new)) }
    ensures untouched { IsErrOf result PrintRefused.OutOfMemory → K.held sink.new ≡ K.held sink.old }
    ensures never_falls { K.faults sink.old ≤ K.faults sink.new }
{
    let lines = lines_of(alloc, setup, items, journal, down, refused, ending)?;
    write_lines(lines.as_slice(), sink)?;
    Ok(())
}
