//! The texts of values, replies, ids, counts and outcomes, and the lines that stand alone.

ghost use Rattle.std.specs.Prelude.{◌≡◌, IfOk};
ghost use Rattle.std.specs.String.{string_bytes};
ghost use Rattle.serde_json.specs.Data.{string};
ghost use Rattle.serde_json.specs.Written.{compact_text};
ghost use Rattle.report_text.specs.Report.{bytes_text, value_text, reply_text, id_text, pair_text, temp_text, counts_text, outcome_text, event_refused_text, refusal_line, condition_text, skipped_line, which_text, limit_line, header_line, table_text, ending_line, usage_line, read_fault_line, script_line};

use crate::{Ending, EventRefused, Printed, Refusal};
use contract_types::{Condition, Counts, Setup, Which};
use exec_types::Outcome;
use memory::OutOfMemory;
use region_map::Id;
use register_laws::{Reply, Value};
use script_text::Reason;
use std::alloc::Global;
use std::str;

fn json_text(alloc: Global, text: &str) -> Result<String, OutOfMemory>
    ensures { IfOk result (λ s. string_bytes s ≡ compact_text (string text.now)) }
{
    let value = serde_json::Value::try_from_str(alloc, text)?;
    let written = value.to_string(alloc)?;
    Ok(written)
}

/// A text as its JSON string, and what is no text as `bytes`.
pub(crate) fn bytes_text(alloc: Global, bytes: &[u8]) -> Result<String, OutOfMemory>
    ensures { IfOk result (λ s. string_bytes s ≡ bytes_text bytes.now) }
{
    let Ok(text) = str::from_utf8(bytes) else {
        return Ok(String::from_str(alloc, "bytes")?);
    };
    let written = json_text(alloc, text)?;
    Ok(written)
}

fn value_text(alloc: Global, value: &Option<Value>) -> Result<String, OutOfMemory>
    ensures { IfOk result (λ s. string_bytes s ≡ value_text value.now) }
{
    match value {
        Some(value) => bytes_text(alloc, value.as_bytes()),
        None => Ok(String::from_str(alloc, "none")?),
    }
}

fn reply_text(alloc: Global, reply: &Reply) -> Result<String, OutOfMemory>
    ensures { IfOk result (λ s. string_bytes s ≡ reply_text reply.now) }
{
    match reply {
        Reply::Was(value) => value_text(alloc, value),
        Reply::Swapped => Ok(String::from_str(alloc, "swapped")?),
        Reply::Kept(value) => {
            let kept = value_text(alloc, value)?;
            Ok(format!(in alloc; "kept {kept}")?)
        }
    }
}

fn id_text(alloc: Global, id: Id) -> Result<String, OutOfMemory>
    ensures { IfOk result (λ s. string_bytes s ≡ id_text id) }
{
    Ok(format!(in alloc; "{}.{}.{}", id.node.0, id.life, id.counter)?)
}

fn pair_text(alloc: Global, counted: u8, of: u8) -> Result<String, OutOfMemory>
    ensures { IfOk result (λ s. string_bytes s ≡ pair_text counted of) }
{
    Ok(format!(in alloc; "{counted} of {of}")?)
}

fn temp_text(alloc: Global, temp: Option<(u8, u8)>) -> Result<String, OutOfMemory>
    ensures { IfOk result (λ s. string_bytes s ≡ temp_text temp) }
{
    match temp {
        Some((counted, of)) => {
            let pair = pair_text(alloc, counted, of)?;
            Ok(format!(in alloc; " temp {pair}")?)
        }
        None => Ok(String::new(alloc)),
    }
}

fn counts_text(alloc: Global, counts: Counts) -> Result<String, OutOfMemory>
    ensures { IfOk result (λ s. string_bytes s ≡ counts_text counts) }
{
    let voters = pair_text(alloc, counts.voters, counts.of)?;
    let temp = temp_text(alloc, counts.temp)?;
    Ok(format!(in alloc; "voters {voters}{temp}")?)
}

/// What became of an operation that was answered.
pub(crate) fn outcome_text(alloc: Global, outcome: &Outcome) -> Result<String, OutOfMemory>
    ensures { IfOk result (λ s. string_bytes s ≡ outcome_text outcome.now) }
{
    match outcome {
        Outcome::Done {
            reply,
            branch,
            timestamp,
        } => {
            let reply = reply_text(alloc, reply)?;
            let branch = id_text(alloc, *branch)?;
            Ok(format!(in alloc; "done {reply} {branch}:{timestamp}")?)
        }
        Outcome::NotServing => Ok(String::from_str(alloc, "unavailable not_serving")?),
        Outcome::NoMajority(counts) => {
            let counts = counts_text(alloc, *counts)?;
            Ok(format!(in alloc; "unavailable no_majority {counts}")?)
        }
    }
}

fn event_refused_text(reason: EventRefused) -> &'static str
    ensures { result.now ≡ event_refused_text reason }
{
    match reason {
        EventRefused::Down => "down",
        EventRefused::Up => "up",
        EventRefused::NoSuchMessage => "no_such_message",
        EventRefused::NotYours => "not_yours",
    }
}

/// The line of an event that did nothing.
pub(crate) fn refusal_line(alloc: Global, refusal: Refusal) -> Result<Printed, OutOfMemory>
    ensures { IfOk result (λ line. line ≡ refusal_line refusal) }
{
    let reason = event_refused_text(refusal.reason);
    Ok(Printed::new(format!(in alloc; "refused {} {reason}\n", refusal.line)?))
}

fn condition_text(condition: Condition) -> &'static str
    ensures { result.now ≡ condition_text condition }
{
    match condition {
        Condition::Removed => "removed",
        Condition::Regions => "regions",
        Condition::Primary => "primary",
        Condition::IdNew => "id_new",
        Condition::Tenure => "tenure",
        Condition::BasedOn => "based_on",
    }
}

/// The line of a change that was skipped.
pub(crate) fn skipped_line(
    alloc: Global,
    index: u64,
    condition: Condition,
) -> Result<Printed, OutOfMemory>
    ensures { IfOk result (λ line. line ≡ skipped_line index condition) }
{
    let condition = condition_text(condition);
    Ok(Printed::new(format!(in alloc; "skipped {index} {condition}\n")?))
}

fn which_text(which: Which) -> &'static str
    ensures { result.now ≡ which_text which }
{
    match which {
        Which::ScriptBytes => "script_bytes",
        Which::LineBytes => "line_bytes",
        Which::JournalEntries => "journal_entries",
        Which::JournalWeight => "journal_weight",
        Which::Numbers => "numbers",
    }
}

/// The line that tells which limit ended a run.
pub fn limit_line(alloc: Global, which: Which, number: u64) -> Result<Printed, OutOfMemory>
    ensures { IfOk result (λ line. line ≡ limit_line which number) }
{
    let which = which_text(which);
    Ok(Printed::new(format!(in alloc; "limit {which} {number}\n")?))
}

/// The line that tells what the table began with.
pub(crate) fn header_line(alloc: Global, setup: &Setup) -> Result<Printed, OutOfMemory>
    ensures { IfOk result (λ line. line ≡ header_line setup.now) }
{
    let table = table_text(
        alloc,
        setup.nodes(),
        setup.hashes(),
        setup.config().shards().len(),
    )?;
    Ok(Printed::new(format!(in alloc; "table {table}\n")?))
}

fn table_text(alloc: Global, nodes: u8, hashes: u8, shards: usize) -> Result<String, OutOfMemory>
    ensures { IfOk result (λ s. string_bytes s ≡ table_text nodes hashes shards) }
{
    Ok(format!(in alloc; "nodes {nodes} hash {hashes} shards {shards}")?)
}

/// The line that tells how a run ended.
pub(crate) fn ending_line(alloc: Global, ending: Ending) -> Result<Printed, OutOfMemory>
    ensures { IfOk result (λ line. line ≡ ending_line ending) }
{
    match ending {
        Ending::End => Ok(Printed::new(String::from_str(alloc, "end\n")?)),
        Ending::Limit { which, number } => limit_line(alloc, which, number),
    }
}

/// The line that tells that the words of a command are not known.
pub fn usage_line() -> &'static str
    ensures { result.now ≡ usage_line }
{
    "usage\n"
}

/// The line that tells that a read of the script failed.
pub fn read_fault_line() -> &'static str
    ensures { result.now ≡ read_fault_line }
{
    "read fault\n"
}

/// The line that tells which line of a script is refused, and why.
pub fn script_line(alloc: Global, line: u64, reason: Reason) -> Result<Printed, OutOfMemory>
    ensures { IfOk result (λ printed. printed ≡ script_line line reason) }
{
    let reason = reason.text();
    Ok(Printed::new(format!(in alloc; "script {line} {reason}\n")?))
}
