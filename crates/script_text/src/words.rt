//! The words of a script, each with its members.
ghost use Rattle.std.specs.Prelude.{◌≡◌, nat_lt, option_map};
ghost use Rattle.std.specs.List.{list_all};
ghost use Rattle.region_map.specs.declared.id.NodeId.{NodeId};
ghost use Rattle.script_text.specs.declared.script.ScriptWord.{ScriptWord};
ghost use Rattle.script_text.specs.Members.{only_of};
ghost use Rattle.script_text.specs.Grammar.{value_of, setup_of, put_of, delete_of, read_of, cas_of, giveup_of, see_of, node_word_of, deliver_of, lose_one_of, lose_between_of, lose_of, flush_of, settle_of, word_named, key_in, value_in, value_or_null, value_or_null_in};
ghost use Rattle.script_text.specs.LineReads.{IsReadAs};
ghost use Rattle.serde_json.specs.View.{view};

use crate::line_refused::LineRefused;
use crate::members::{
    key_of, node_at, node_in, node_or_none, number_in, number_or, op_in, text_in, truth_in,
};
use crate::shards::{nodes_of, setup_with};
use crate::{Reason, ScriptWord};
use contract_types::Setup;
use region_map::{Key, NodeId, NodeSet};
use register_laws::{Op, Value as RegisterValue};
use serde_json::Value;
use std::alloc::Global;

/// `setup`: what the table begins with.
pub(crate) fn setup_of(alloc: Global, line: &Value) -> Result<Setup, LineRefused>
    ensures { IsReadAs result (setup_of (view line.now)) }
{
    let nodes = number_in("nodes", line).ok_or(Reason::Member)?;
    let hashes = number_or(8, "hash", line).ok_or(Reason::Member)?;
    if !(1 <= nodes && nodes <= 7 && matches!(hashes, 1 | 2 | 4 | 8)) {
        return Err(LineRefused::Because(Reason::Range));
    }
    setup_with(alloc, nodes as u8, hashes as u8, line.get("shards"))
}

/// The key of a line.
fn key_in(alloc: Global, line: &Value) -> Result<Key, LineRefused>
    ensures { IsReadAs result (key_in (view line.now)) }
{
    let text = text_in("key", line).ok_or(Reason::Member)?;
    key_of(alloc, text)
}

/// A text as a value.
fn value_of(alloc: Global, text: &str) -> Result<RegisterValue, LineRefused>
    ensures { IsReadAs result (value_of text.now) }
{
    let bytes = Vec::from_slice(alloc, text.as_bytes())?;
    match RegisterValue::new(bytes) {
        Ok(value) => Ok(value),
        Err(_length) => Err(LineRefused::Because(Reason::ValueLength)),
    }
}

/// The value of a line.
fn value_in(alloc: Global, line: &Value) -> Result<RegisterValue, LineRefused>
    ensures { IsReadAs result (value_in (view line.now)) }
{
    let text = text_in("value", line).ok_or(Reason::Member)?;
    value_of(alloc, text)
}

/// The value that a member tells: none by `null`.
fn value_or_null(alloc: Global, member: &Value) -> Result<Option<RegisterValue>, LineRefused>
    ensures { IsReadAs result (value_or_null (view member.now)) }
{
    if member.is_null() {
        return Ok(None);
    }
    let text = member.as_str().ok_or(Reason::Member)?;
    let value = value_of(alloc, text)?;
    Ok(Some(value))
}

/// The value at a name: none by `null`, but not by a missing member.
fn value_or_null_in(
    alloc: Global,
    name: &str,
    line: &Value,
) -> Result<Option<RegisterValue>, LineRefused>
    ensures { IsReadAs result (value_or_null_in name.now (view line.now)) }
{
    let member = line.get(name).ok_or(Reason::Member)?;
    value_or_null(alloc, member)
}

/// `put`: a request that sets a key.
fn put_of(alloc: Global, setup: &Setup, line: &Value) -> Result<ScriptWord, LineRefused>
    ensures { IsReadAs result (put_of setup.now (view line.now)) }
{
    let op = op_in("op", line).ok_or(Reason::Member)?;
    let node = node_in(setup, line).ok_or(Reason::Node)?;
    let key = key_in(alloc, line)?;
    let value = value_in(alloc, line)?;
    let what = Op::Put(value);
    Ok(ScriptWord::Request {
        op,
        node,
        key,
        what,
    })
}

/// `delete`: a request that removes a key.
fn delete_of(alloc: Global, setup: &Setup, line: &Value) -> Result<ScriptWord, LineRefused>
    ensures { IsReadAs result (delete_of setup.now (view line.now)) }
{
    let op = op_in("op", line).ok_or(Reason::Member)?;
    let node = node_in(setup, line).ok_or(Reason::Node)?;
    let key = key_in(alloc, line)?;
    let what = Op::Delete;
    Ok(ScriptWord::Request {
        op,
        node,
        key,
        what,
    })
}

/// `read`: a request that reads a key.
fn read_of(alloc: Global, setup: &Setup, line: &Value) -> Result<ScriptWord, LineRefused>
    ensures { IsReadAs result (read_of setup.now (view line.now)) }
{
    let op = op_in("op", line).ok_or(Reason::Member)?;
    let node = node_in(setup, line).ok_or(Reason::Node)?;
    let key = key_in(alloc, line)?;
    let what = Op::Read;
    Ok(ScriptWord::Request {
        op,
        node,
        key,
        what,
    })
}

/// `cas`: a request that sets or removes a key where it has the value that is expected.
fn cas_of(alloc: Global, setup: &Setup, line: &Value) -> Result<ScriptWord, LineRefused>
    ensures { IsReadAs result (cas_of setup.now (view line.now)) }
{
    let op = op_in("op", line).ok_or(Reason::Member)?;
    let node = node_in(setup, line).ok_or(Reason::Node)?;
    let key = key_in(alloc, line)?;
    let expect = value_or_null_in(alloc, "expect", line)?;
    let put = value_or_null_in(alloc, "value", line)?;
    let what = Op::Cas { expect, put };
    Ok(ScriptWord::Request {
        op,
        node,
        key,
        what,
    })
}

/// `giveup`: a client no longer waits.
fn giveup_of(setup: &Setup, line: &Value) -> Result<ScriptWord, Reason>
    ensures { result ≡ giveup_of setup.now (view line.now) }
{
    let op = op_in("for", line).ok_or(Reason::Member)?;
    let node = node_in(setup, line).ok_or(Reason::Node)?;
    Ok(ScriptWord::GiveUp { node, op })
}

/// `see`: a node is told whether it sees another one.
fn see_of(setup: &Setup, line: &Value) -> Result<ScriptWord, Reason>
    ensures { result ≡ see_of setup.now (view line.now) }
{
    let up = truth_in("up", line).ok_or(Reason::Member)?;
    let node = node_in(setup, line).ok_or(Reason::Node)?;
    let other = node_at("other", setup, line).ok_or(Reason::Node)?;
    Ok(ScriptWord::See { node, other, up })
}

/// `deliver`: a message arrives.
fn deliver_of(setup: &Setup, line: &Value) -> Result<ScriptWord, Reason>
    ensures { result ≡ deliver_of setup.now (view line.now) }
{
    let message = number_in("message", line).ok_or(Reason::Member)?;
    let node = node_or_none("node", setup, line).ok_or(Reason::Node)?;
    Ok(ScriptWord::Deliver { message, node })
}

/// `lose` with a message: it is lost.
fn lose_one_of(line: &Value) -> Result<ScriptWord, Reason>
    ensures { result ≡ lose_one_of (view line.now) }
{
    let message = number_in("message", line).ok_or(Reason::Member)?;
    Ok(ScriptWord::Lose(message))
}

/// `lose` with two nodes: what is under way from one to the other is lost.
fn lose_between_of(setup: &Setup, line: &Value) -> Result<ScriptWord, Reason>
    ensures { result ≡ lose_between_of setup.now (view line.now) }
{
    let from = node_at("from", setup, line).ok_or(Reason::Node)?;
    let to = node_at("to", setup, line).ok_or(Reason::Node)?;
    Ok(ScriptWord::LoseBetween { from, to })
}

/// `lose`, with a message or with two nodes.
fn lose_of(setup: &Setup, line: &Value) -> Result<ScriptWord, Reason>
    ensures { result ≡ lose_of setup.now (view line.now) }
{
    if line.get("message").is_some() {
        lose_one_of(line)
    } else {
        lose_between_of(setup, line)
    }
}

/// The nodes of a list, if all are of the table; none stands for all nodes.
fn only_of(setup: &Setup, list: Option<&Value>) -> Option<Option<NodeSet>>
    ensures { result ≡ only_of setup.now (option_map (λ v. view v.now) list.entry) }
{
    let Some(list) = list else {
        return Some(None);
    };
    let only = nodes_of(list)?;
    if !are_nodes(setup, &only) {
        return None;
    }
    Some(Some(only))
}

/// Whether all of these nodes are of the table.
fn are_nodes(setup: &Setup, set: &NodeSet) -> bool
    ensures { result ≡ list_all (λ n. nat_lt n setup.now.nodes) set.now }
{
    let nodes = setup.nodes();
    set.iter().all(|node| node.0 < nodes)
}

/// `flush`: every waiting message arrives.
fn flush_of(setup: &Setup, line: &Value) -> Result<ScriptWord, Reason>
    ensures { result ≡ flush_of setup.now (view line.now) }
{
    let only = only_of(setup, line.get("only")).ok_or(Reason::Node)?;
    Ok(ScriptWord::Flush { only })
}

/// `settle`: ticks and waiting messages, round after round.
fn settle_of(setup: &Setup, line: &Value) -> Result<ScriptWord, Reason>
    ensures { result ≡ settle_of setup.now (view line.now) }
{
    let rounds = number_in("rounds", line).ok_or(Reason::Member)?;
    if !(0 < rounds && rounds <= 100) {
        return Err(Reason::Range);
    }
    let only = only_of(setup, line.get("only")).ok_or(Reason::Node)?;
    Ok(ScriptWord::Settle { rounds, only })
}

/// The word of a line whose `do` is this name, once the line has the members of the word.
pub(crate) fn word_named(
    alloc: Global,
    setup: &Setup,
    name: &str,
    line: &Value,
) -> Result<ScriptWord, LineRefused>
    ensures { IsReadAs result (word_named setup.now name.now (view line.now)) }
{
    if name == "put" {
        return put_of(alloc, setup, line);
    }
    if name == "delete" {
        return delete_of(alloc, setup, line);
    }
    if name == "read" {
        return read_of(alloc, setup, line);
    }
    if name == "cas" {
        return cas_of(alloc, setup, line);
    }
    if name == "giveup" {
        return Ok(giveup_of(setup, line)?);
    }
    if name == "see" {
        return Ok(see_of(setup, line)?);
    }
    if name == "crash" {
        let node = node_in(setup, line).ok_or(Reason::Node)?;
        return Ok(ScriptWord::Crash(node));
    }
    if name == "restart" {
        let node = node_in(setup, line).ok_or(Reason::Node)?;
        return Ok(ScriptWord::Restart(node));
    }
    if name == "tick" {
        let node = node_in(setup, line).ok_or(Reason::Node)?;
        return Ok(ScriptWord::Tick(node));
    }
    if name == "deliver" {
        return Ok(deliver_of(setup, line)?);
    }
    if name == "lose" {
        return Ok(lose_of(setup, line)?);
    }
    if name == "flush" {
        return Ok(flush_of(setup, line)?);
    }
    if name == "settle" {
        return Ok(settle_of(setup, line)?);
    }
    Err(LineRefused::Because(Reason::Word))
}
