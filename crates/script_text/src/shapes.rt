//! Which members the line of each word has.
ghost use Rattle.std.specs.Prelude.{◌≡◌, option_map};
ghost use Rattle.script_text.specs.Shapes.{is_number, is_number_or_none, is_text, is_text_or_null, are_numbers, is_list_of_numbers, are_numbers_or_none, is_text_or_none, is_bound_or_none, are_nodes_or_none, has_nodes, has_region, is_shard, are_shards, is_list_of_shards, are_shards_or_none, has_chances, has_setup, has_request, has_put, has_key_alone, has_cas, has_giveup, has_see, has_node_alone, has_tick, has_deliver, has_lose_one, has_lose_between, has_lose, has_flush, has_settle, is_later, has_members, stands, is_here};
ghost use Rattle.serde_json.specs.View.{view, items_view};
ghost use Rattle.serde_json.specs.Find.{as_array};

use crate::Reason;
use crate::members::{has_only, number_in, number_or, text_in, truth_in};
use crate::shards::{band_or, node_of, nodes_of};
use serde_json::Value;

fn is_number(name: &str, line: &Value) -> bool
    ensures { result ≡ is_number name.now (view line.now) }
{
    number_in(name, line).is_some()
}

fn is_number_or_none(name: &str, line: &Value) -> bool
    ensures { result ≡ is_number_or_none name.now (view line.now) }
{
    number_or(0, name, line).is_some()
}

fn is_text(name: &str, line: &Value) -> bool
    ensures { result ≡ is_text name.now (view line.now) }
{
    text_in(name, line).is_some()
}

fn is_text_or_null(value: Option<&Value>) -> bool
    ensures { result ≡ is_text_or_null (option_map (λ v. view v.now) value.entry) }
{
    match value {
        None => false,
        Some(value) => value.is_null() || value.is_string(),
    }
}

fn are_numbers(items: &[Value]) -> bool
    ensures { result ≡ are_numbers (items_view items.now) }
{
    for item in items {
        if item.as_u64().is_none() {
            return false;
        }
    }
    true
}

fn is_list_of_numbers(value: &Value) -> bool
    ensures { result ≡ is_list_of_numbers (as_array (view value.now)) }
{
    match value.as_array() {
        None => false,
        Some(items) => are_numbers(items),
    }
}

fn are_numbers_or_none(value: Option<&Value>) -> bool
    ensures { result ≡ are_numbers_or_none (option_map (λ v. view v.now) value.entry) }
{
    match value {
        None => true,
        Some(value) => is_list_of_numbers(value),
    }
}

fn is_text_or_none(value: Option<&Value>) -> bool
    ensures { result ≡ is_text_or_none (option_map (λ v. view v.now) value.entry) }
{
    match value {
        None => true,
        Some(value) => value.is_string(),
    }
}

fn is_bound_or_none(value: Option<&Value>) -> bool
    ensures { result ≡ is_bound_or_none (option_map (λ v. view v.now) value.entry) }
{
    match value {
        None => true,
        Some(value) => value.is_null() || value.is_string(),
    }
}

fn are_nodes_or_none(value: Option<&Value>) -> bool
    ensures { result ≡ are_nodes_or_none (option_map (λ v. view v.now) value.entry) }
{
    match value {
        None => true,
        Some(value) => nodes_of(value).is_some(),
    }
}

/// Whether a shard has the members that tell of its nodes.
fn has_nodes(shard: &Value) -> bool
    ensures { result ≡ has_nodes (view shard.now) }
{
    shard.get("replicas").and_then(nodes_of).is_some()
        && shard.get("primary").and_then(node_of).is_some()
        && are_nodes_or_none(shard.get("voters"))
}

/// Whether a shard has the members that tell of its region.
fn has_region(shard: &Value) -> bool
    ensures { result ≡ has_region (view shard.now) }
{
    band_or(8, shard.get("hash")).is_some()
        && is_text_or_none(shard.get("from"))
        && is_bound_or_none(shard.get("to"))
}

/// Whether a shard has its members.
fn is_shard(shard: &Value) -> bool
    ensures { result ≡ is_shard (view shard.now) }
{
    let names = ["replicas", "voters", "primary", "hash", "from", "to"];
    has_nodes(shard) && has_region(shard) && has_only(&names, shard)
}

fn are_shards(items: &[Value]) -> bool
    ensures { result ≡ are_shards (items_view items.now) }
{
    for item in items {
        if !is_shard(item) {
            return false;
        }
    }
    true
}

fn is_list_of_shards(value: &Value) -> bool
    ensures { result ≡ is_list_of_shards (as_array (view value.now)) }
{
    match value.as_array() {
        None => false,
        Some(items) => are_shards(items),
    }
}

fn are_shards_or_none(value: Option<&Value>) -> bool
    ensures { result ≡ are_shards_or_none (option_map (λ v. view v.now) value.entry) }
{
    match value {
        None => true,
        Some(value) => is_list_of_shards(value),
    }
}

/// Whether the members of a setup that are of the other program are numbers, where they stand.
fn has_chances(line: &Value) -> bool
    ensures { result ≡ has_chances (view line.now) }
{
    is_number_or_none("turns", line)
        && is_number_or_none("seed", line)
        && is_number_or_none("loss", line)
        && is_number_or_none("twice", line)
        && is_number_or_none("ticks", line)
}

/// Whether a setup has its members.
fn has_setup(line: &Value) -> bool
    ensures { result ≡ has_setup (view line.now) }
{
    is_number("nodes", line)
        && is_number_or_none("hash", line)
        && are_shards_or_none(line.get("shards"))
        && has_chances(line)
        && has_only(
            &[
                "do", "nodes", "hash", "shards", "turns", "seed", "loss", "twice", "ticks",
            ],
            line,
        )
}

/// Whether a line asks for an operation on a key at a node.
fn has_request(line: &Value) -> bool
    ensures { result ≡ has_request (view line.now) }
{
    is_number("op", line)
        && is_number("node", line)
        && is_text("key", line)
        && is_number_or_none("after", line)
}

/// Whether a `put` has its members.
fn has_put(line: &Value) -> bool
    ensures { result ≡ has_put (view line.now) }
{
    has_request(line)
        && is_text("value", line)
        && has_only(&["do", "op", "node", "key", "value", "after"], line)
}

/// Whether a `delete` or a `read` has its members.
fn has_key_alone(line: &Value) -> bool
    ensures { result ≡ has_key_alone (view line.now) }
{
    has_request(line) && has_only(&["do", "op", "node", "key", "after"], line)
}

/// Whether a `cas` has its members.
fn has_cas(line: &Value) -> bool
    ensures { result ≡ has_cas (view line.now) }
{
    has_request(line)
        && is_text_or_null(line.get("expect"))
        && is_text_or_null(line.get("value"))
        && has_only(
            &["do", "op", "node", "key", "expect", "value", "after"],
            line,
        )
}

/// Whether a `giveup` has its members.
fn has_giveup(line: &Value) -> bool
    ensures { result ≡ has_giveup (view line.now) }
{
    is_number("node", line)
        && is_number("for", line)
        && is_number_or_none("after", line)
        && has_only(&["do", "node", "for", "after"], line)
}

/// Whether a `see` has its members.
fn has_see(line: &Value) -> bool
    ensures { result ≡ has_see (view line.now) }
{
    is_number("node", line)
        && is_number("other", line)
        && truth_in("up", line).is_some()
        && is_number_or_none("after", line)
        && has_only(&["do", "node", "other", "up", "after"], line)
}

/// Whether a `crash` or a `restart` has its members.
fn has_node_alone(line: &Value) -> bool
    ensures { result ≡ has_node_alone (view line.now) }
{
    is_number("node", line)
        && is_number_or_none("after", line)
        && has_only(&["do", "node", "after"], line)
}

/// Whether a `tick` has its members.
fn has_tick(line: &Value) -> bool
    ensures { result ≡ has_tick (view line.now) }
{
    is_number("node", line) && has_only(&["do", "node"], line)
}

/// Whether a `deliver` has its members.
fn has_deliver(line: &Value) -> bool
    ensures { result ≡ has_deliver (view line.now) }
{
    is_number("message", line)
        && is_number_or_none("node", line)
        && has_only(&["do", "message", "node"], line)
}

/// Whether a `lose` of one message has its members.
fn has_lose_one(line: &Value) -> bool
    ensures { result ≡ has_lose_one (view line.now) }
{
    is_number("message", line) && has_only(&["do", "message"], line)
}

/// Whether a `lose` between two nodes has its members.
fn has_lose_between(line: &Value) -> bool
    ensures { result ≡ has_lose_between (view line.now) }
{
    is_number("from", line) && is_number("to", line) && has_only(&["do", "from", "to"], line)
}

/// Whether a `lose` has its members; beside a message no nodes may stand.
fn has_lose(line: &Value) -> bool
    ensures { result ≡ has_lose (view line.now) }
{
    if line.get("message").is_some() {
        has_lose_one(line)
    } else {
        has_lose_between(line)
    }
}

/// Whether a `flush` has its members.
fn has_flush(line: &Value) -> bool
    ensures { result ≡ has_flush (view line.now) }
{
    are_numbers_or_none(line.get("only")) && has_only(&["do", "only"], line)
}

/// Whether a `settle` has its members.
fn has_settle(line: &Value) -> bool
    ensures { result ≡ has_settle (view line.now) }
{
    is_number("rounds", line)
        && are_numbers_or_none(line.get("only"))
        && has_only(&["do", "rounds", "only"], line)
}

/// Whether a word is one that no program plays yet.
fn is_later(name: &str) -> bool
    ensures { result ≡ is_later name.now }
{
    name == "config" || name == "fail"
}

/// Whether a line has the members of the word of this name, if there is such a word.
pub(crate) fn has_members(name: &str, line: &Value) -> Result<bool, Reason>
    ensures { result ≡ has_members name.now (view line.now) }
{
    if name == "setup" {
        return Ok(has_setup(line));
    }
    if name == "put" {
        return Ok(has_put(line));
    }
    if name == "delete" {
        return Ok(has_key_alone(line));
    }
    if name == "read" {
        return Ok(has_key_alone(line));
    }
    if name == "cas" {
        return Ok(has_cas(line));
    }
    if name == "giveup" {
        return Ok(has_giveup(line));
    }
    if name == "see" {
        return Ok(has_see(line));
    }
    if name == "crash" {
        return Ok(has_node_alone(line));
    }
    if name == "restart" {
        return Ok(has_node_alone(line));
    }
    if name == "tick" {
        return Ok(has_tick(line));
    }
    if name == "deliver" {
        return Ok(has_deliver(line));
    }
    if name == "lose" {
        return Ok(has_lose(line));
    }
    if name == "flush" {
        return Ok(has_flush(line));
    }
    if name == "settle" {
        return Ok(has_settle(line));
    }
    if is_later(name) {
        return Err(Reason::NotBuilt);
    }
    Err(Reason::Word)
}

fn stands(name: &str, line: &Value) -> bool
    ensures { result ≡ stands name.now (view line.now) }
{
    line.get(name).is_some()
}

/// Whether a line has no member of the other program.
pub(crate) fn is_here(line: &Value) -> bool
    ensures { result ≡ is_here (view line.now) }
{
    !(stands("after", line)
        || stands("turns", line)
        || stands("seed", line)
        || stands("loss", line)
        || stands("twice", line)
        || stands("ticks", line))
}
