//! The events of a script, in order.
ghost use Rattle.std.specs.Prelude.{◌≡◌, ◌<◌, ◌++◌, ◌∷◌, [], ℕ, List, None, true, false, nat_lt, IfOk, OnOk, OnErr};
ghost use Rattle.std.specs.List.{list_all};
ghost use Rattle.node_core.specs.declared.journal.Entry.{Entry};
ghost use Rattle.world_core.specs.runs.Run.{message_at};
ghost use Rattle.script_text.specs.Sound.{fits_table, fits_only};
ghost use Rattle.table_play.specs.Play.{is_over, play_event, play_arrival, play_delivery, play_loss, play_flush, play_tick, play_ticks, play_round, play_rounds, play_word, play_items, only_of};
ghost use Rattle.table_play.specs.Steps.{played_by, played_at, HasPartOf, asked_in, down_as};

use contract_types::{Setup, Which, nodes_below};
use exec_types::Input;
use memory::OutOfMemory;
use region_map::{NodeId, NodeSet};
use register_laws::OpId;
use report_text::{EventRefused, Refusal};
use script_text::{ScriptItem, ScriptWord};
use std::alloc::Global;
use world_core::World;
use world_steps::{LoseRefused, PushRefused};

/// Says that an event of a line did nothing, and why.
fn refuse(line: u64, reason: EventRefused, refused: &mut Vec<Refusal>) -> Result<(), OutOfMemory>
    ensures { OnOk result (refused.new.items ≡ refused.old.items ++ record { line = line; reason = reason } ∷ []) }
{
    refused.push(Refusal { line, reason })?;
    Ok(())
}

/// The operation that an input asks for.
fn asked(input: &Input) -> Option<OpId>
    ensures { result ≡ asked_in input.now }
{
    match input {
        Input::Request { op, .. } => Some(*op),
        Input::GiveUp { .. } => None,
        Input::See { .. } => None,
        Input::Tick => None,
        Input::Deliver { .. } => None,
        Input::Crash => None,
        Input::Restart => None,
    }
}

/// Says that an event of a line came to a node that was down: an operation is listed by its own number.
fn refuse_down(
    line: u64,
    asked: Option<OpId>,
    down: &mut Vec<OpId>,
    refused: &mut Vec<Refusal>,
) -> Result<(), OutOfMemory>
    ensures { (past : List Entry) (lost : List ℕ) → OnOk result (played_by past lost down.new.items refused.new.items None
        ≡ down_as (played_by past lost down.old.items refused.old.items None) line asked) }
{
    match asked {
        None => refuse(line, EventRefused::Down, refused),
        Some(op) => {
            down.push(op)?;
            Ok(())
        }
    }
}

#[tactic(auto, using(crate::proofs::Flushes::down_asked))]
/// Gives a node an input, or says why the event did nothing. The answer is the limit that was met.
fn event(
    alloc: Global,
    world: &mut World,
    line: u64,
    node: NodeId,
    input: Input,
    down: &mut Vec<OpId>,
    refused: &mut Vec<Refusal>,
) -> Result<Option<Which>, OutOfMemory>
    requires { world.old.ended ≡ None }
    ensures ok { IfOk result (λ met. played_at world.new down.new.items refused.new.items met
        ≡ play_event world.old.setup (played_at world.old down.old.items refused.old.items None) line node input) }
    ensures on { IfOk result (λ met. is_over met ≡ false → world.new.ended ≡ None) }
    ensures setup { world.new.setup ≡ world.old.setup }
    ensures err { OnErr result (world.new.past ≡ world.old.past) }
{
    let asked = asked(&input);
    match world.push(alloc, node, input) {
        Ok(_) => Ok(None),
        Err(PushRefused::NoSuchNode) => Ok(None),
        Err(PushRefused::NoSuchMessage) => {
            refuse(line, EventRefused::NoSuchMessage, refused)?;
            Ok(None)
        }
        Err(PushRefused::NotYours) => {
            refuse(line, EventRefused::NotYours, refused)?;
            Ok(None)
        }
        Err(PushRefused::Down) => {
            refuse_down(line, asked, down, refused)?;
            Ok(None)
        }
        Err(PushRefused::Up) => {
            refuse(line, EventRefused::Up, refused)?;
            Ok(None)
        }
        Err(PushRefused::OpKnown) => Ok(None),
        Err(PushRefused::JournalFull(which)) => Ok(Some(which)),
        Err(PushRefused::OutOfMemory) => Err(OutOfMemory),
    }
}

/// Delivers the message of a number to the node that it is for; a message that was not sent is refused.
fn arrival(
    alloc: Global,
    world: &mut World,
    line: u64,
    message: u64,
    down: &mut Vec<OpId>,
    refused: &mut Vec<Refusal>,
) -> Result<Option<Which>, OutOfMemory>
    requires { world.old.ended ≡ None }
    ensures ok { IfOk result (λ met. played_at world.new down.new.items refused.new.items met
        ≡ play_arrival world.old.setup (played_at world.old down.old.items refused.old.items None) line message
        (message_at world.old.past message)) }
    ensures on { IfOk result (λ met. is_over met ≡ false → world.new.ended ≡ None) }
    ensures setup { world.new.setup ≡ world.old.setup }
    ensures err { OnErr result (world.new.past ≡ world.old.past) }
{
    match world.receiver(message) {
        None => {
            refuse(line, EventRefused::NoSuchMessage, refused)?;
            Ok(None)
        }
        Some(node) => event(
            alloc,
            world,
            line,
            node,
            Input::Deliver { message },
            down,
            refused,
        ),
    }
}

/// Delivers the message of a number to a node that the line names, or to the node that it is for.
fn delivery(
    alloc: Global,
    world: &mut World,
    line: u64,
    message: u64,
    node: Option<NodeId>,
    down: &mut Vec<OpId>,
    refused: &mut Vec<Refusal>,
) -> Result<Option<Which>, OutOfMemory>
    requires { world.old.ended ≡ None }
    ensures ok { IfOk result (λ met. played_at world.new down.new.items refused.new.items met
        ≡ play_delivery world.old.setup (played_at world.old down.old.items refused.old.items None) line message node) }
    ensures on { IfOk result (λ met. is_over met ≡ false → world.new.ended ≡ None) }
    ensures setup { world.new.setup ≡ world.old.setup }
    ensures err { OnErr result (world.new.past ≡ world.old.past) }
{
    match node {
        None => arrival(alloc, world, line, message, down, refused),
        Some(node) => event(
            alloc,
            world,
            line,
            node,
            Input::Deliver { message },
            down,
            refused,
        ),
    }
}

/// Marks the message of a number lost; one that was not sent is refused.
fn loss(
    world: &mut World,
    line: u64,
    message: u64,
    down: &Vec<OpId>,
    refused: &mut Vec<Refusal>,
) -> Result<(), OutOfMemory>
    requires { world.old.ended ≡ None }
    ensures ok { OnOk result (played_at world.new down.now.items refused.new.items None
        ≡ play_loss (played_at world.old down.now.items refused.old.items None) line message (message_at world.old.past message)) }
    ensures on { world.new.ended ≡ None }
    ensures setup { world.new.setup ≡ world.old.setup }
    ensures err { OnErr result (world.new.past ≡ world.old.past) }
{
    let _down = down;
    match world.lose(message) {
        Ok(()) => Ok(()),
        Err(LoseRefused::NoSuchMessage) => refuse(line, EventRefused::NoSuchMessage, refused),
        Err(LoseRefused::OutOfMemory) => Err(OutOfMemory),
    }
}

/// Delivers the least message that waits among some nodes, again and again, until none waits or a limit is met.
fn flush(
    alloc: Global,
    world: &mut World,
    line: u64,
    only: &NodeSet,
    down: &mut Vec<OpId>,
    refused: &mut Vec<Refusal>,
) -> Result<Option<Which>, OutOfMemory>
    requires on { world.old.ended ≡ None }
    requires only { list_all (λ n. nat_lt n world.old.setup.nodes) only.now ≡ true }
    ensures ok { IfOk result (λ met. played_at world.new down.new.items refused.new.items met
        ≡ play_flush world.old.setup only.now (played_at world.old down.old.items refused.old.items None) line) }
    ensures on { IfOk result (λ met. is_over met ≡ false → world.new.ended ≡ None) }
    ensures setup { world.new.setup ≡ world.old.setup }
    ensures err { OnErr result (HasPartOf world.new
        (play_flush world.old.setup only.now (played_at world.old down.old.items refused.old.items None) line)) }
{
    for _count in 0..u64::MAX {
        let Some(message) = world.waiting(only) else {
            return Ok(None);
        };
        if let Some(which) = arrival(alloc, world, line, message, down, refused)? {
            return Ok(Some(which));
        }
    }
    Ok(None)
}

/// A node ticks, if it is up.
fn tick(
    alloc: Global,
    world: &mut World,
    line: u64,
    node: NodeId,
    down: &mut Vec<OpId>,
    refused: &mut Vec<Refusal>,
) -> Result<Option<Which>, OutOfMemory>
    requires on { world.old.ended ≡ None }
    requires within { nat_lt node.0 world.old.setup.nodes ≡ true }
    ensures ok { IfOk result (λ met. played_at world.new down.new.items refused.new.items met
        ≡ play_tick world.old.setup (played_at world.old down.old.items refused.old.items None) line node.0) }
    ensures on { IfOk result (λ met. is_over met ≡ false → world.new.ended ≡ None) }
    ensures setup { world.new.setup ≡ world.old.setup }
    ensures err { OnErr result (world.new.past ≡ world.old.past) }
{
    if world.is_up(node) {
        event(alloc, world, line, node, Input::Tick, down, refused)
    } else {
        Ok(None)
    }
}

/// Each of some nodes ticks that is up, unless a limit is met.
fn ticks(
    alloc: Global,
    world: &mut World,
    line: u64,
    only: &NodeSet,
    down: &mut Vec<OpId>,
    refused: &mut Vec<Refusal>,
) -> Result<Option<Which>, OutOfMemory>
    requires on { world.old.ended ≡ None }
    requires only { list_all (λ n. nat_lt n world.old.setup.nodes) only.now ≡ true }
    ensures ok { IfOk result (λ met. played_at world.new down.new.items refused.new.items met
        ≡ play_ticks world.old.setup (played_at world.old down.old.items refused.old.items None) line only.now) }
    ensures on { IfOk result (λ met. is_over met ≡ false → world.new.ended ≡ None) }
    ensures setup { world.new.setup ≡ world.old.setup }
    ensures err { OnErr result (HasPartOf world.new
        (play_ticks world.old.setup (played_at world.old down.old.items refused.old.items None) line only.now)) }
{
    for node in only.iter() {
        if let Some(which) = tick(alloc, world, line, node, down, refused)? {
            return Ok(Some(which));
        }
    }
    Ok(None)
}

/// Some nodes tick, and then what waits among them is delivered.
fn round(
    alloc: Global,
    world: &mut World,
    line: u64,
    only: &NodeSet,
    down: &mut Vec<OpId>,
    refused: &mut Vec<Refusal>,
) -> Result<Option<Which>, OutOfMemory>
    requires on { world.old.ended ≡ None }
    requires only { list_all (λ n. nat_lt n world.old.setup.nodes) only.now ≡ true }
    ensures ok { IfOk result (λ met. played_at world.new down.new.items refused.new.items met
        ≡ play_round world.old.setup only.now (played_at world.old down.old.items refused.old.items None) line) }
    ensures on { IfOk result (λ met. is_over met ≡ false → world.new.ended ≡ None) }
    ensures setup { world.new.setup ≡ world.old.setup }
    ensures err { OnErr result (HasPartOf world.new
        (play_round world.old.setup only.now (played_at world.old down.old.items refused.old.items None) line)) }
{
    if let Some(which) = ticks(alloc, world, line, only, down, refused)? {
        return Ok(Some(which));
    }
    flush(alloc, world, line, only, down, refused)
}

/// So many rounds of ticks and deliveries, unless a limit is met.
fn settle(
    alloc: Global,
    world: &mut World,
    line: u64,
    rounds: u64,
    only: &NodeSet,
    down: &mut Vec<OpId>,
    refused: &mut Vec<Refusal>,
) -> Result<Option<Which>, OutOfMemory>
    requires on { world.old.ended ≡ None }
    requires only { list_all (λ n. nat_lt n world.old.setup.nodes) only.now ≡ true }
    ensures ok { IfOk result (λ met. played_at world.new down.new.items refused.new.items met
        ≡ play_rounds rounds world.old.setup only.now (played_at world.old down.old.items refused.old.items None) line) }
    ensures on { IfOk result (λ met. is_over met ≡ false → world.new.ended ≡ None) }
    ensures setup { world.new.setup ≡ world.old.setup }
    ensures err { OnErr result (HasPartOf world.new
        (play_rounds rounds world.old.setup only.now (played_at world.old down.old.items refused.old.items None) line)) }
{
    for _count in 0..rounds {
        if let Some(which) = round(alloc, world, line, only, down, refused)? {
            return Ok(Some(which));
        }
    }
    Ok(None)
}

/// The nodes that a word speaks of: where it names none, all of the table.
fn nodes_of(setup: &Setup, only: &Option<NodeSet>) -> NodeSet
    requires { fits_only setup.now only.now ≡ true }
    ensures value { result ≡ only_of setup.now only.now }
    ensures within { list_all (λ n. nat_lt n setup.now.nodes) result ≡ true }
{
    match only {
        None => nodes_below(setup.nodes()),
        Some(only) => *only,
    }
}

/// Plays the word of one line.
fn play_word(
    alloc: Global,
    world: &mut World,
    item: &ScriptItem,
    down: &mut Vec<OpId>,
    refused: &mut Vec<Refusal>,
) -> Result<Option<Which>, OutOfMemory>
    requires on { world.old.ended ≡ None }
    requires fits { fits_table world.old.setup item.now.word ≡ true }
    ensures ok { IfOk result (λ met. played_at world.new down.new.items refused.new.items met
        ≡ play_word world.old.setup (played_at world.old down.old.items refused.old.items None) item.now.line item.now.word) }
    ensures on { IfOk result (λ met. is_over met ≡ false → world.new.ended ≡ None) }
    ensures setup { world.new.setup ≡ world.old.setup }
    ensures err { OnErr result (HasPartOf world.new
        (play_word world.old.setup (played_at world.old down.old.items refused.old.items None) item.now.line item.now.word)) }
{
    let line = item.line;
    match &item.word {
        ScriptWord::Request {
            op,
            node,
            key,
            what,
        } => {
            let key = key.copy(alloc)?;
            let what = what.copy(alloc)?;
            let input = Input::Request { op: *op, key, what };
            event(alloc, world, line, *node, input, down, refused)
        }
        ScriptWord::GiveUp { node, op } => {
            let input = Input::GiveUp { op: *op };
            event(alloc, world, line, *node, input, down, refused)
        }
        ScriptWord::See { node, other, up } => {
            let input = Input::See {
                other: *other,
                up: *up,
            };
            event(alloc, world, line, *node, input, down, refused)
        }
        ScriptWord::Crash(node) => event(alloc, world, line, *node, Input::Crash, down, refused),
        ScriptWord::Restart(node) => {
            event(alloc, world, line, *node, Input::Restart, down, refused)
        }
        ScriptWord::Tick(node) => event(alloc, world, line, *node, Input::Tick, down, refused),
        ScriptWord::Deliver { message, node } => {
            delivery(alloc, world, line, *message, *node, down, refused)
        }
        ScriptWord::Lose(message) => {
            loss(world, line, *message, down, refused)?;
            Ok(None)
        }
        ScriptWord::LoseBetween { from, to } => {
            world.lose_between(*from, *to)?;
            Ok(None)
        }
        ScriptWord::Flush { only } => {
            let only = nodes_of(world.setup(), only);
            flush(alloc, world, line, &only, down, refused)
        }
        ScriptWord::Settle { rounds, only } => {
            let only = nodes_of(world.setup(), only);
            settle(alloc, world, line, *rounds, &only, down, refused)
        }
    }
}

/// Plays the words in order, to the end or to the event that met a limit.
pub fn play_items(
    alloc: Global,
    world: &mut World,
    items: &[ScriptItem],
    down: &mut Vec<OpId>,
    refused: &mut Vec<Refusal>,
) -> Result<Option<Which>, OutOfMemory>
    requires on { world.old.ended ≡ None }
    requires fits { list_all (λ item. fits_table world.old.setup item.word) items.now ≡ true }
    ensures ok { IfOk result (λ met. played_at world.new down.new.items refused.new.items met
        ≡ play_items world.old.setup (played_at world.old down.old.items refused.old.items None) items.now) }
    ensures setup { world.new.setup ≡ world.old.setup }
    ensures err { OnErr result (HasPartOf world.new
        (play_items world.old.setup (played_at world.old down.old.items refused.old.items None) items.now)) }
{
    for item in items {
        if let Some(which) = play_word(alloc, world, item, down, refused)? {
            return Ok(Some(which));
        }
    }
    Ok(None)
}
