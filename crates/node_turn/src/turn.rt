//! One turn of a node.
ghost use Rattle.std.specs.Prelude.{◌≡◌, ◌<◌, ◌≤◌, ◌+◌, ◌^◌, length, reverse, IfOk, OnErr};
ghost use Rattle.runs.specs.Run.{sent, suits};
ghost use Rattle.node_turn.specs.Outcomes.{IsAsked};
ghost use Rattle.node_turn.specs.Search.{IsPlaced};
ghost use Rattle.node_turn.specs.Turn.{with_item, without_item, turn_of};

use crate::chance::Chance;
use crate::outcomes::awaited;
use crate::position::{Act, Position, TurnItem, Turned};
use crate::search::{Place, next_due};
use exec_types::Input;
use memory::OutOfMemory;
use node_core::Entry;
use region_map::NodeId;
use register_laws::OpId;

/// Whether a node takes an input: one that is down takes a restart alone, and only such a node takes it.
fn suits(up: bool, input: &Input) -> bool
    ensures { result ≡ suits up input.now }
{
    match input {
        Input::Restart => !up,
        Input::Request { .. } => up,
        Input::GiveUp { .. } => up,
        Input::See { .. } => up,
        Input::Tick => up,
        Input::Deliver { .. } => up,
        Input::Crash => up,
    }
}

/// A turn with an item.
fn with_item(up: bool, position: Position, input: &Input) -> Turned
    requires { position.gone < 18446744073709551615 }
    ensures { result ≡ with_item up position input.now }
{
    let act = if suits(up, input) {
        Act::Item
    } else {
        Act::Refused
    };
    Turned {
        act,
        waited: None,
        position: Position {
            gone: position.gone + 1,
            taken: position.taken,
        },
    }
}

/// A turn without an item: a tick, a delivery or nothing.
fn without_item(
    chance: &Chance,
    node: NodeId,
    number: u64,
    up: bool,
    seen: &[Entry],
    position: Position,
    place: Place,
    waited: Option<OpId>,
) -> Result<(Turned, Place), OutOfMemory>
    requires ticks { 0 < chance.now.ticks }
    requires placed { IsPlaced chance.now node position.taken seen.now place.entries place.number }
    ensures asked { IfOk result (λ r. (r.1.asked ≡ place.asked) × (r.0.position.gone ≡ position.gone)) }
    ensures ends { OnErr result (2 ^ 64 ≤ 1 + length (sent (reverse seen.now))) }
    ensures turned { IfOk result (λ r. r.0 ≡ without_item chance.now node number up (reverse seen.now) position waited) }
    ensures placed { IfOk result (λ r. IsPlaced chance.now node r.0.position.taken seen.now r.1.entries r.1.number) }
{
    if !up {
        return Ok((
            Turned {
                act: Act::Nothing,
                waited,
                position,
            },
            place,
        ));
    }
    if number % chance.ticks == 0 {
        return Ok((
            Turned {
                act: Act::Tick,
                waited,
                position,
            },
            place,
        ));
    }
    let (due, here) = next_due(chance, node, position.taken, seen, place)?;
    match due {
        None => Ok((
            Turned {
                act: Act::Nothing,
                waited,
                position,
            },
            here,
        )),
        Some(copy) => Ok((
            Turned {
                act: Act::Deliver {
                    message: copy.message,
                },
                waited,
                position: Position {
                    gone: position.gone,
                    taken: copy,
                },
            },
            here,
        )),
    }
}

/// One turn of a node, by its number from 1, its items, whether it is up, the entries that it has seen, the oldest first,
/// how far it has come, and the chance. The place tells how far earlier turns searched for messages; a search goes on from
/// there, so that a turn costs no more as the journal grows. It is out of memory only where a message has a number beyond a
/// word.
#[tactic(auto, using(crate::proofs::Answering::lacks_nothing, crate::proofs::Answering::lacks_awaited))]
pub fn turn_of(
    chance: &Chance,
    items: &[TurnItem],
    node: NodeId,
    number: u64,
    up: bool,
    seen: &[Entry],
    position: Position,
    place: Place,
) -> Result<(Turned, Place), OutOfMemory>
    requires ticks { 0 < chance.now.ticks }
    requires placed { IsPlaced chance.now node position.taken seen.now place.entries place.number }
    requires asked { IsAsked items.now position.gone seen.now place.asked }
    ensures ends { OnErr result (2 ^ 64 ≤ 1 + length (sent (reverse seen.now))) }
    ensures turned { IfOk result (λ r. r.0 ≡ turn_of chance.now items.now node number up (reverse seen.now) position) }
    ensures placed { IfOk result (λ r. IsPlaced chance.now node r.0.position.taken seen.now r.1.entries r.1.number) }
    ensures asked { IfOk result (λ r. IsAsked items.now r.0.position.gone seen.now r.1.asked) }
{
    if number % 2 != 1 {
        return without_item(chance, node, number, up, seen, position, place, None);
    }
    match items.get(position.gone as usize) {
        None => without_item(chance, node, number, up, seen, position, place, None),
        Some(item) => match awaited(seen, item.after, place.asked) {
            None => Ok((
                with_item(up, position, &item.input),
                Place {
                    entries: place.entries,
                    number: place.number,
                    asked: 0,
                },
            )),
            Some(op) => {
                let waiting = Place {
                    entries: place.entries,
                    number: place.number,
                    asked: seen.len() as u64,
                };
                without_item(chance, node, number, up, seen, position, waiting, Some(op))
            }
        },
    }
}
