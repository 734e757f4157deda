//! The search for the next copy of a message that is due to a node.
ghost use Rattle.std.specs.Prelude.{◌≡◌, ℕ, ◌≤◌, ◌+◌, ◌^◌, [], ◌∷◌, List, length, reverse, Ok, IfOk, IfSome, OnErr};
ghost use Rattle.region_map.specs.declared.id.NodeId.{NodeId};
ghost use Rattle.exec_types.specs.declared.output.Output.{Output};
ghost use Rattle.runs.specs.Run.{sent, sent_by};
ghost use Rattle.node_turn.specs.declared.chance.Chance.{Chance};
ghost use Rattle.node_turn.specs.declared.position.MessageCopy.{MessageCopy};
ghost use Rattle.node_turn.specs.declared.position.TurnItem.{TurnItem};
ghost use Rattle.node_turn.specs.declared.search.Found.TheVariants.{Passed};
ghost use Rattle.node_turn.specs.Outcomes.{IsAsked};
ghost use Rattle.node_turn.specs.Search.{is_due, next_copy, copies_taken, search, goes_on, due, IsPlaced};

use crate::chance::{Chance, copies_due};
use crate::position::MessageCopy;
use exec_types::Output;
use memory::OutOfMemory;
use node_core::Entry;
use region_map::NodeId;

/// What a search among some messages comes to.
#[derive(Clone, Copy, Debug)]
pub enum Found {
    /// This copy is due.
    Due(MessageCopy),
    /// Nothing is due, and the next message has this number.
    Passed(u64),
}

/// How far the searches of a node have come, so that the next goes on from there.
#[derive(Clone, Copy, Debug)]
pub struct Place {
    /// No message is due in so many entries, the oldest ones.
    pub entries: u64,
    /// The number of the next message.
    pub number: u64,
    /// So many entries have no outcome of the operation that the next item waits for.
    pub asked: u64,
}

/// Before anything was seen.
pub fn first_place() -> Place
    ensures messages { (chance : Chance) → (node : NodeId) → (taken : MessageCopy) → IsPlaced chance node taken [] result.entries result.number }
    ensures outcomes { (items : List TurnItem) → (gone : ℕ) → IsAsked items gone [] result.asked }
{
    Place {
        entries: 0,
        number: 1,
        asked: 0,
    }
}

/// How many copies of a message were taken, of those that were not passed by.
fn copies_taken(taken: MessageCopy, number: u64) -> u64
    ensures { result ≡ copies_taken taken number }
{
    if number == taken.message {
        taken.copy
    } else {
        0
    }
}

/// Tries one output, whose message, if it is one, has this number. There are no numbers beyond a word.
fn try_output(
    chance: &Chance,
    node: NodeId,
    taken: MessageCopy,
    number: u64,
    output: &Output,
) -> Result<Found, OutOfMemory>
    ensures found { (from : NodeId) → (rest : List Output) → IfOk result (λ f. goes_on f (search chance.now node taken (sent_by from rest))
        ≡ search chance.now node taken (sent_by from (output.now ∷ rest)) number) }
    ensures counted { (from : NodeId) → (rest : List Output) → (next : ℕ) → result ≡ Ok (Passed next)
        → next + length (sent_by from rest) ≡ number + length (sent_by from (output.now ∷ rest)) }
    ensures ends { (from : NodeId) → (rest : List Output) → OnErr result (2 ^ 64 ≤ number + length (sent_by from (output.now ∷ rest))) }
{
    let Output::Message { to, .. } = output else {
        return Ok(Found::Passed(number));
    };
    if to.0 == node.0 && taken.message <= number {
        let before = copies_taken(taken, number);
        if before < copies_due(chance, number) {
            return Ok(Found::Due(MessageCopy {
                message: number,
                copy: before + 1,
            }));
        }
    }
    match number.checked_add(1) {
        Some(next) => Ok(Found::Passed(next)),
        None => Err(OutOfMemory),
    }
}

/// Searches the messages of one entry, which are numbered from this number on.
fn search_entry(
    chance: &Chance,
    node: NodeId,
    taken: MessageCopy,
    number: u64,
    entry: &Entry,
) -> Result<Found, OutOfMemory>
    ensures found { IfOk result (λ f. f ≡ search chance.now node taken (sent_by entry.now.node entry.now.outputs) number) }
    ensures ends { OnErr result (2 ^ 64 ≤ number + length (sent_by entry.now.node entry.now.outputs)) }
{
    let mut next = number;
    for output in entry.outputs.as_slice() {
        match try_output(chance, node, taken, next, output)? {
            Found::Due(copy) => return Ok(Found::Due(copy)),
            Found::Passed(after) => next = after,
        }
    }
    Ok(Found::Passed(next))
}

/// The next copy that is due to a node in the entries that it has seen, the oldest first. The search goes on from where an
/// earlier one came to, and tells how far it came. It is out of memory only where a message has a number beyond a word.
pub fn next_due(
    chance: &Chance,
    node: NodeId,
    taken: MessageCopy,
    seen: &[Entry],
    place: Place,
) -> Result<(Option<MessageCopy>, Place), OutOfMemory>
    requires placed { IsPlaced chance.now node taken seen.now place.entries place.number }
    ensures ends { OnErr result (2 ^ 64 ≤ 1 + length (sent (reverse seen.now))) }
    ensures asked { IfOk result (λ r. r.1.asked ≡ place.asked) }
    ensures due { IfOk result (λ r. r.0 ≡ due chance.now node taken (reverse seen.now)) }
    ensures placed { IfOk result (λ r. IsPlaced chance.now node taken seen.now r.1.entries r.1.number) }
    ensures goes_on { IfOk result (λ r. IfSome r.0 (λ copy. IsPlaced chance.now node copy seen.now r.1.entries r.1.number)) }
{
    let mut number = place.number;
    for index in place.entries..seen.len() as u64 {
        match search_entry(chance, node, taken, number, &seen[index as usize])? {
            Found::Due(copy) => {
                let here = Place {
                    entries: index,
                    number,
                    asked: place.asked,
                };
                return Ok((Some(copy), here));
            }
            Found::Passed(after) => number = after,
        }
    }
    let end = Place {
        entries: seen.len() as u64,
        number,
        asked: place.asked,
    };
    Ok((None, end))
}
