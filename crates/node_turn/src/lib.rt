//! One turn of a node that runs beside others: which input it takes, by what it has seen.
//!
//! Above: whatever runs nodes in threads. Below: `runs`, `node_core`, and the kit's `rand_xoshiro`.
//! Promise: `turn_of` is the definition of a turn, `turn_of` of specs/Turn.antt, over the entries that the node has seen;
//! `turns_are_allowed`: the node may be given what a turn takes.
//! Words: docs/THREADS.md, "A turn".
#![tactic(auto)]

pub use chance::Chance;
pub use laws::{looks_keep_places, turns_are_allowed, turns_count};
pub use position::{Act, MessageCopy, Position, TurnItem, Turned, first_position};
pub use search::{Place, first_place};
pub use turn::turn_of;

pub mod chance;
pub mod laws;
pub mod outcomes;
pub mod position;
pub mod search;
pub mod turn;
