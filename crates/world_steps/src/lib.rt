//! The parts of a world of nodes: its refusals, its messages and which of them wait, and what one event does.
//!
//! Above: `world_core`. Below: `runs`, `node_core`, `journal_weight`.
//! Promise: refusals are exact and in order; what a world keeps beside its journal is what the journal gives.
//! Words: docs/PROMISES.md.
#![tactic(auto)]

pub use lose_refused::LoseRefused;
pub use parts::{MOST_ENTRIES, MOST_WEIGHT};
pub use push_refused::PushRefused;
pub use runs::Envelope;

pub mod envelope;
pub mod flowing;
pub mod lose_refused;
pub mod parts;
pub mod push_refused;
pub mod waiting_sets;
