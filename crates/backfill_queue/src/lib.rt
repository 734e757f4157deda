//! Writes to keys for which a chunk is under way, until it is there.
//!
//! Above: the executors. Below: `memory`, `region_map`, `store_api`.
//! Promise: a release gives the writes behind a chunk to the chunk's keys, in the order in which they came, and
//! leaves none.
#![tactic(auto)]

pub use queue::Queue;

pub mod queue;
