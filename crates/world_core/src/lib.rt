//! The world of all nodes: their steps by a script's events, and the journal.
//!
//! Above: the programs. Below: `world_steps`, `path_runs`.
//! Promise: the journal of a world is a run, and each key's story is a register story of it.
//! Words: docs/PROMISES.md.
#![tactic(auto)]

pub use world::World;

pub mod world;
