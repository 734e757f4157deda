//! Runs of a table: which journals are runs, and what is read from one: messages, points, answers, stories, latest tables.
//!
//! Above: the laws of runs, `world_steps`, `journal_story`. Below: `node_core`.
//! Promise: Definitions alone, and `Envelope`. What holds of every run stands in the crates above.
//! Words: docs/PROOF.md.
#![tactic(auto)]

pub use envelope::Envelope;

pub mod envelope;
