//! All operations on one key, in a run.
//!
//! Above: the laws of runs that rest on it, `durability_laws`. Below: `change_runs`.
//! Promise: `answers_of_runs`: what was answered was requested.
//! Words: docs/PROOF.md.
#![tactic(auto)]

pub use laws::answers_of_runs;

pub mod laws;
