//! What one step adds to a run: its points, answers and outputs, and the timestamps of a branch over all of them.
//!
//! Above: the laws of runs that rest on it, `durability_laws`. Below: `runs`.
//! Promise: `points_of_runs`: in every run the timestamps of one branch rise.
//! Words: docs/PROOF.md.
#![tactic(auto)]

pub use laws::points_of_runs;

pub mod laws;
