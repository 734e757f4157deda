//! Rows and versions of nodes, in a run.
//!
//! Above: the laws of runs that rest on it, `durability_laws`. Below: `path_runs`.
//! Promise: each row of each node is what the operations on the path of its version left.
//! Words: docs/PROOF.md.
#![tactic(auto)]

pub use laws::{rows_of_runs, versions_of_runs};

pub mod laws;
