//! The ids that nodes draw, and who takes the points of a branch, in a run.
//!
//! Above: the laws of runs that rest on it, `durability_laws`. Below: `lead_runs`.
//! Promise: `ids_of_runs`, `makers_of_runs`: no id is drawn twice, and a branch's maker alone takes its points.
//! Words: docs/PROOF.md.
#![tactic(auto)]

pub use laws::{ids_of_runs, makers_of_runs};

pub mod laws;
