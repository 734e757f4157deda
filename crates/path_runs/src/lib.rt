//! Paths of a key, in a run.
//!
//! Above: the laws of runs that rest on it, `durability_laws`. Below: `id_runs`, `lead_runs`, `key_runs`.
//! Promise: what was answered stays on the path of each branch that is registered later, and each key's story is a register story.
//! Words: docs/PROOF.md.
#![tactic(auto)]

pub use laws::{
    answered_points_stay, paths_of_runs, starts_have_answered_points, stories_in_path_order,
    stories_of_runs,
};

pub mod laws;
