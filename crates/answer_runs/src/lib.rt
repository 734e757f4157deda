//! Answers, and who serves, in a run.
//!
//! Above: the laws of runs that rest on it, `durability_laws`. Below: `path_runs`.
//! Promise: an operation is answered once; "done" names the point that it took, "no majority" comes only where it was
//! given up without one; and a node serves a key exactly where it made the key's current branch.
//! Words: docs/PROOF.md.
#![tactic(auto)]

pub use laws::{
    done_answers_name_points, give_ups_of_runs, refusals_of_runs, serving_of_runs,
    single_answers_of_runs,
};

pub mod laws;
