//! Decided points in a run: what is answered as done is decided, and what is decided stays.
//!
//! Above: nothing. Below: `fact_runs`, `durability_laws`.
//! Promise: a point that is decided is on the path of each branch that is registered later, and a majority of the voters holds it.
//! Words: docs/PROOF.md.
#![tactic(auto)]

pub use laws::{
    decided_points_of_runs_are_held, decided_points_of_runs_stay, done_points_are_decided,
    done_points_stay,
};

pub mod laws;
