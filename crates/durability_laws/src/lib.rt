//! What an answer rests on: the voters that hold what was done.
//!
//! Above: `fact_runs`, `decided_runs`. Below: the laws of runs.
//! Promise: what is done is held by more than half of the voters of its shard, from the answer on; and what is answered to
//! lack a majority lacks it.
#![tactic(auto)]

pub use laws::{done_points_are_held, give_ups_lack_a_majority};

pub mod laws;
