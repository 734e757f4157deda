//! Laws of one step of a node: what it does at once, and leaves to no later step.
//!
//! Above: `step_run_laws`. Below: `runs`.
//! Promise: a request is dispatched or refused in the step that brings it; what has a majority is answered in it; at each
//! tick a primary without a branch asks for it, and a leader at the end of its log appends each plan; the next part of a
//! stream is applied. Said by inputs, outputs, tables and acks, so that no wrong rule of a step passes unseen.
//! Words: docs/PROMISES.md.
#![tactic(auto)]

pub use following::next_parts_are_applied;
pub use leading::{leaders_append_each_plan, leaders_keep_what_they_are_told};
pub use primaries::{
    acknowledgements_count_at_once, primaries_ask_at_each_tick, requests_are_taken_up_at_once,
    what_has_a_majority_is_answered,
};
pub use tables::branches_begin_at_their_greatest_origin;

pub mod following;
pub mod leading;
pub mod primaries;
pub mod tables;
