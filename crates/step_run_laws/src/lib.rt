//! Laws of each step of a run: what it does at once.
//!
//! Above: nothing. Below: `step_laws`, `row_runs`, `answer_runs`.
//! Promise: a request is dispatched or refused in the entry that brings it, by the table of its node; after each entry
//! nothing waits that has a majority; a primary serves its keys or asks for its branch at each tick, and a leader at the end
//! of its log appends what is asked for; the next part of a session is applied; what a node tells of the log goes on behind
//! what it told before; and it says that it is ready only where the sync under its contract had majorities.
//! Words: docs/PROMISES.md.
#![tactic(auto)]

pub use laws::{
    given_parts_are_applied, leaders_append_what_is_asked, majorities_are_answered,
    primaries_serve_or_ask, ready_primaries_are_synced, requests_are_taken_up, told_views_go_on,
};

pub mod laws;
