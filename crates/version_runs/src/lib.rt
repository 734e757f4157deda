//! Versions and timestamps, wherever they stand in a run.
//!
//! Above: nothing yet. Below: `path_runs`.
//! Promise: a branch's maker alone takes its timestamps, syncs too, and they rise; each version in a store, in a message or
//! in a log is zero or can be traced to the maker of its branch; and each branch begins no earlier than the versions from
//! which it goes on.
//! Words: docs/PROOF.md.
#![tactic(auto)]

pub use laws::{histories_in_time_of_runs, sync_makers_of_runs, versions_in_messages_of_runs};

pub mod laws;
