//! Runs at one key: every run has the facts from which it follows that decided points stay.
//!
//! Above: `decided_runs`. Below: `path_facts`, `key_births`, the laws of runs.
//! Promise: the log, the contracts, the branches and the versions of a key are, in every run, as the facts of one key say.
//! Words: docs/PROOF.md.
#![tactic(auto)]

pub use laws::{branches_of_keys_are_ordered, facts_of_runs, own_contracts_of_keys, paths_of_keys};

pub mod laws;
