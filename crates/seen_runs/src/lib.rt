//! Nodes that run at once, each over what it has seen of a book, make a run.
//!
//! Above: whatever runs nodes in threads. Below: `runs`, `journal_seat`.
//! Promise: `runs_of_seen_lists`: the list that a book gives at its close is a run, where each of its nodes made steps of its
//! own over what it had seen. No node waits for what it has not seen.
//! Words: docs/THREADS.md, docs/PROOF.md.
#![tactic(auto)]

pub use laws::{appends_keep_own_steps, looks_keep_own_steps, runs_of_seen_lists};

pub mod laws;
