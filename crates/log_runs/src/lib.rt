//! The log of all nodes in a run, and who sends to whom.
//!
//! Above: the laws of runs that rest on it, `durability_laws`. Below: `runs`, `raft_laws`.
//! Promise: of what two nodes act on, at whatever moments, one is a front of the other; messages go between nodes of the table.
//! Words: docs/PROOF.md.
#![tactic(auto)]

pub use laws::{committed_logs_of_runs, log_messages_of_runs, messages_of_runs, views_of_runs};

pub mod laws;
