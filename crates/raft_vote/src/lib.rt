//! Elections of the log: terms, votes and leaders; and the log, its entries and its messages.
//!
//! Above: `raft_append`, and every crate that speaks of log entries. Below: `region_map`.
//! Promise: each call equals its row of the election; a node votes once a term, and keeps that vote.
#![tactic(auto)]

pub use log::{Log, LogEntry, RaftEntry};
pub use message::{RaftMessage, asks};
pub use votes::{Role, VoteNode};

pub mod log;
pub mod message;
pub mod votes;
