//! Appends of the log: how a log takes a leader's entries, and what a leader knows of the others.
//!
//! Above: `raft_node`. Below: `raft_vote`, `region_map`.
//! Promise: each call equals its row of appends, and the index that it decides is that which a
//! majority has.
#![tactic(auto)]

pub use commit::decided;
pub use merge::{Answer, agrees_to_view, fits, take_entries};
pub use peers::{Peers, Progress};

pub mod commit;
pub mod merge;
pub mod peers;
