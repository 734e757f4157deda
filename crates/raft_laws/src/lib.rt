//! What holds in every run of the nodes of the log.
//!
//! Above: the nodes and worlds of a table. Below: one node of the log, and words on runs.
//! Promise: whatever is delivered, lost, repeated or reordered, and whichever nodes crash and come up again,
//! no two nodes lead in one term, and no two nodes act on different lists of changes.
#![tactic(auto)]

pub use event::{RaftEvent, Sent};
pub use laws::{
    deliveries_fit, entries_are_put, leaders_commit, leaders_complete, logs_match, nodes_agree,
    nothing_waits, one_leader, parts_keep_promises, terms_rise, views_grow, votes_last,
};
pub use world::{RaftPushRefused, RaftWorld};

pub mod event;
pub mod laws;
pub mod world;
