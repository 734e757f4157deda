//! One node of the table: its state, its step, and the journal of the steps of all nodes.
//!
//! Above: `world_core`. Below: the executors, `coordinator`, `table_log`.
//! Promise: `Node::step` is the node step, `node_step`, and `Node::serving` is `serves`.
#![tactic(auto)]

pub use journal::{Entry, Journal};
pub use node::{Brought, Node};

pub mod beginning;
pub mod journal;
pub mod log_rows;
pub mod node;
pub mod restarting;
pub mod rows;
pub mod saying;
pub mod starting;
