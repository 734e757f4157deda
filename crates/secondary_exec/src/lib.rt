//! A secondary: it follows a primary's stream of writes.
//!
//! Above: `node_core`. Below: `exec_types`, `store_api`.
//! Promise: each row of the secondary is its definition, `stream_row`.
#![tactic(auto)]

pub use following::Following;
pub use waiting::Waiting;

pub mod following;
pub mod waiting;
