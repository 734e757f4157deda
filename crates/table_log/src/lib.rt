//! The log of a table at one node, and the table that follows from it.
//!
//! Above: the nodes of a table. Below: `raft_node`, `table_apply`.
//! Promise: the table is at all times the one that follows from the log up to the index that the node has acted
//! on; `catch_up` acts on each entry up to the view once, in order, and gives what became of it.
#![tactic(auto)]

pub use fitting::{fits, message_fits};
pub use laws::{
    catching_up_ends, logs_stay_fitting, results_come_in_order, steps_keep_the_table,
    tables_follow_from_a_prefix,
};
pub use log::TableLog;

pub mod fitting;
pub mod laws;
pub mod log;
