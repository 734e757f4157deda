//! What a journal tells of a table and of its keys: the latest table, which answers are done, and the story of a key.
//!
//! Above: `report_text`, the programs. Below: `runs`, `node_core`.
//! Promise: `story` is the story of a key of any journal; `told_table` is the table of the longest list that a node told.
//! Words: docs/PROMISES.md.
#![tactic(auto)]

pub use latest::{longest, told_table};
pub use paths::is_on_current;

pub mod done;
pub mod latest;
pub mod paths;
pub mod story;
