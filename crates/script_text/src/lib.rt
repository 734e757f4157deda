//! Scripts: what a text of lines asks of a table, and how a program ends.
//!
//! A script is read line by line. The first line that is not blank may set up the table; every other one is a word
//! with its members, as the grammar in specs/Grammar.antt says.
//!
//! Above: the programs. Below: `contract_types`, `register_laws`, `region_map`, `serde_json`.
//! Promise: `read_script` gives what `read_lines` says of the text: the script, or the first line that is refused and
//! the first reason that holds of it, or that a line is too long.
#![tactic(auto)]

pub use contract_types::{Setup, Which};
pub use laws::every_setup_without_shards_is_taken;
pub use memory::OutOfMemory;
pub use reading::{MOST_LINE_BYTES, read_script};
pub use script::{Script, ScriptItem, ScriptWord};
pub use script_refused::ScriptRefused;
pub use status::{Reason, Status};

pub mod laws;
mod line_refused;
mod lines;
mod members;
pub mod reading;
pub mod script;
pub mod script_refused;
mod shapes;
mod shards;
pub mod status;
#[cfg(test)]
mod tests;
mod words;
