//! The report of a script and its journal: what became of each operation, which changes of the
//! log were skipped, and each key's story.
//!
//! Above: the programs. Below: `world_core`, `script_text`, `line_io`.
//! Promise: the bytes written are the report's lines, each as one piece; where writing failed, a prefix of them.
#![tactic(auto)]

pub use ending::{Ending, EventRefused, Refusal};
pub use memory::OutOfMemory;
pub use print_refused::PrintRefused;
pub use printed::Printed;
pub use printing::print_report;
pub use texts::{limit_line, read_fault_line, script_line, usage_line};

mod answered;
pub mod ending;
mod known;
pub mod print_refused;
pub mod printed;
pub mod printing;
mod stories;
#[cfg(test)]
mod tests;
pub mod texts;
