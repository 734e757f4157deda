//! What the steps of nodes weigh, so that a journal has a limit that grows with the memory that it takes.
//!
//! Above: `world_core`, whose journal holds what was given and what came. Below: `exec_types`.
//! Promise: `weight` is the sum over all parts of an input and its outputs, or the greatest number where the sum passes it.
#![tactic(auto)]

pub use steps::weight;

mod changes;
mod maps;
mod messages;
pub mod steps;
mod weigh;
