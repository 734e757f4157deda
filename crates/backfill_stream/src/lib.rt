//! The parts of a stream, each under its number, until they are acknowledged.
//!
//! Above: the executors. Below: `memory`, `region_map`.
//! Promise: parts are numbered one after the other, and those that are not acknowledged are kept, in order.
#![tactic(auto)]

pub use numbered::Numbered;
pub use refused::SendRefused;

pub mod numbered;
pub mod refused;

/// How many parts wait for their acknowledgement at most.
pub const UNACKED_LIMIT: usize = 1024;
