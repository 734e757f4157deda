//! What one step of a node does, for proofs: each output with its cause, and what moves.
//!
//! Above: the laws of runs. Below: `node_core`.
//! Promise: of every step, whatever the state, the input and the message: what it says (`says_of_steps`), what it sends
//! (`sends_of_steps`), and what it does to the parts of the node and at each key (`moves_of_steps`).
//! Words: docs/PROOF.md.
#![tactic(auto)]

pub use laws::{moves_of_steps, says_of_steps, sends_of_steps};

pub mod laws;
