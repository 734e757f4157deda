//! Tests of a node and of what a step of it weighs.
//!
//! Above: nothing. Below: `node_core`, `journal_weight`.
//! Promise: none; each test is a few steps of nodes, or an entry whose weight was added by hand.
#![tactic(auto)]

#[cfg(test)]
mod nodes;
#[cfg(test)]
mod weights;
