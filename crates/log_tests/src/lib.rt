//! Tests of the log: worked steps of its nodes, and worked runs of them.
//!
//! Above: nothing. Below: `raft_laws`, `raft_node`, `raft_vote`.
//! Promise: none; each test is a table of steps in plain numbers, and what is seen after each.
#![tactic(auto)]

#[cfg(test)]
mod appends;
#[cfg(test)]
mod change;
#[cfg(test)]
mod elections;
#[cfg(test)]
mod nodes;
#[cfg(test)]
mod runs;
