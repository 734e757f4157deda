//! Callers of a shared journal, proved: each thread adds its own entries, and the list has them all.
//!
//! Above: nothing. Below: `journal_seat`.
//! Promise: what two threads add stands in the list, of each in its own order, and nothing else;
//! and a book that is only borrowed serves as many seats as there are.
#![tactic(auto)]

pub mod mark;
#[cfg(test)]
mod tests;
pub mod two;
pub mod writers;
