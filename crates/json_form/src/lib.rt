//! The values of a journal as JSON.
//!
//! Above: the journal as text. Below: `json_base`, and the crates of all types that a journal holds.
//! Promise: `JsonForm::to_json` gives the tree of the value; `JsonForm::from_json` gives the value whose tree it is, and
//! none exactly where there is none.
#![tactic(auto)]

pub use form::{JsonForm, Present};
pub use memory::OutOfMemory;

pub mod form;
pub mod ids;
pub mod keys;
pub mod numbers;
pub mod operations;
pub mod parts;
pub mod sets;
pub mod take;
#[cfg(test)]
mod tests;
