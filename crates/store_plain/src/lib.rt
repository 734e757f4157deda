//! A store whose rows stand in one ordered map.
//!
//! Above: the executors and the nodes. Below: `store_api`.
//! Promise: `PlainStore` meets `Store` at every key. `PlainRows` has rows alone: a row that was put is the one
//! that is got, and no other row changes.
#![tactic(auto)]

pub use rows::PlainRows;
pub use store::PlainStore;

pub mod rows;
pub mod store;
pub mod versions;
