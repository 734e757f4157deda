//! What a chunk brings a store that lacks it: the keys that changed at either end since the versions of both had a
//! common ancestor.
//!
//! Above: the executors. Below: `memory`, `region_map`, `store_api`.
//! Promise: both lists are the front of their definition, in the order of the keys and without a key twice, and
//! say where they end. Below their end they leave out no key.
#![tactic(auto)]

pub use chunk::{ChunkItems, items};
pub use laws::{chunk_has_each_changed_key, pre_has_each_newer_key};
pub use pre::{PreItems, pre_items};

pub mod chunk;
pub mod key_set;
pub mod laws;
pub mod pre;
