//! Where data is and who holds it: node numbers, ids, keys, their hash, regions and maps over them.
//!
//! Above: every crate of versions, log, table and nodes. Below: `memory`.
//! Promise: each call equals its definition at every key; a set of nodes is the list of its members.
#![tactic(auto)]

pub use hash::hash_of;
pub use id::{Id, NodeId};
pub use key::{Key, KeyLength};
pub use map::{RegionMap, joined_is_the_one_map, same_maps};
pub use memory::OutOfMemory;
pub use node_set::{Members, NodeSet, majorities_meet, majority};
pub use region::Region;
pub use step_refused::StepRefused;
pub use value::{Combine, MapValue};

pub mod band;
pub mod bound;
pub mod hash;
pub mod id;
pub mod key;
pub mod map;
pub mod node_set;
pub mod region;
pub mod row;
pub mod step_refused;
pub mod stretch;
pub mod value;

/// The most nodes that a table has.
pub const MAX_NODES: u8 = 7;

/// The most bytes that a key has; it has at least one.
pub const MAX_KEY_BYTES: usize = 64;

/// The first number that no life, term, timestamp, id counter, log index or part number reaches.
pub const NUMBERS_END: u64 = 1 << 62;
