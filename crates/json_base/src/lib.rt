//! What values and their JSON trees are made of: forms, and the steps by which trees are written and read.
//!
//! A form gives each value its tree, and reads trees as strictly: members in the order of their names and no others,
//! numbers whole and without sign. It is exact where each value that fits is read from its tree, and nothing else is
//! read. Forms of objects, variants, lists, pairs, optional values and texts are put together from those of their
//! parts, and are exact where these are.
//!
//! Above: `json_form`. Below: `memory`, `serde_json`.
//! Promise: each step of reading gives what its definition says of the tree; each step of writing gives that tree.
#![tactic(auto)]

pub use choices::{is_word, payload, variant, word};
pub use fields::Fields;
pub use pairs::pair_of;
pub use texts::{bytes_from_json, bytes_to_json};

pub mod choices;
pub mod fields;
pub mod pairs;
pub mod texts;
