//! Branches of writes, and the paths that versions stand on.
//!
//! Above: every crate that speaks of versions. Below: `region_map`.
//! Promise: `path_has`, `common_ancestor` and `project` equal their definitions at every pair of a hash and a
//! byte list, which follow from the births alone; paths are ordered, and branches that are added change none.
#![tactic(auto)]

pub use history::{AddRefused, BranchBirth, History};
pub use laws::{
    a_whole_branch_has_its_versions, ancestors_are_last, ids_are_their_parts, paths_are_ordered,
    paths_follow_births, paths_grow, paths_stay, projections_are_last, timestamps_rise,
};
pub use version::Version;

pub mod history;
pub mod laws;
pub mod version;
pub mod walk;
