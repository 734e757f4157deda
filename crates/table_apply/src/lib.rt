//! What a committed change does to a table.
//!
//! Above: plans, nodes. Below: `contract_types`.
//! Promise: `apply` is its definition: a change is taken with exactly its effect, or skipped for the first
//! condition that does not hold, with nothing changed. The laws say what then holds of every table.
#![tactic(auto)]

pub use beginnings::{branches_begin_in_time, contracts_last};
pub use contracts::{is_held_by, same_regions};
pub use laws::{
    a_branch_is_registered_in_its_tenure, a_table_follows_from_its_changes,
    branches_are_compared_at_every_pair, contracts_are_past, contracts_follow,
    contracts_have_ids_of_their_own, each_pair_has_a_current_branch, one_contract_has_each_pair,
    origins_are_registered_first, regions_are_compared_at_every_pair, tenures_last, tenures_rise,
};
pub use log_change::apply;

pub mod beginnings;
mod branches;
mod contracts;
pub mod laws;
pub mod log_change;
