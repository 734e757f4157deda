//! What the leader of a table's log plans for a contract, from the last acks that servers sent under it.
//!
//! There is one rule: a branch that the primary needs is registered. It goes on from the versions that the primary
//! named, with the contract's region and tenure.
//!
//! Above: `coordinator`. Below: `contract_types`, `branch_history`; the laws speak of `table_apply`.
//! Promise: `plan` is its definition. What it proposes is taken by the same table, unless the current branches are
//! not those that the primary knew, or the branch goes on from one that is not registered.
#![tactic(auto)]

pub use laws::{plans_are_due, plans_rest_on_an_ack};
pub use plans::Plan;
pub use rules::{plan, rests_on};

pub mod laws;
pub mod plans;
pub mod rules;
