//! The leader's coordinator: it turns what servers say into changes of the log.
//!
//! A leader begins without acks. It keeps the last ack of each server under each contract's id, and proposes what is
//! planned for the contracts of its table by these. An ack that a plan rests on is used once.
//!
//! Above: the nodes. Below: `contract_plan`, `contract_types`.
//! Promise: `Acks::proposals` gives the plans for the contracts in table order, each by its own acks, and forgets
//! exactly the acks that they rest on.
#![tactic(auto)]

pub use acks::{Acks, ContractAcks};
pub use laws::{an_ack_is_used_once, proposals_are_planned, the_last_ack_is_kept};
pub use server_acks::ServerAcks;

pub mod acks;
pub mod laws;
pub mod server_acks;
