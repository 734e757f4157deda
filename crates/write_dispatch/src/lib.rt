//! Counts acks: which pending operation of a primary has its majorities.
//!
//! Above: `primary_exec`. Below: `contract_types`, `register_laws`, `region_map`.
//! Promise: `take_decided` gives the least pending operation exactly where its counts are majorities.
#![tactic(auto)]

pub use counting::are_majorities;
pub use decided::{Decided, KeptAck};
pub use laws::{
    ack_is_kept_for_its_server_alone, decided_stays_decided, earlier_timestamps_are_decided_too,
    later_ack_lowers_no_count, later_ack_takes_no_server_back, no_ack_is_kept_at_first,
    repeated_ack_changes_nothing,
};
pub use pending::Pending;
pub use refused::GiveUpRefused;

pub mod counting;
pub mod decided;
pub mod laws;
pub mod pending;
pub mod refused;
mod waiting;
