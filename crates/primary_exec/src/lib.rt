//! A primary: it gives each operation a timestamp, streams it to the secondaries, and answers it once decided.
//!
//! A read is pending as any operation. The value that it found when it was asked stands with the waiting reads, until
//! its timestamp is decided or its client gives it up.
//!
//! A primary whose contract was not there from the setup on asks for a branch of its own. Once that is registered, it
//! starts it with one sync, and it is ready once this sync is decided.
//!
//! Above: `node_core`. Below: `write_dispatch`, `majority_read`, `exec_types`, `store_api`.
//! Promise: each row of the primary is its definition: `needs_branch`, `started`, `dispatch_row`, `got_row`,
//! `give_up_row`, `decided`.
#![tactic(auto)]

pub use asking::Asking;
pub use laws::{
    a_primary_is_ready_once_its_sync_is_decided, a_primary_that_votes_alone_is_ready_at_once,
    starts_stand_at_their_sync,
};
pub use primary::Primary;
pub use session::Session;

pub mod answers;
pub mod asking;
pub mod effect;
pub mod laws;
pub mod primary;
pub mod reads;
pub mod session;
