//! One register: its operations, its replies, and the lists of operations that it could have taken.
//!
//! Above: every crate that speaks of operations or stories. Below: `memory`.
//! Promise: `step` is the register; `legal` and `keeps_order` are true of exactly the lists that they name.
#![tactic(auto)]

pub use laws::{filled_list_is_legal, left_out_reads_change_no_reply, unwritten_state_stays};
pub use list::{keeps_order, legal};
pub use memory::OutOfMemory;
pub use operation::{Op, OpId, Reply, Span, Told, step};
pub use value::{Value, ValueLength, copy_value};

pub mod laws;
pub mod list;
pub mod operation;
pub mod value;

/// The most bytes that a value has.
pub const MAX_VALUE_BYTES: usize = 1024;
