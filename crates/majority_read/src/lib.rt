//! Reads that wait: each took its value when it was asked, and is answered once its sync is decided.
//!
//! A read is asked with the timestamp of its sync, and waits. Once a majority reached that timestamp, `take_upto`
//! gives the read with its value; a client that no longer waits has it dropped. The reads stand in a slab, and the
//! keys of the slab in a queue, in the order of their syncs. So `ask` and `take_upto` take constant time, but for
//! the growth of the two; `sync_of` and `drop_read` take time that grows with the number of reads that wait.
//!
//! Above: `primary_exec`. Below: `register_laws`.
//! Promise: each call does exactly what its name says to the list of waiting reads, in rising timestamps.
#![tactic(auto)]

pub use memory::OutOfMemory;
pub use reads::Reads;
pub use waiting_read::WaitingRead;

pub mod reads;
pub mod waiting_read;
