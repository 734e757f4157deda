//! What nodes take and give: inputs, messages, outcomes and outputs.
//!
//! A session carries a primary's stream of writes to one secondary. Its parts are numbered from 1; the
//! secondary applies them in order and answers each with how far it came. A session is named by two ids: that
//! under which the secondary asked for it, and that under which the primary opened it.
//!
//! Above: the executors, the nodes, the journal. Below: `contract_types`, `store_api`, `register_laws`.
#![tactic(auto)]

pub use input::Input;
pub use message::{Got, Message, Part, SessionName, Stream};
pub use outcome::Outcome;
pub use output::{Output, Outputs};

pub mod input;
pub mod message;
pub mod outcome;
pub mod output;
