//! What a report tells beside the journal: refused events, and how the run ended.
use contract_types::Which;

/// Why an event of a script did nothing.
#[derive(Clone, Copy, Debug, PartialEq, Eq)]
pub enum EventRefused {
    /// The node was down.
    Down,
    /// The node was up.
    Up,
    /// No message of that number was sent.
    NoSuchMessage,
    /// The message is for another node.
    NotYours,
}

/// An event of the script that did nothing, by its line.
#[derive(Clone, Copy, Debug, PartialEq, Eq)]
pub struct Refusal {
    pub line: u64,
    pub reason: EventRefused,
}

/// How a run ended: with its script, or at a limit.
#[derive(Clone, Copy, Debug, PartialEq, Eq)]
pub enum Ending {
    End,
    Limit { which: Which, number: u64 },
}
