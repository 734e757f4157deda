//! The quantities that are limited.

/// Which limit was met.
#[derive(Clone, Copy, Debug, PartialEq, Eq)]
pub enum Which {
    /// The bytes of a script.
    ScriptBytes,
    /// The bytes of a line of a script.
    LineBytes,
    /// The entries of a journal.
    JournalEntries,
    /// The weight of a journal.
    JournalWeight,
    /// The lives, terms, timestamps, id counters, log indices and part numbers.
    Numbers,
}
