//! Which changes the log of a table may hold: those whose maps have as many hashes as the table.
ghost use Rattle.std.specs.Prelude.{◌≡◌};
ghost use Rattle.table_log.specs.Fitting.{fits, log_fits, message_fits};

use contract_types::Change;
use raft_vote::{LogEntry, RaftMessage};

/// Whether a change fits a table with so many hashes.
pub fn fits(hashes: u8, change: &Change) -> bool
    ensures { result ≡ fits hashes change.now }
{
    match change {
        Change::Noop => true,
        Change::SetConfig(config) => config.hashes() == hashes,
        Change::NewContracts { .. } => true,
        Change::RegisterBranch { origin, .. } => origin.hashes() == hashes,
    }
}

/// Whether each change of these entries does.
fn log_fits(hashes: u8, entries: &[LogEntry<Change>]) -> bool
    ensures { result ≡ log_fits hashes entries.now }
{
    entries.iter().all(|entry| fits(hashes, &entry.change))
}

/// Whether each change that a message brings does.
pub fn message_fits(hashes: u8, message: &RaftMessage<Change>) -> bool
    ensures { result ≡ message_fits hashes message.now }
{
    match message {
        RaftMessage::Append { entries, .. } => log_fits(hashes, entries.as_slice()),
        _ => true,
    }
}
