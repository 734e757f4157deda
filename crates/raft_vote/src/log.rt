//! The log of a node.
ghost use Rattle.std.specs.Prelude.{◌≡◌, ◌+◌, ◌^◌, ◌<◌, ◌≤◌, [], ◌∷◌, ◌++◌, length, take, drop, IfOk, OnOk, OnErr};
ghost use Rattle.raft_vote.specs.Log.{term_at, last_term};

use memory::OutOfMemory;
use std::alloc::Global;
use std::marker::Model;

/// A change that a log holds.
pub trait RaftEntry: Drop + Sized {
    /// The change that does nothing.
    ghost noop_entry: { Self };

    /// The change that does nothing, which a new leader appends.
    fn noop() -> Self
        ensures { result ≡ noop_entry };

    /// An equal value.
    fn copy(&self, alloc: Global) -> Result<Self, OutOfMemory>
        ensures { IfOk result (λ x. x ≡ self.now) };
}

/// A change, and the term of the leader that appended it.
#[derive(Drop)]
pub struct LogEntry<E> {
    pub term: u64,
    pub change: E,
}

/// Entries in their order, which contracts see as a list. Index 1 is that of the first.
#[derive(Drop)]
pub struct Log<E> {
    entries: Vec<LogEntry<E>>,
}

impl<E> Model for Log<E> {
    ghost use Rattle.std.specs.Prelude.{List};
    ghost use Rattle.raft_vote.specs.declared.log.LogEntry.{LogEntry};

    ghost Value = { List (LogEntry E) };

    ghost view = { λ a. a.entries.items };
}

impl<E> From<Vec<LogEntry<E>>> for Log<E> {
    ghost use Rattle.std.specs.Prelude.{◌≡◌};

    ghost from_gives = { λ v log. log ≡ v.items };

    fn from(entries: Vec<LogEntry<E>>) -> Log<E> {
        Log { entries }
    }
}

impl<E> Log<E> {
    /// A log without entries.
    pub fn new(alloc: Global) -> Log<E>
        ensures { result ≡ [] }
    {
        Log {
            entries: Vec::new(alloc),
        }
    }

    /// The entries.
    pub fn into_vec(self) -> Vec<LogEntry<E>>
        ensures { result.items ≡ self }
    {
        self.entries
    }

    /// The entries.
    pub fn as_slice(&self) -> &[LogEntry<E>]
        ensures { result.now ≡ self.now }
    {
        self.entries.as_slice()
    }

    /// The index of the last entry, and 0 where there is none.
    pub fn len(&self) -> u64
        ensures len { result ≡ length self.now }
        ensures small { result < 2 ^ 63 }
    {
        self.entries.len() as u64
    }

    /// The term at an index, and 0 at index 0 and past the end.
    pub fn term_at(&self, index: u64) -> u64
        ensures { result ≡ term_at self.now index }
    {
        if index == 0 {
            return 0;
        }
        match self.entries.get((index - 1) as usize) {
            None => 0,
            Some(entry) => entry.term,
        }
    }

    /// The term of the last entry, and 0 where there is none.
    pub fn last_term(&self) -> u64
        ensures { result ≡ last_term self.now }
    {
        self.term_at(self.len())
    }
}

impl<E: RaftEntry> Log<E> {
    /// Adds an entry behind the last one.
    pub fn push(&mut self, entry: LogEntry<E>) -> Result<(), OutOfMemory>
        ensures ok { OnOk result (self.new ≡ self.old ++ entry ∷ []) }
        ensures err { OnErr result (self.new ≡ self.old) }
    {
        self.entries.push(entry)?;
        Ok(())
    }

    /// The same entries again.
    pub fn copy(&self, alloc: Global) -> Result<Log<E>, OutOfMemory>
        ensures { IfOk result (λ copy. copy ≡ self.now) }
    {
        copy_of(alloc, &self.entries)
    }

    /// The first `most` of the entries behind an index, and all of them where they are fewer.
    pub fn copy_behind(&self, alloc: Global, index: u64, most: u64) -> Result<Log<E>, OutOfMemory>
        ensures { IfOk result (λ copy. copy ≡ take most (drop index self.now)) }
    {
        let behind = self.entries.get(index as usize..).unwrap_or(&[]);
        let part = behind.get(..most as usize).unwrap_or(behind);
        copy_of(alloc, part)
    }

    /// Cuts the log behind an index, and puts the entries of another one there that stand behind
    /// `skipped` ones.
    pub fn replace_behind(
        &mut self,
        index: u64,
        mut other: Log<E>,
        skipped: u64,
    ) -> Result<(), OutOfMemory>
        requires index { index ≤ length self.old }
        requires skipped { skipped ≤ length other }
        ensures ok { OnOk result (self.new ≡ take index self.old ++ drop skipped other) }
        ensures err { OnErr result (self.new ≡ self.old) }
    {
        let mut rest = other.entries.split_off(skipped as usize)?;
        self.entries.reserve(rest.len())?;
        self.entries.truncate(index as usize);
        self.entries.append(&mut rest)?;
        Ok(())
    }
}

/// A log of these entries.
fn copy_of<E: RaftEntry>(alloc: Global, entries: &[LogEntry<E>]) -> Result<Log<E>, OutOfMemory>
    ensures { IfOk result (λ copy. copy ≡ entries.now) }
{
    let mut copies = Vec::new(alloc);
    for entry in entries {
        copies.push(LogEntry {
            term: entry.term,
            change: entry.change.copy(alloc)?,
        })?;
    }
    Ok(Log { entries: copies })
}
