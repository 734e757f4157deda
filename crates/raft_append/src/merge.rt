//! How a log takes the entries of a leader.
ghost use Rattle.std.specs.Prelude.{◌≡◌, ◌+◌, ◌-◌, ◌^◌, ◌<◌, ◌≤◌, ◌↔◌, ◌++◌, length, take, drop, IsTrue, IfOk, OnOk, OnErr, IsErrOf, nat_le, ◌&&◌};
ghost use Rattle.raft_append.specs.Merge.{fits, agreeing, merged, taken, agrees_to_view};

use memory::OutOfMemory;
use raft_vote::{Log, LogEntry, RaftEntry};
use region_map::{NUMBERS_END, StepRefused};

/// What a node answers to a leader's entries.
#[derive(Clone, Copy, Debug, PartialEq, Eq)]
pub struct Answer {
    pub ok: bool,
    pub upto: u64,
}

/// Takes the entries that a leader has behind `prev_index`, where its entry has the term
/// `prev_term`, and raises the view as far as the leader's `commit` and these entries reach. What the
/// view had reached stays.
pub fn take_entries<E: RaftEntry>(
    log: &mut Log<E>,
    view: &mut u64,
    prev_index: u64,
    prev_term: u64,
    entries: Log<E>,
    commit: u64,
) -> Result<Answer, StepRefused>
    requires within { view.old ≤ length log.old }
    requires agrees { IsTrue (agrees_to_view log.old view.old prev_index entries) }
    ensures ok { IfOk result (λ a. record { log = log.new; view = view.new; ok = a.ok; upto = a.upto } ≡ taken log.old view.old prev_index prev_term entries commit) }
    ensures numbers { IsErrOf result StepRefused.NumbersEnd
        ↔ IsTrue (fits log.old prev_index prev_term && nat_le (2 ^ 62) (prev_index + length entries)) }
    ensures log { OnErr result (log.new ≡ log.old) }
    ensures view { OnErr result (view.new ≡ view.old) }
    ensures within { view.new ≤ length log.new }
    ensures rises { view.old ≤ view.new }
    ensures keeps { take view.old log.new ≡ take view.old log.old }
{
    if !fits(log, prev_index, prev_term) {
        return Ok(Answer {
            ok: false,
            upto: prev_index.saturating_sub(1).min(log.len()),
        });
    }
    let upto = prev_index + entries.len();
    if upto >= NUMBERS_END {
        return Err(StepRefused::NumbersEnd);
    }
    merge(log, prev_index, entries)?;
    *view = (*view).max(commit.min(upto));
    Ok(Answer { ok: true, upto })
}

/// Whether the entries behind an index have, as far as the view reaches, the terms of the log.
pub fn agrees_to_view<E>(log: &Log<E>, view: u64, prev_index: u64, entries: &Log<E>) -> bool
    ensures { result ≡ agrees_to_view log.now view prev_index entries.now }
{
    let least = view.saturating_sub(prev_index).min(entries.len());
    least <= agreeing(log, prev_index, entries)
}

/// Whether there is an entry of this term at the index. Index 0 always fits.
pub fn fits<E>(log: &Log<E>, index: u64, term: u64) -> bool
    ensures fits { result ≡ fits log.now index term }
    ensures within { IsTrue result → index ≤ length log.now }
    ensures small { IsTrue result → index < 2 ^ 63 }
{
    index == 0 || index <= log.len() && log.term_at(index) == term
}

/// Takes the entries that a leader has behind an index: from the first one that differs in term on,
/// the own ones are cut and the leader's are added.
fn merge<E: RaftEntry>(
    log: &mut Log<E>,
    prev_index: u64,
    entries: Log<E>,
) -> Result<(), OutOfMemory>
    requires within { prev_index ≤ length log.old }
    requires small { prev_index < 2 ^ 63 }
    ensures ok { OnOk result (log.new ≡ take prev_index log.old ++ merged (drop prev_index log.old) entries) }
    ensures err { OnErr result (log.new ≡ log.old) }
{
    let same = agreeing(log, prev_index, &entries);
    if same == entries.len() {
        return Ok(());
    }
    log.replace_behind(prev_index + same, entries, same)
}

/// How many of the entries behind an index agree in term with other ones, from their front on.
fn agreeing<E>(log: &Log<E>, index: u64, entries: &Log<E>) -> u64
    ensures count { result ≡ agreeing (drop index log.now) entries.now }
    ensures entries { result ≤ length entries.now }
    ensures log { result ≤ length log.now - index }
{
    let behind = log.as_slice().get(index as usize..).unwrap_or(&[]);
    agreeing_in(behind, entries.as_slice()) as u64
}

/// How many entries at the front agree in term.
fn agreeing_in<E>(own: &[LogEntry<E>], new: &[LogEntry<E>]) -> usize
    ensures count { result ≡ agreeing own.now new.now }
    ensures own { result ≤ length own.now }
    ensures new { result ≤ length new.now }
{
    let mut n = 0;
    while n < own.len() && n < new.len() && own[n].term == new[n].term {
        n += 1;
    }
    n
}
