//! An append: an entry is put behind the last one, unless the list is at a limit.
ghost use Rattle.std.specs.Prelude.{◌≡◌, [], ◌∷◌, ◌++◌, length, IfOk, IfErr, OnErr, None};
ghost use Rattle.journal_seat.specs.Book.{IsIdle, Looked};
ghost use Rattle.journal_seat.specs.Calls.{IsSeatOf, IsSameSeat, limits_of, what_is_full, IsRefusal, Appended};

use crate::book::{AppendRefused, Book, BookFull, BookLimits};
use crate::entry::BookEntry;
use crate::pages::Pages;
use crate::view::Seat;
use memory::OutOfMemory;
use std::sync::Wait;

impl<E: BookEntry> Book<E> {
    /// Adds an entry of this seat behind the last one, and tells its place. The seat has then seen
    /// the list that it found, and this entry.
    pub fn append<R: Wait>(
        &self,
        rt: &R,
        seat: &mut Seat<E>,
        entry: E,
    ) -> Result<u64, AppendRefused<E>>
        requires seat { IsSeatOf self.now seat.old }
        requires idle { IsIdle seat.old.me }
        requires names { E.seat_of entry ≡ seat.old.me.0.number }
        ensures seat { IsSameSeat seat.old seat.new }
        ensures appended { IfOk result (λ place. Appended E.seat_of E.weight_of (limits_of self.now) entry seat.old.me.0 place seat.new.me.0) }
        ensures refused { IfErr result (λ r. Looked E.seat_of seat.old.me.0 seat.new.me.0 × IsRefusal (what_is_full E.weight_of (limits_of self.now) seat.new.me.0.seen entry) entry r) }
    {
        self.take(rt, seat);
        let pages = seat.slot_mut(&self.table.shared, 0);
        let added = add(pages, self.limits, entry);
        self.give(seat);
        added
    }
}

/// Adds an entry behind the last one, unless a limit is met: that of entries before that of weight.
fn add<E: BookEntry>(
    pages: &mut Pages<E>,
    limits: BookLimits,
    entry: E,
) -> Result<u64, AppendRefused<E>>
    ensures ok { IfOk result (λ place. (place ≡ length pages.old) × (pages.new ≡ pages.old ++ entry ∷ []) × (what_is_full E.weight_of limits pages.old entry ≡ None)) }
    ensures same { OnErr result (pages.new ≡ pages.old) }
    ensures refused { IfErr result (λ r. IsRefusal (what_is_full E.weight_of limits pages.old entry) entry r) }
{
    let place = pages.len();
    if place >= limits.entries {
        return Err(AppendRefused::Full(entry, BookFull::Entries));
    }
    let room = limits.weight.checked_sub(pages.weight());
    match room {
        Some(room) if entry.weight() <= room => {}
        _ => return Err(AppendRefused::Full(entry, BookFull::Weight)),
    }
    match pages.push(entry) {
        Ok(()) => Ok(place),
        Err(OutOfMemory) => Err(AppendRefused::OutOfMemory),
    }
}
