//! A look: a seat sees the whole list, and copies what is new.
ghost use Rattle.std.specs.Prelude.{◌≡◌, OnOk, OnErr, IsOk};
ghost use Rattle.journal_seat.specs.Book.{StartsWith, IsIdle, Looked};
ghost use Rattle.journal_seat.specs.Calls.{IsSeatOf, IsSameSeat};

use crate::book::Book;
use crate::entry::BookEntry;
use crate::view::Seat;
use memory::OutOfMemory;
use std::alloc::Global;
use std::sync::Wait;

impl<E: BookEntry> Book<E> {
    /// Makes the seat see the whole list, and copies to `into`, which begins what it had seen, all
    /// that `into` lacks. Where it lacks nothing this takes no memory. Without memory `into` is as
    /// it was, and the seat has seen the list all the same.
    pub fn look<R: Wait>(
        &self,
        rt: &R,
        alloc: Global,
        seat: &mut Seat<E>,
        into: &mut Vec<E>,
    ) -> Result<(), OutOfMemory>
        requires seat { IsSeatOf self.now seat.old }
        requires idle { IsIdle seat.old.me }
        requires into { StartsWith seat.old.me.0.seen into.old.items }
        ensures seat { IsSameSeat seat.old seat.new }
        ensures looked { Looked E.seat_of seat.old.me.0 seat.new.me.0 }
        ensures copied { OnOk result (into.new.items ≡ seat.new.me.0.seen) }
        ensures kept { OnErr result (into.new.items ≡ into.old.items) }
        ensures nothing_new { into.old.items ≡ seat.new.me.0.seen → IsOk result }
    {
        self.take(rt, seat);
        let pages = seat.slot_mut(&self.table.shared, 0);
        let copied = pages.copy_to(alloc, into);
        self.give(seat);
        copied
    }
}
