//! A hold: the list is out with one seat at a time, from `take` to `give`.
ghost use Rattle.std.specs.Prelude.{◌≡◌, [], ◌∷◌, length, drop};
ghost use Rattle.journal_seat.specs.Book.{IsIdle, IsKnown, took, gave, given_list, HasOut, IsOwn};
ghost use Rattle.journal_seat.specs.Calls.{IsSeatOf};

use crate::book::Book;
use crate::entry::BookEntry;
use crate::rule::{Give, Take};
use crate::view::Seat;
use std::sync::Wait;
use std::{hint, thread};

/// After so many tries, each of which pauses twice as long as the one before, a seat that waits
/// lets other threads run.
const SPINNING_TRIES: u64 = 6;

impl<E: BookEntry> Book<E> {
    /// Waits until the list is at home, and takes it out.
    pub(crate) fn take<R: Wait>(&self, rt: &R, seat: &mut Seat<E>)
        requires seat { IsSeatOf self.now seat.old }
        requires idle { IsIdle seat.old.me }
        ensures seat { (seat.new.table_id ≡ seat.old.table_id) × (seat.new.id ≡ seat.old.id) }
        ensures taken { seat.new.me ≡ (took seat.old.me.0 seat.new.me.0.seen, (0, seat.new.me.0.seen) ∷ []) }
        ensures known { IsKnown E.seat_of seat.old.me.0 seat.new.me.0.seen }
    {
        let mut tries = 0;
        for _ in rt.forever() {
            if self.table.shared.compare_exchange::<Take>(seat, 0, 0, 1) == 0 {
                return;
            }
            pause(tries);
            tries = SPINNING_TRIES.min(tries + 1);
        }
        unreachable!()
    }

    /// Gives the list back. What stands behind what the seat had found is its own.
    pub(crate) fn give(&self, seat: &mut Seat<E>)
        requires seat { IsSeatOf self.now seat.old }
        requires out { HasOut seat.old.me (given_list seat.old.me.1) }
        requires own { IsOwn E.seat_of seat.old.me.0.number (drop (length seat.old.me.0.seen) (given_list seat.old.me.1)) }
        ensures seat { (seat.new.table_id ≡ seat.old.table_id) × (seat.new.id ≡ seat.old.id) }
        ensures given { seat.new.me ≡ (gave seat.old.me.0 (given_list seat.old.me.1), []) }
    {
        self.table.shared.store::<Give>(seat, 0, 0);
    }
}

/// Lets some time pass before the next try.
fn pause(tries: u64) {
    if tries >= SPINNING_TRIES {
        thread::yield_now();
        return;
    }
    for _ in 0..(1u64 << tries) {
        hint::spin_loop();
    }
}
