//! The calls of the first seat: the book is begun, other seats are split from it and joined to it,
//! and the book is closed.
ghost use Rattle.std.specs.Prelude.{◌≡◌, [], true, false, IfOk};
ghost use Rattle.journal_seat.specs.Book.{opener, newcomer, with_given, joined, is_among, IsIdle};
ghost use Rattle.journal_seat.specs.Calls.{IsSeatOf, limits_of, IsWhole, IsAlone};

use crate::book::{Book, BookLimits};
use crate::entry::BookEntry;
use crate::pages::Pages;
use crate::rule::{Merge, Numbered, Part};
use crate::view::Seat;
use atomic_table::{Refused, Table};
use memory::OutOfMemory;
use std::alloc::Global;
use std::marker::Brand;

impl<E: BookEntry> Book<E> {
    /// An empty book, and its first seat, whose number is 0.
    pub fn start(alloc: Global, limits: BookLimits) -> Result<(Book<E>, Seat<E>), OutOfMemory>
        ensures { IfOk result (λ b. IsSeatOf b.0 b.1 × (b.1.me ≡ (opener, [])) × (limits_of b.0 ≡ limits)) }
    {
        let mut slots = Vec::with_capacity(alloc, 1)?;
        slots.push_reserved(Pages::new(alloc));
        match Table::new(alloc, &[0], slots, &()) {
            Ok((table, seat)) => Ok((Book { table, limits }, seat)),
            Err(Refused { slots: _ }) => Err(OutOfMemory),
        }
    }

    /// A seat with a new number, which has seen what the first one has and has made nothing.
    pub fn split(&self, seat: &mut Seat<E>, number: u8) -> Seat<E>
        requires seat { IsSeatOf self.now seat.old }
        requires idle { IsIdle seat.old.me }
        requires first { seat.old.me.0.first ≡ true }
        requires new { is_among number seat.old.me.0.given ≡ false }
        ensures first { (seat.new.table_id ≡ seat.old.table_id) × (seat.new.id ≡ seat.old.id) × (seat.new.me ≡ (with_given number seat.old.me.0, [])) }
        ensures other { IsSeatOf self.now result × (result.me ≡ (newcomer number seat.old.me.0, [])) }
    {
        self.part::<Brand>(seat, number)
    }

    fn part<N: Numbered>(&self, seat: &mut Seat<E>, number: u8) -> Seat<E>
        requires seat { IsSeatOf self.now seat.old }
        requires idle { IsIdle seat.old.me }
        requires first { seat.old.me.0.first ≡ true }
        requires new { is_among number seat.old.me.0.given ≡ false }
        requires picked { number ≡ N.number }
        ensures first { (seat.new.table_id ≡ seat.old.table_id) × (seat.new.id ≡ seat.old.id) × (seat.new.me ≡ (with_given number seat.old.me.0, [])) }
        ensures other { IsSeatOf self.now result × (result.me ≡ (newcomer number seat.old.me.0, [])) }
    {
        let _ = number;
        self.table.shared.split_seat::<Part<N>>(seat)
    }

    /// Takes in a seat that is done. The first seat has then seen the longer of what both had seen,
    /// and keeps what the other had seen and made.
    pub fn join(&self, seat: &mut Seat<E>, other: Seat<E>)
        requires seat { IsSeatOf self.now seat.old }
        requires idle { IsIdle seat.old.me }
        requires first { seat.old.me.0.first ≡ true }
        requires other { IsSeatOf self.now other × IsIdle other.me }
        ensures { (seat.new.table_id ≡ seat.old.table_id) × (seat.new.id ≡ seat.old.id) × (seat.new.me ≡ (joined seat.old.me.0 other.me.0, [])) }
    {
        self.table.shared.join_seat::<Merge>(seat, other);
    }

    /// The list. All seats are in it: each entry is that of the first seat or of one that it took in.
    pub fn close(self, seat: Seat<E>) -> Vec<E>
        requires seat { IsSeatOf self seat }
        requires idle { IsIdle seat.me }
        requires first { seat.me.0.first ≡ true }
        requires alone { IsAlone seat.me.0 }
        ensures { IsWhole E.seat_of seat.me.0 result.items }
    {
        let Book { table, limits: _ } = self;
        let mut closed = table.close_with(seat);
        let pages = closed.take(0);
        closed.free();
        pages.into_vec()
    }
}
