//! The rule of a book's table, and what its steps tell.

use crate::entry::BookEntry;
use crate::pages::Pages;
use crate::view::View;
use atomic_table::{Join, Play, Split, TableRule};
use std::marker::{Brand, PhantomData};

/// There is one list. What each seat has seen begins it, and each seat's entries in it are those
/// that the seat made.
pub struct BookRule;

impl<E: BookEntry> TableRule<Pages<E>, View<E>, ()> for BookRule {
    ghost use Rattle.journal_seat.specs.Book.{Kept, opener};

    ghost holds = { λ _. Kept E.seat_of };

    ghost first = { λ _. opener };
}

/// A try to take the list.
pub(crate) struct Take;

impl<E: BookEntry> Play<Pages<E>, View<E>> for Take {
    ghost use Rattle.journal_seat.specs.Book.{Tried};

    ghost then = { Tried E.seat_of };
}

/// The list goes home, as its holder leaves it.
pub(crate) struct Give;

impl<E: BookEntry> Play<Pages<E>, View<E>> for Give {
    ghost use Rattle.journal_seat.specs.Book.{Gave};

    ghost then = { Gave };
}

/// A number that a call picks, for a new seat.
pub(crate) trait Numbered {
    ghost use Rattle.std.specs.Prelude.{ℕ};

    ghost number: { ℕ };
}

impl Numbered for Brand {
    ghost number = { 0 };
}

/// A new seat with that number.
pub(crate) struct Part<N> {
    marker: PhantomData<N>,
}

impl<E, N: Numbered> Split<View<E>> for Part<N> {
    ghost use Rattle.journal_seat.specs.Book.{newcomer, with_given};

    ghost left = { with_given N.number };

    ghost right = { newcomer N.number };
}

/// A seat takes in another.
pub(crate) struct Merge;

impl<E> Join<View<E>> for Merge {
    ghost use Rattle.journal_seat.specs.Book.{joined, nobody};

    ghost both = { joined };

    ghost spent = { nobody };
}
