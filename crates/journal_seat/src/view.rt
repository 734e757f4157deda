//! What a seat of a book knows. No value of these types is made: they are for proofs alone.

use crate::pages::Pages;
use std::collections::LinkedList;

/// A seat that another took in.
pub struct EndedSeat<E> {
    pub number: u8,
    /// The list as that seat last saw it.
    pub seen: LinkedList<E>,
    /// The entries that it made, in their order.
    pub made: LinkedList<E>,
}

/// What a seat knows.
pub struct View<E> {
    /// The number that its entries name.
    pub number: u8,
    /// No other seat has taken it in.
    pub live: bool,
    /// The list is out with it.
    pub out: bool,
    /// How often it took the list.
    pub takes: u64,
    /// The list as the seat last saw it.
    pub seen: LinkedList<E>,
    /// The entries that it made, in their order.
    pub made: LinkedList<E>,
    /// It is the seat that the book began with, which alone splits, joins and closes.
    pub first: bool,
    /// Of the first seat, the numbers that it gave, its own among them.
    pub given: LinkedList<u8>,
    /// Of the first seat, those that it took in.
    pub ended: LinkedList<EndedSeat<E>>,
}

/// The right to take a book. It has no bytes and may go to another thread.
pub type Seat<E> = atomic_table::Seat<Pages<E>, View<E>>;
