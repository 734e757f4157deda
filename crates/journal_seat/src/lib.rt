//! One list of entries that threads share: each takes it, reads what is new, and adds at its end.
//!
//! Above: whatever runs nodes in threads. Below: `memory`, and the kit's `atomic_table`.
//! Promise: whatever the threads do, the list that `Book::close` gives has the entries that its
//! seats made, each once and in the order of its seat, and what any seat had seen begins it.
//!
//! The list lies in the one slot of a table with one word, 0 where the list is at home and 1 where
//! a seat has it out. A seat has no bytes: its view, what it has seen and made, is for proofs alone.
#![tactic(auto)]

pub use book::{AppendRefused, Book, BookFull, BookLimits};
pub use entry::BookEntry;
pub use view::Seat;

mod append;
pub mod book;
pub mod entry;
mod hold;
mod look;
pub mod pages;
mod rule;
mod seats;
pub mod view;
