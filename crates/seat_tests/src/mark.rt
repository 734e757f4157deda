//! The entries of the tests.
use journal_seat::BookEntry;
use memory::OutOfMemory;
use std::alloc::Global;

/// An entry with a number that tells it from others.
#[derive(Clone, Copy, Debug, PartialEq, Eq)]
pub struct Mark {
    pub seat: u8,
    pub weight: u64,
    pub number: u64,
}

impl BookEntry for Mark {
    ghost seat_of = { λ m. m.seat };

    ghost weight_of = { λ m. m.weight };

    fn seat(&self) -> u8 {
        self.seat
    }

    fn weight(&self) -> u64 {
        self.weight
    }

    fn copy(&self, _alloc: Global) -> Result<Mark, OutOfMemory> {
        Ok(*self)
    }
}
