//! What a book is made of.
ghost use Rattle.std.specs.Prelude.{◌≡◌, ℕ, IfOk};

use memory::OutOfMemory;
use std::alloc::Global;

/// An entry names the seat that makes it.
pub trait BookEntry: Drop + Sized {
    /// The number of its seat.
    ghost seat_of: { Self → ℕ };

    /// What it adds to the weight of a book.
    ghost weight_of: { Self → ℕ };

    /// The number of its seat.
    fn seat(&self) -> u8
        ensures { result ≡ seat_of self.now };

    /// What it adds to the weight of a book.
    fn weight(&self) -> u64
        ensures { result ≡ weight_of self.now };

    /// An equal value.
    fn copy(&self, alloc: Global) -> Result<Self, OutOfMemory>
        ensures { IfOk result (λ x. x ≡ self.now) };
}
