//! Callers whose clauses follow only as long as those of the crates of data say so: half is no majority, 65 bytes are no
//! key. Each stands where an edit of the code would otherwise have to be refused anew.
//!
//! Above: nothing. Below: the crates of data.
//! Promise: each call tells one consequence of a clause of another crate, in numbers and cases of its own.
#![tactic(auto)]

pub mod counts;
pub mod histories;
pub mod keys;
pub mod lines;
pub mod maps;
pub mod reads;
pub mod registers;
pub mod stores;
