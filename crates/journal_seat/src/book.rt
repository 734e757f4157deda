//! A book, its limits, and why an entry was not added.
ghost use Rattle.std.specs.Prelude.{◌≡◌};

use crate::entry::BookEntry;
use crate::pages::Pages;
use crate::rule::BookRule;
use crate::view::View;
use atomic_table::Table;
use std::alloc::Global;
use thiserror::Error;

/// How many entries a book takes, and how much they may weigh together.
#[derive(Clone, Copy, Debug)]
pub struct BookLimits {
    pub entries: u64,
    pub weight: u64,
}

/// The limit that an entry would have passed.
#[derive(Clone, Copy, Debug, PartialEq, Eq)]
pub enum BookFull {
    Entries,
    Weight,
}

/// Why an entry was not added. The list is as it was.
#[derive(Debug, Drop, Error)]
pub enum AppendRefused<E> {
    /// The list is at a limit. The entry is given back.
    #[error("the book is full")]
    Full(E, BookFull),
    #[error("out of memory")]
    OutOfMemory,
}

/// A list that threads share through their seats.
#[derive(Drop)]
pub struct Book<E: BookEntry> {
    pub(crate) table: Table<Pages<E>, View<E>, (), BookRule, Global>,
    pub(crate) limits: BookLimits,
    ghost sized: { (table.shared.table_id.words ≡ 1) × (table.shared.table_id.slots ≡ 1) },
}
