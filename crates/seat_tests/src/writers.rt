//! Any number of threads, each with a seat of its own, over a book that is borrowed.
ghost use Rattle.std.specs.Prelude.{◌≡◌, ℕ, ◌<◌, length, slice_index_or, IfSome};
ghost use Rattle.std.specs.List.{All};
ghost use Rattle.journal_seat.specs.Book.{IsIdle};
ghost use Rattle.journal_seat.specs.Calls.{IsSeatOf, IsSameSeat};
ghost use Rattle.seat_tests.specs.Writers.{IsReady, HasWritten};

use crate::mark::Mark;
use journal_seat::{Book, Seat};
use std::sync::Wait;
use std::thread;
use std::thread::Threads;

/// A seat, the entry that it is to add, and where that stands once it is added.
#[derive(Drop)]
pub struct Writer {
    pub seat: Seat<Mark>,
    pub entry: Mark,
    pub place: Option<u64>,
}

/// Adds the writer's entry, unless the book is full.
pub fn write<R: Wait>(rt: &R, book: &Book<Mark>, writer: &mut Writer)
    requires { IsReady book.now writer.old }
    ensures { HasWritten writer.old writer.new }
{
    writer.place = book.append(rt, &mut writer.seat, writer.entry).ok();
}

/// Each writer adds its entry, in as many threads.
pub fn write_all<R: Threads + Wait + Sync>(rt: &R, book: &Book<Mark>, writers: &mut [Writer])
    requires { All (IsReady book.now) writers.old }
    ensures { (k : ℕ) (d : Writer) → k < length writers.old → HasWritten (slice_index_or writers.old k d) (slice_index_or writers.new k d) }
{
    if writers.is_empty() {
        return;
    }
    let count = writers.len();
    thread::for_each_mut(
        rt,
        writers,
        count,
        &|_, writer: &mut Writer|
            requires { IsReady book.now writer.old }
            ensures { HasWritten writer.entry.now writer.exit.now }
        { write(rt, book, writer) },
    );
}
