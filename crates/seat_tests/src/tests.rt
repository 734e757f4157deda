//! Calls of a book in one thread and in two, against lists that are written out.
ghost use Rattle.std.specs.Prelude.{◌≡◌};

use crate::mark::Mark;
use crate::two::two;
use crate::writers::{Writer, write_all};
use journal_seat::{AppendRefused, Book, BookFull, BookLimits};
use std::alloc::Global;
use std::sync::Wait;
use std::thread::Threads;

const ROOMY: BookLimits = BookLimits {
    entries: 100,
    weight: 1000,
};

fn mark(seat: u8, number: u64) -> Mark
    ensures { result.seat ≡ seat }
{
    Mark {
        seat,
        weight: 10,
        number,
    }
}

/// An entry by each of two seats, looks by both, and the closed list.
fn one_after_the_other<R: Wait>(rt: &R, alloc: Global) -> bool {
    let Ok((book, mut mine)) = Book::start(alloc, ROOMY) else {
        return false;
    };
    let mut other = book.split(&mut mine, 1);
    let first = book.append(rt, &mut mine, mark(0, 7));
    let second = book.append(rt, &mut other, mark(1, 8));
    let mut seen = Vec::new(alloc);
    let mut seen_by_other = Vec::new(alloc);
    let looked = book.look(rt, alloc, &mut mine, &mut seen);
    let other_looked = book.look(rt, alloc, &mut other, &mut seen_by_other);
    book.join(&mut mine, other);
    let list = book.close(mine);
    let wanted = [mark(0, 7), mark(1, 8)];
    matches!((first, second), (Ok(0), Ok(1)))
        && looked.is_ok()
        && other_looked.is_ok()
        && seen.as_slice() == wanted.as_slice()
        && seen_by_other.as_slice() == wanted.as_slice()
        && list.as_slice() == wanted.as_slice()
}

/// The number of the first of three entries that does not fit, and the limit that it meets.
fn refused<R: Wait>(rt: &R, alloc: Global, limits: BookLimits) -> Option<(u64, BookFull)> {
    let (book, mut mine) = Book::start(alloc, limits).ok()?;
    for number in 0..3u64 {
        match book.append(rt, &mut mine, mark(0, number)) {
            Ok(_) => {}
            Err(AppendRefused::Full(entry, which)) => return Some((entry.number, which)),
            Err(AppendRefused::OutOfMemory) => return None,
        }
    }
    None
}

/// How many entries stand in the list that two threads made.
fn made_by_two<R: Threads + Wait + Sync>(rt: &R, alloc: Global) -> Option<usize> {
    let mut first = Vec::new(alloc);
    first.push(mark(0, 1)).ok()?;
    let mut second = Vec::new(alloc);
    second.push(mark(1, 2)).ok()?;
    let list = two(rt, alloc, ROOMY, first, second).ok()?;
    Some(list.len())
}

/// The places at which two writers, each in a thread, put their entries.
fn written<R: Threads + Wait + Sync>(rt: &R, alloc: Global) -> Option<(u64, u64)> {
    let (book, mut mine) = Book::start(alloc, ROOMY).ok()?;
    let other = book.split(&mut mine, 1);
    let mut writers = [
        Writer {
            seat: mine,
            entry: mark(0, 1),
            place: None,
        },
        Writer {
            seat: other,
            entry: mark(1, 2),
            place: None,
        },
    ];
    write_all(rt, &book, &mut writers);
    Some((writers[0].place?, writers[1].place?))
}

#[test]
fn each_seat_sees_what_both_made(rt: HostRuntime) {
    assert!(rt; one_after_the_other(&rt, rt.alloc()));
}

#[test]
fn a_full_book_gives_the_entry_back(rt: HostRuntime) {
    let cases: [(u64, u64, Option<(u64, BookFull)>); 6] = [
        (3, 30, None),
        (2, 30, Some((2, BookFull::Entries))),
        (0, 0, Some((0, BookFull::Entries))),
        (3, 29, Some((2, BookFull::Weight))),
        (3, 9, Some((0, BookFull::Weight))),
        (2, 29, Some((2, BookFull::Entries))),
    ];
    for (entries, weight, wanted) in cases {
        let found = refused(&rt, rt.alloc(), BookLimits { entries, weight });
        assert!(rt; found == wanted, "{entries} {weight}");
    }
}

#[test]
fn threads_add_their_entries(rt: HostRuntime) {
    assert!(rt; made_by_two(&rt, rt.alloc()) == Some(2));
    let places = written(&rt, rt.alloc());
    assert!(rt; matches!(places, Some((0, 1) | (1, 0))));
}
