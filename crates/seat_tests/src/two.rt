//! Two threads, each with a seat of its own.
ghost use Rattle.std.specs.Prelude.{◌≡◌, ℕ, [], ◌∷◌, ◌++◌, true, false, IfOk, OnOk};
ghost use Rattle.journal_seat.specs.Book.{IsIdle, made_by, is_among};
ghost use Rattle.journal_seat.specs.Calls.{IsSeatOf, IsSameSeat};
ghost use Rattle.seat_tests.specs.Made.{HasMade, Names};

use journal_seat::{AppendRefused, Book, BookEntry, BookLimits, Seat};
use std::alloc::Global;
use std::sync::Wait;
use std::thread;
use std::thread::Threads;

/// Adds entries of a seat in their order. At `Err` some of them may stand in the book.
pub fn append_all<E: BookEntry, R: Wait>(
    rt: &R,
    book: &Book<E>,
    seat: &mut Seat<E>,
    entries: Vec<E>,
) -> Result<(), AppendRefused<E>>
    requires seat { IsSeatOf book.now seat.old }
    requires idle { IsIdle seat.old.me }
    requires names { Names E.seat_of seat.old.me.0.number entries.items }
    ensures seat { IsSameSeat seat.old seat.new × IsIdle seat.new.me }
    ensures made { OnOk result (HasMade seat.old.me.0 entries.items seat.new.me.0) }
{
    for entry in entries {
        book.append(rt, seat, entry)?;
    }
    Ok(())
}

/// What one thread does with its seat.
fn added<E: BookEntry, R: Wait>(
    rt: &R,
    book: &Book<E>,
    mut seat: Seat<E>,
    entries: Vec<E>,
) -> (Seat<E>, Result<(), AppendRefused<E>>)
    requires seat { IsSeatOf book.now seat }
    requires idle { IsIdle seat.me }
    requires names { Names E.seat_of seat.me.0.number entries.items }
    ensures seat { IsSeatOf book.now result.0 × IsIdle result.0.me }
    ensures made { OnOk result.1 (HasMade seat.me.0 entries.items result.0.me.0) }
{
    let done = append_all(rt, book, &mut seat, entries);
    (seat, done)
}

/// The list, once both seats are done.
fn whole<E: BookEntry>(book: Book<E>, mut mine: Seat<E>, other: Seat<E>) -> Vec<E>
    requires mine { IsSeatOf book mine × IsIdle mine.me × (mine.me.0.first ≡ true) }
    requires other { IsSeatOf book other × IsIdle other.me }
    requires numbers { (mine.me.0.number ≡ 0) × (other.me.0.number ≡ 1) × (mine.me.0.given ≡ 1 ∷ 0 ∷ []) × (mine.me.0.ended ≡ []) }
    ensures first { made_by E.seat_of 0 result.items ≡ mine.me.0.made }
    ensures second { made_by E.seat_of 1 result.items ≡ other.me.0.made }
    ensures others { (n : ℕ) → is_among n (0 ∷ 1 ∷ []) ≡ false → made_by E.seat_of n result.items ≡ [] }
{
    book.join(&mut mine, other);
    book.close(mine)
}

/// Two threads add entries, each by a seat of its own. The list has those of each in their order,
/// and no others.
pub fn two<E: BookEntry + Send, R: Threads + Wait + Sync>(
    rt: &R,
    alloc: Global,
    limits: BookLimits,
    first: Vec<E>,
    second: Vec<E>,
) -> Result<Vec<E>, AppendRefused<E>>
    requires first { Names E.seat_of 0 first.items }
    requires second { Names E.seat_of 1 second.items }
    ensures first { IfOk result (λ list. made_by E.seat_of 0 list.items ≡ first.items) }
    ensures second { IfOk result (λ list. made_by E.seat_of 1 list.items ≡ second.items) }
    ensures others { IfOk result (λ list. (n : ℕ) → is_among n (0 ∷ 1 ∷ []) ≡ false → made_by E.seat_of n list.items ≡ []) }
{
    let Ok((book, mut mine)) = Book::start(alloc, limits) else {
        return Err(AppendRefused::OutOfMemory);
    };
    let other = book.split(&mut mine, 1);
    let shared = &book;
    let (left, right) = thread::join(
        rt,
        move ||
            requires { IsSeatOf shared.now mine × IsIdle mine.me × Names E.seat_of mine.me.0.number first.items }
            ensures { IsSeatOf shared.entry.now result.0 × IsIdle result.0.me × OnOk result.1 (HasMade mine.me.0 first.items result.0.me.0) }
        { added(rt, shared, mine, first) },
        move ||
            requires { IsSeatOf shared.now other × IsIdle other.me × Names E.seat_of other.me.0.number second.items }
            ensures { IsSeatOf shared.entry.now result.0 × IsIdle result.0.me × OnOk result.1 (HasMade other.me.0 second.items result.0.me.0) }
        { added(rt, shared, other, second) },
    );
    let (mine, done) = left;
    done?;
    let (other, done) = right;
    done?;
    Ok(whole(book, mine, other))
}
