//! Numbered parts.
ghost use Rattle.std.specs.Prelude.{◌≡◌, ◌+◌, ◌-◌, ◌≤◌, ◌<◌, ◌↔◌, [], ◌∷◌, ◌++◌, not, ◌&&◌, length, drop, IsTrue, IfOk, OnOk, OnErr, Err};
ghost use Rattle.backfill_stream.specs.Parts.{AreNumbered, with_part, behind, is_full, is_over};

use crate::{SendRefused, UNACKED_LIMIT};
use region_map::NUMBERS_END;
use std::alloc::Global;
use std::marker::Model;

/// The parts of a stream, each sent under the number after that of the part before it.
///
/// What was acknowledged leaves a place in front of `front`. Once these places are half of all, the rest moves
/// up, so a part costs constant time on the whole, and what is not acknowledged stays one slice.
#[derive(Debug, Drop)]
pub struct Numbered<P> {
    parts: Vec<(u64, P)>,
    front: usize,
    next: u64,
}

impl<P> Model for Numbered<P> {
    ghost use Rattle.std.specs.Prelude.{◌≤◌, length, drop};
    ghost use Rattle.backfill_stream.specs.Parts.{Stream, AreNumbered};
    ghost use Rattle.backfill_stream.specs.Kept.{IsKept};

    ghost Value = { Stream P };

    ghost view = { λ a. record { next = a.next; unacked = drop a.front a.parts.items } };

    ghost invariant = { λ a. IsKept a.next a.front a.parts.items };
}

impl<P> Numbered<P> {
    /// A stream whose first part gets this number.
    pub fn new(alloc: Global, first: u64) -> Numbered<P>
        ensures { result ≡ record { next = first; unacked = [] } }
    {
        Numbered {
            parts: Vec::new(alloc),
            front: 0,
            next: first,
        }
    }

    /// The parts that are not acknowledged, the oldest first, with their numbers.
    pub fn unacked(&self) -> &[(u64, P)]
        ensures value { result.now ≡ self.now.unacked }
        ensures numbers { AreNumbered self.now.next self.now.unacked }
        ensures few { length self.now.unacked ≤ 1024 }
    {
        &self.parts.as_slice()[self.front..]
    }

    /// The number that the next part gets.
    pub fn next_number(&self) -> u64
        ensures { result ≡ self.now.next }
    {
        self.next
    }

    fn is_full(&self) -> bool
        ensures { result ≡ is_full self.now }
    {
        self.parts.len() - self.front >= UNACKED_LIMIT
    }
}

impl<P: Drop> Numbered<P> {
    /// Keeps a part under the next number, which it answers, until it is acknowledged.
    pub fn send(&mut self, part: P) -> Result<u64, SendRefused<P>>
        ensures ok { IfOk result (λ number. (number ≡ self.old.next) × (self.new ≡ with_part self.old part)) }
        ensures too_many { (result ≡ Err (SendRefused.TooMany part)) ↔ IsTrue (is_full self.old) }
        ensures numbers_end { (result ≡ Err (SendRefused.NumbersEnd part)) ↔ IsTrue (not (is_full self.old) && is_over self.old) }
        ensures err { OnErr result (self.new ≡ self.old) }
    {
        if self.is_full() {
            return Err(SendRefused::TooMany(part));
        }
        let number = self.next;
        if number >= NUMBERS_END {
            return Err(SendRefused::NumbersEnd(part));
        }
        self.parts.push((number, part))?;
        self.next = number + 1;
        Ok(number)
    }

    /// Lets go of the parts up to this number.
    pub fn acked(&mut self, upto: u64)
        ensures next { self.new.next ≡ self.old.next }
        ensures unacked { self.new.unacked ≡ behind upto self.old.unacked }
    {
        let count = acked_count(self.next, self.unacked(), upto);
        self.front += count;
        if self.parts.len() - self.front <= self.front {
            let front = self.front;
            drop_front(&mut self.parts, front);
            self.front = 0;
        }
    }
}

/// How many parts have a number up to this one: the numbers follow each other up to the next one, so there is no
/// need to look.
fn acked_count<P>(next: u64, parts: &[(u64, P)], upto: u64) -> usize
    requires { AreNumbered next parts.now }
    ensures within { result ≤ length parts.now }
    ensures left { drop result parts.now ≡ behind upto parts.now }
{
    let first = next - parts.len() as u64;
    if upto < first {
        return 0;
    }
    let rest = upto - first;
    if rest >= parts.len() as u64 {
        return parts.len();
    }
    rest as usize + 1
}

/// The list without its first members, in place.
fn drop_front<P: Drop>(parts: &mut Vec<(u64, P)>, count: usize)
    requires { count ≤ length parts.old.items }
    ensures { parts.new.items ≡ drop count parts.old.items }
{
    let left = parts.len() - count;
    parts.rotate_left(count);
    parts.truncate(left);
}
