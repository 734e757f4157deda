//! The queue of what waits.
ghost use Rattle.std.specs.Prelude.{◌≡◌, ◌<◌, ◌≤◌, [], ◌∷◌, ◌++◌, length, drop, slice_get, remove, OnOk, OnErr};

use crate::Decided;
use memory::OutOfMemory;
use register_laws::Reply;
use std::alloc::Global;
use std::marker::Model;
use std::mem;

/// What waits, first come first served, which contracts see as its list.
///
/// What was taken leaves a place in front of `head`. Once these places are more than half of all, the rest moves
/// up, so taking costs constant time on the whole, and what waits stays one slice.
#[derive(Debug, Drop)]
pub struct Waiting {
    items: Vec<Decided>,
    head: usize,
}

impl Model for Waiting {
    ghost use Rattle.std.specs.Prelude.{List, ◌≤◌, length, drop};
    ghost use Rattle.write_dispatch.specs.declared.decided.Decided.{Decided};

    ghost Value = { List Decided };

    ghost view = { λ a. drop a.head a.items.items };

    ghost invariant = { λ a. a.head ≤ length a.items.items };
}

/// The list without its first members, in place.
fn drop_front(items: &mut Vec<Decided>, count: usize)
    requires { count ≤ length items.old.items }
    ensures { items.new.items ≡ drop count items.old.items }
{
    let left = items.len() - count;
    items.rotate_left(count);
    items.truncate(left);
}

impl Waiting {
    pub fn new(alloc: Global) -> Waiting
        ensures { result ≡ [] }
    {
        Waiting {
            items: Vec::new(alloc),
            head: 0,
        }
    }

    /// What waits, as one slice.
    pub fn as_slice(&self) -> &[Decided]
        ensures { result.now ≡ self.now }
    {
        &self.items.as_slice()[self.head..]
    }

    /// One more, behind the others.
    pub fn push(&mut self, last: Decided) -> Result<(), OutOfMemory>
        ensures ok { OnOk result (self.new ≡ self.old ++ last ∷ []) }
        ensures err { OnErr result (self.new ≡ self.old) }
    {
        self.items.push(last)?;
        Ok(())
    }

    /// Takes the first.
    pub fn take_first(&mut self) -> Option<Decided>
        ensures first { result ≡ slice_get self.old 0 }
        ensures rest { self.new ≡ drop 1 self.old }
    {
        let head = self.head;
        if head == self.items.len() {
            return None;
        }
        let taken = Decided {
            op: None,
            at: 0,
            reply: Reply::Swapped,
        };
        let first = mem::replace(&mut self.items[head], taken);
        if self.items.len() - head <= head {
            drop_front(&mut self.items, head + 1);
            self.head = 0;
            return Some(first);
        }
        self.head = head + 1;
        Some(first)
    }

    /// Takes out the one at this place.
    pub fn remove(&mut self, index: usize)
        requires { index < length self.old }
        ensures { self.new ≡ remove self.old index }
    {
        let _ = self.items.remove(self.head + index);
    }
}
