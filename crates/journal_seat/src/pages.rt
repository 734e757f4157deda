//! The list of a book, with its weight.
ghost use Rattle.std.specs.Prelude.{◌≡◌, [], ◌∷◌, ◌++◌, ◌+◌, ◌^◌, ◌<◌, length, take, OnOk, OnErr, IsOk};
ghost use Rattle.std.specs.List.{sum_by};

use crate::entry::BookEntry;
use memory::OutOfMemory;
use std::alloc::Global;
use std::marker::Model;

/// Entries in their order, which contracts see as a list.
#[derive(Drop)]
pub struct Pages<E: BookEntry> {
    entries: Vec<E>,
    weight: u64,
}

impl<E: BookEntry> Model for Pages<E> {
    ghost use Rattle.std.specs.Prelude.{◌≡◌, List};
    ghost use Rattle.std.specs.List.{sum_by};

    ghost Value = { List E };

    ghost view = { λ p. p.entries.items };

    ghost invariant = { λ p. p.weight ≡ sum_by E.weight_of p.entries.items };
}

impl<E: BookEntry> Pages<E> {
    /// No entries.
    pub fn new(alloc: Global) -> Pages<E>
        ensures { result ≡ [] }
    {
        Pages {
            entries: Vec::new(alloc),
            weight: 0,
        }
    }

    /// How many entries there are.
    pub fn len(&self) -> u64
        ensures { result ≡ length self.now }
    {
        self.entries.len() as u64
    }

    /// The weights of all entries, added up.
    pub fn weight(&self) -> u64
        ensures { result ≡ sum_by E.weight_of self.now }
    {
        self.weight
    }

    /// The entries.
    pub fn into_vec(self) -> Vec<E>
        ensures { result.items ≡ self }
    {
        self.entries
    }

    /// Adds an entry behind the last one.
    pub fn push(&mut self, entry: E) -> Result<(), OutOfMemory>
        requires { sum_by E.weight_of self.old + E.weight_of entry < 2 ^ 64 }
        ensures ok { OnOk result (self.new ≡ self.old ++ entry ∷ []) }
        ensures err { OnErr result (self.new ≡ self.old) }
    {
        self.entries.reserve(1)?;
        self.weight += entry.weight();
        self.entries.push_reserved(entry);
        Ok(())
    }

    /// Copies to a list, which begins these entries, those that it lacks. Where it lacks none this
    /// takes no memory, and without memory it is left as it was.
    pub fn copy_to(&self, alloc: Global, into: &mut Vec<E>) -> Result<(), OutOfMemory>
        requires { take (length into.old.items) self.now ≡ into.old.items }
        ensures ok { OnOk result (into.new.items ≡ self.now) }
        ensures err { OnErr result (into.new.items ≡ into.old.items) }
        ensures nothing_new { into.old.items ≡ self.now → IsOk result }
    {
        let known = into.len();
        let copied = copy_behind(alloc, &self.entries, into);
        if copied.is_err() {
            into.truncate(known);
        }
        copied
    }
}

/// Copies the entries behind those that a list has to its end, as far as there is memory.
fn copy_behind<E: BookEntry>(
    alloc: Global,
    entries: &[E],
    into: &mut Vec<E>,
) -> Result<(), OutOfMemory>
    requires { take (length into.old.items) entries.now ≡ into.old.items }
    ensures ok { OnOk result (into.new.items ≡ entries.now) }
    ensures err { OnErr result (take (length into.old.items) into.new.items ≡ into.old.items) }
    ensures nothing_new { into.old.items ≡ entries.now → IsOk result }
{
    let known = into.len();
    if known >= entries.len() {
        return Ok(());
    }
    let lacking = &entries[known..];
    into.reserve(lacking.len())?;
    for entry in lacking {
        let copy = entry.copy(alloc)?;
        into.push_reserved(copy);
    }
    Ok(())
}
