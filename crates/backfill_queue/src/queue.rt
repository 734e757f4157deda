//! The queue.
ghost use Rattle.std.specs.Prelude.{◌≡◌, ◌<◌, [], ◌∷◌, ◌++◌, OnOk, OnErr};
ghost use Rattle.backfill_queue.specs.Released.{released, is_released};

use memory::OutOfMemory;
use region_map::Region;
use std::alloc::Global;
use std::marker::Model;
use std::mem;
use store_api::Item;

/// Items with the timestamps at which their keys got them, in the order in which they were put.
#[derive(Debug, Drop)]
pub struct Queue {
    items: Vec<(u64, Item)>,
}

impl Model for Queue {
    ghost use Rattle.std.specs.Prelude.{ℕ, List};
    ghost use Rattle.store_api.specs.declared.Item.{Item};

    ghost Value = { List (ℕ × Item) };

    ghost view = { λ a. a.items.items };
}

impl Queue {
    /// A queue with nothing in it.
    pub fn new(alloc: Global) -> Queue
        ensures { result ≡ [] }
    {
        Queue {
            items: Vec::new(alloc),
        }
    }

    /// One more item, behind the others.
    pub fn put(&mut self, at: u64, item: Item) -> Result<(), OutOfMemory>
        ensures ok { OnOk result (self.new ≡ self.old ++ (at, item) ∷ []) }
        ensures err { OnErr result (self.new ≡ self.old) }
    {
        self.items.push((at, item))?;
        Ok(())
    }

    /// The items whose key lies in the part, where there are so many hashes, and whose timestamp lies behind this
    /// one, in their order. The others are let go: nothing is left in the queue.
    pub fn release(
        &mut self,
        alloc: Global,
        part: &Region,
        hashes: u8,
        after: u64,
    ) -> Vec<(u64, Item)>
        requires { 0 < hashes }
        ensures released { result.items ≡ released part.now hashes after self.old }
        ensures rest { self.new ≡ [] }
    {
        self.items
            .retain(|put| is_released(part, hashes, after, put));
        mem::replace(&mut self.items, Vec::new(alloc))
    }
}

/// Whether the item's key lies in the part, and its timestamp behind this one.
fn is_released(part: &Region, hashes: u8, after: u64, put: &(u64, Item)) -> bool
    requires { 0 < hashes }
    ensures { result ≡ is_released part.now hashes after put.now }
{
    after < put.0 && part.contains(&put.1.key, hashes)
}
