//! The messages that wait, in a set for each pair of sender and receiver.
ghost use Rattle.std.specs.Prelude.{◌≡◌, ℕ, ◌==◌, ◌&&◌, ◌||◌, ◌++◌, ◌<◌, not, false, [], Some, OnOk, OnErr, IfOk, IfSome, length};
ghost use Rattle.std.specs.Ordering.{nat_cmp};
ghost use Rattle.std.specs.BTreeSet.{BTreeSet, contains};
ghost use Rattle.std.specs.List.Sorted.{IsStrictlySortedBy};
ghost use Rattle.region_map.specs.declared.id.NodeId.{NodeId};
ghost use Rattle.world_steps.specs.Waiting.{is_between};
ghost use Rattle.world_steps.specs.Pairs.{SetsState, place_of, set_of, pair_has, IsLeast};

use memory::OutOfMemory;
use region_map::NodeId;
use runs::Envelope;
use std::alloc::Global;
use std::collections::BTreeSet;
use std::marker::Model;

/// The messages that wait, in a set for each pair of sender and receiver. A message from or to a number that is no node
/// is kept in no set.
#[derive(Drop)]
pub struct WaitingSets {
    nodes: u8,
    /// The set of a pair stands at the sender's number times the nodes, plus the receiver's.
    sets: Vec<BTreeSet<u64>>,
}

impl Model for WaitingSets {
    ghost use Rattle.std.specs.Prelude.{◌≡◌, ◌*◌, ◌<◌, ◌^◌, length};
    ghost use Rattle.world_steps.specs.Pairs.{SetsState};

    ghost Value = { SetsState };

    ghost view = { λ a. record { nodes = a.nodes; sets = a.sets.items } };

    ghost invariant = { λ a. length a.sets.items ≡ a.nodes * a.nodes };
}

impl WaitingSets {
    /// No message waits between so many nodes.
    pub fn begin(alloc: Global, nodes: u8) -> Result<WaitingSets, OutOfMemory>
        ensures nodes { IfOk result (λ s. s.nodes ≡ nodes) }
        ensures none { IfOk result (λ s. (from to : NodeId) (n : ℕ) → pair_has s from to n ≡ false) }
    {
        let count = nodes as usize * nodes as usize;
        let mut sets = Vec::new(alloc);
        for _ in 0..count {
            sets.push(BTreeSet::new(alloc))?;
        }
        Ok(WaitingSets { nodes, sets })
    }

    /// How many nodes there are.
    pub fn nodes(&self) -> u8
        ensures { result ≡ self.now.nodes }
    {
        self.nodes
    }

    /// Where the set of a pair stands; a node that is not there has none.
    fn place(&self, from: NodeId, to: NodeId) -> Option<usize>
        ensures place { result ≡ place_of self.now.nodes from to }
        ensures there { IfSome result (λ place. place < length self.now.sets) }
    {
        if from.0 < self.nodes && to.0 < self.nodes {
            Some(from.0 as usize * self.nodes as usize + to.0 as usize)
        } else {
            None
        }
    }

    /// A message waits.
    pub fn add(&mut self, envelope: &Envelope, number: u64) -> Result<(), OutOfMemory>
        ensures nodes { self.new.nodes ≡ self.old.nodes }
        ensures added { OnOk result ((from to : NodeId) → from.0 < self.old.nodes → to.0 < self.old.nodes → (n : ℕ)
            → pair_has self.new from to n
            ≡ (((number == n) && is_between from to (Some envelope.now)) || pair_has self.old from to n)) }
    {
        if let Some(place) = self.place(envelope.from, envelope.to) {
            insert_into(&mut self.sets[place], number)?;
        }
        Ok(())
    }

    /// A message waits no longer.
    pub fn remove(&mut self, envelope: &Envelope, number: u64)
        ensures nodes { self.new.nodes ≡ self.old.nodes }
        ensures removed { (from to : NodeId) → from.0 < self.old.nodes → to.0 < self.old.nodes → (n : ℕ)
            → pair_has self.new from to n
            ≡ (not ((number == n) && is_between from to (Some envelope.now)) && pair_has self.old from to n) }
    {
        if let Some(place) = self.place(envelope.from, envelope.to) {
            remove_from(&mut self.sets[place], number);
        }
    }

    /// The least message that waits between two nodes.
    pub fn first(&self, from: NodeId, to: NodeId) -> Option<u64>
        ensures { from.0 < self.now.nodes → to.0 < self.now.nodes → IsLeast (pair_has self.now from to) result }
    {
        match self.place(from, to) {
            Some(place) => first_of(&self.sets[place]),
            None => None,
        }
    }

    /// Puts the messages that wait between two nodes behind those that were lost. They wait no longer.
    pub fn lose_all(
        &mut self,
        from: NodeId,
        to: NodeId,
        lost: &mut Vec<u64>,
    ) -> Result<(), OutOfMemory>
        ensures nodes { self.new.nodes ≡ self.old.nodes }
        ensures lost { from.0 < self.old.nodes → to.0 < self.old.nodes
            → OnOk result (lost.new.items ≡ lost.old.items ++ (set_of self.old from to).keys) }
        ensures ordered { from.0 < self.old.nodes → to.0 < self.old.nodes
            → OnOk result (IsStrictlySortedBy nat_cmp (set_of self.old from to).keys) }
        ensures emptied { OnOk result ((a b : NodeId) → a.0 < self.old.nodes → b.0 < self.old.nodes → (n : ℕ)
            → pair_has self.new a b n
            ≡ (not ((from.0 == a.0) && (to.0 == b.0)) && pair_has self.old a b n)) }
        ensures err { OnErr result (self.new ≡ self.old) }
        ensures lost_err { OnErr result (lost.new.items ≡ lost.old.items) }
    {
        if let Some(place) = self.place(from, to) {
            move_all(&mut self.sets[place], lost)?;
        }
        Ok(())
    }
}

/// A set with one more number.
fn insert_into(set: &mut BTreeSet<u64>, number: u64) -> Result<(), OutOfMemory>
    ensures { OnOk result ((n : ℕ) → contains nat_cmp set.new n ≡ ((number == n) || contains nat_cmp set.old n)) }
{
    set.insert(number)?;
    Ok(())
}

/// A set without a number.
fn remove_from(set: &mut BTreeSet<u64>, number: u64)
    ensures { (n : ℕ) → contains nat_cmp set.new n ≡ (not (number == n) && contains nat_cmp set.old n) }
{
    set.remove(&number);
}

/// The least number of a set.
fn first_of(set: &BTreeSet<u64>) -> Option<u64>
    ensures { IsLeast (contains nat_cmp set.now) result }
{
    set.first().copied()
}

/// Moves the numbers of a set behind some.
fn move_all(set: &mut BTreeSet<u64>, behind: &mut Vec<u64>) -> Result<(), OutOfMemory>
    ensures moved { OnOk result (behind.new.items ≡ behind.old.items ++ set.old.keys) }
    ensures ordered { IsStrictlySortedBy nat_cmp set.old.keys }
    ensures emptied { OnOk result (set.new.keys ≡ []) }
    ensures err { OnErr result (set.new ≡ set.old) }
    ensures behind_err { OnErr result (behind.new.items ≡ behind.old.items) }
{
    let count = set.len();
    behind.reserve(count)?;
    while let Some(number) = set.pop_first() {
        behind.push_reserved(number);
    }
    Ok(())
}
