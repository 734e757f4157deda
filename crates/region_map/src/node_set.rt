//! A set of nodes whose numbers are below 64.
ghost use Rattle.std.specs.Prelude.{◌≡◌, ◌<◌, ◌≤◌, ℕ, List, [], length, map, IfOk, IsTrue};
ghost use Rattle.region_map.specs.Nodes.{has, with_member, without, first, node_id, is_majority};

use crate::NodeId;
use std::alloc::{AllocError, Global};
use std::marker::Model;

/// A set of nodes, which contracts see as the list of their numbers in rising order.
#[derive(Clone, Copy, Debug, PartialEq, Eq)]
pub struct NodeSet {
    bits: u64,
}

impl Model for NodeSet {
    ghost use Rattle.std.specs.Prelude.{List, ℕ, ◌^◌, ◌<◌};
    ghost use Rattle.region_map.specs.Bits.{members, bits_of, bits_of-members};

    ghost Value = { List ℕ };

    ghost view = { λ a. members a.bits };

    ghost invariant = { λ a. a.bits < 2 ^ 64 };

    ghost inverse = { λ s. record { bits = bits_of s } };

    ghost use Rattle.std.proofs.Common.{ap};

    ghost inverse_ok = { λ a h. ap (λ b. record { bits = b }) (bits_of-members a.bits h) };
}

impl NodeSet {
    pub fn empty() -> NodeSet
        ensures { result ≡ [] }
    {
        NodeSet { bits: 0 }
    }

    /// The set with this node in it.
    pub fn with(self, n: NodeId) -> NodeSet
        requires { n.0 < 64 }
        ensures { result ≡ with_member self n.0 }
    {
        NodeSet {
            bits: self.bits | 1 << n.0,
        }
    }

    /// The members that are not in the other set.
    pub fn without(self, other: &NodeSet) -> NodeSet
        ensures { result ≡ without self other.now }
    {
        NodeSet {
            bits: self.bits & !other.bits,
        }
    }

    pub fn has(&self, n: NodeId) -> bool
        ensures { result ≡ has self.now n.0 }
    {
        n.0 < 64 && self.bits & (1 << n.0) != 0
    }

    pub fn len(&self) -> u8
        ensures len { result ≡ length self.now }
        ensures small { result ≤ 64 }
    {
        self.bits.count_ones() as u8
    }

    /// The member with the least number.
    pub fn first(&self) -> Option<NodeId>
        ensures { result ≡ first self.now }
    {
        if self.bits == 0 {
            None
        } else {
            Some(NodeId(self.bits.trailing_zeros() as u8))
        }
    }

    /// The members in rising order, one after another.
    pub fn iter(&self) -> Members
        ensures items { result ≡ map node_id self.now }
        ensures small { length result ≤ 64 }
    {
        Members { bits: self.bits }
    }

    /// The members in rising order.
    pub fn members(&self, alloc: Global) -> Result<Vec<NodeId>, AllocError>
        ensures { IfOk result (λ v. v.items ≡ map node_id self.now) }
    {
        let bits = self.bits;
        let mut found = Vec::new(alloc);
        for n in 0..64u8 {
            if bits & (1 << n) != 0 {
                found.push(NodeId(n))?;
            }
        }
        Ok(found)
    }
}

/// The members of a set that are left, in rising order.
#[derive(Drop)]
pub struct Members {
    bits: u64,
}

impl Model for Members {
    ghost use Rattle.std.specs.Prelude.{List, ℕ, ◌^◌, ◌<◌, map};
    ghost use Rattle.region_map.specs.declared.id.NodeId.{NodeId};
    ghost use Rattle.region_map.specs.Bits.{members};
    ghost use Rattle.region_map.specs.Nodes.{node_id};

    ghost Value = { List NodeId };

    ghost view = { λ a. map node_id (members a.bits) };

    ghost invariant = { λ a. a.bits < 2 ^ 64 };
}

impl Iterator for Members {
    type Item = NodeId;

    ghost use Rattle.std.specs.Iterator.{YieldsFirst, item_count};

    ghost next_gives = { YieldsFirst (λ s. s) };

    ghost remaining = { item_count (λ s. s) };

    fn next(&mut self) -> Option<NodeId> {
        if self.bits == 0 {
            return None;
        }
        let n = self.bits.trailing_zeros();
        self.bits &= !(1 << n);
        Some(NodeId(n as u8))
    }
}

/// Whether twice the members common to both exceed the members of `of`.
pub fn majority(set: &NodeSet, of: &NodeSet) -> bool
    ensures { result ≡ is_majority set.now of.now }
{
    2 * (set.bits & of.bits).count_ones() > of.bits.count_ones()
}

/// Two majorities of one set share a member.
pub fn majorities_meet()
    ensures { (a b of : List ℕ) → IsTrue (is_majority a of) → IsTrue (is_majority b of)
        → (n : ℕ) × IsTrue (has of n) × IsTrue (has a n) × IsTrue (has b n) }
{}
