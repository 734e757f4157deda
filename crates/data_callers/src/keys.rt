//! Keys, sets of nodes and ids.
ghost use Rattle.std.specs.Prelude.{◌≡◌, ◌<◌, ◌≤◌, ◌↔◌, ◌++◌, length, codes, decimal, IfOk, IsTrue, IsFalse};
ghost use Rattle.std.specs.String.{string_bytes};

use memory::OutOfMemory;
use region_map::{Id, Key, NodeId, NodeSet, majority};
use std::alloc::Global;

/// A key has 1 to 64 bytes.
pub fn are_key(bytes: Vec<u8>) -> bool
    ensures { IsTrue result ↔ ((0 < length bytes.items) × (length bytes.items ≤ 64)) }
{
    Key::new(bytes).is_ok()
}

/// A set of one node has that node alone.
pub fn is_alone(node: NodeId, other: NodeId) -> bool
    requires { node.0 < 64 }
    ensures { IsTrue result ↔ (other.0 ≡ node.0) }
{
    NodeSet::empty().with(node).has(other)
}

/// One of two is no majority.
pub fn is_half_enough(first: NodeId, second: NodeId) -> bool
    requires order { first.0 < second.0 }
    requires number { second.0 < 64 }
    ensures { IsFalse result }
{
    let one = NodeSet::empty().with(first);
    majority(&one, &one.with(second))
}

/// Two of three are a majority.
pub fn are_two_enough(first: NodeId, second: NodeId, third: NodeId) -> bool
    requires order { (first.0 < second.0) × (second.0 < third.0) }
    requires number { third.0 < 64 }
    ensures { IsTrue result }
{
    let two = NodeSet::empty().with(first).with(second);
    majority(&two, &two.with(third))
}

/// An id is printed with its three numbers.
pub fn text(alloc: Global, id: Id) -> Result<String, OutOfMemory>
    ensures { IfOk result (λ s. string_bytes s ≡ decimal id.node.0 ++ codes "." ++ decimal id.life ++ codes "." ++ decimal id.counter) }
{
    Ok(format!(in alloc; "{id}")?)
}
