//! Which message flows next among some nodes.
ghost use Rattle.std.specs.Prelude.{◌≡◌, ℕ, ◌<◌, ◌||◌, Bool};
ghost use Rattle.region_map.specs.Nodes.{node_id};
ghost use Rattle.world_steps.specs.Pairs.{IsLeast, flows_between, flows_from, flows_in};

use crate::parts::is_up;
use crate::waiting_sets::WaitingSets;
use node_core::Node;
use region_map::{NodeId, NodeSet};

/// The lesser of two numbers, where there are any.
fn lesser(a: Option<u64>, b: Option<u64>) -> Option<u64>
    ensures { (p q : ℕ → Bool) → IsLeast p a → IsLeast q b → IsLeast (λ n. p n || q n) result }
{
    match (a, b) {
        (Some(a), Some(b)) => Some(if a < b { a } else { b }),
        (Some(a), None) => Some(a),
        (None, b) => b,
    }
}

/// The least message that waits between two nodes, where it may flow.
fn first_between(
    waits: &WaitingSets,
    nodes: &[Option<Node>],
    only: &NodeSet,
    from: NodeId,
    to: NodeId,
) -> Option<u64>
    requires sender { from.0 < waits.now.nodes }
    requires receiver { to.0 < waits.now.nodes }
    ensures { IsLeast (flows_between nodes.now only.now waits.now from to) result }
{
    if only.has(from) && only.has(to) && is_up(nodes, to) {
        waits.first(from, to)
    } else {
        None
    }
}

/// The least message from a node that waits and may flow.
fn first_from(
    waits: &WaitingSets,
    nodes: &[Option<Node>],
    only: &NodeSet,
    from: NodeId,
) -> Option<u64>
    requires { from.0 < waits.now.nodes }
    ensures { IsLeast (flows_from nodes.now only.now waits.now waits.now.nodes from) result }
{
    let mut first = None;
    for to in 0..waits.nodes() {
        first = lesser(first_between(waits, nodes, only, from, NodeId(to)), first);
    }
    first
}

/// The least message that waits and may flow among some nodes.
pub fn first_in(waits: &WaitingSets, nodes: &[Option<Node>], only: &NodeSet) -> Option<u64>
    ensures { IsLeast (flows_in nodes.now only.now waits.now waits.now.nodes) result }
{
    let mut first = None;
    for from in 0..waits.nodes() {
        first = lesser(first_from(waits, nodes, only, NodeId(from)), first);
    }
    first
}
