//! An event that changes nothing.
ghost use Rattle.std.specs.Prelude.{◌≡◌, ◌<◌, true, OnOk};
ghost use Rattle.raft_laws.specs.Net.{world_of};

use raft_laws::{RaftEvent, RaftPushRefused, RaftWorld};
use raft_vote::RaftEntry;
use region_map::NodeId;
use std::alloc::Global;

/// A restart leaves a node that is up, and all others, as they are.
pub fn a_node_that_is_up_does_not_restart<E: RaftEntry>(
    world: &mut RaftWorld<E>,
    alloc: Global,
    node: NodeId,
) -> Result<(), RaftPushRefused>
    requires node { node.0 < world.old.nodes }
    requires up { (world_of world.old).up node.0 ≡ true }
    ensures { OnOk result (world_of world.new ≡ world_of world.old) }
{
    world.push(alloc, node, RaftEvent::Restart)
}
