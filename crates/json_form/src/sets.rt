//! Sets of nodes.
ghost use Rattle.std.specs.Prelude.{◌≡◌, []};
ghost use Rattle.json_form.specs.Sets.{with_rising};

use crate::parts::{list_from_json, list_to_json};
use crate::{JsonForm, Present};
use memory::OutOfMemory;
use region_map::{NodeId, NodeSet};
use serde_json::Value;
use std::alloc::Global;

/// The set of these nodes, if they rise and are below 64.
fn set_of(nodes: &[NodeId]) -> Option<NodeSet>
    ensures { result ≡ with_rising 0 [] nodes.now }
{
    let mut set = NodeSet::empty();
    let mut least = 0u8;
    for node in nodes {
        if !(least <= node.0 && node.0 < 64) {
            return None;
        }
        set = set.with(*node);
        least = node.0 + 1;
    }
    Some(set)
}

impl JsonForm for NodeSet {
    ghost use Rattle.json_form.specs.Sets.{set_form, set_fits, set_exact};

    ghost form = { set_form };

    ghost fits = { set_fits };

    ghost exact = { set_exact };

    fn to_json(&self, alloc: Global) -> Result<Value, OutOfMemory> {
        let members = self.members(alloc)?;
        list_to_json(alloc, &members)
    }

    fn from_json(alloc: Global, json: &Value, hashes: u8) -> Result<Option<NodeSet>, OutOfMemory> {
        match list_from_json(alloc, json, hashes)? {
            None => Ok(None),
            Some(nodes) => Ok(set_of(&nodes)),
        }
    }
}

impl Present for NodeSet {
    ghost use Rattle.std.specs.Prelude.{refl};

    ghost present = { λ h. refl };
}
