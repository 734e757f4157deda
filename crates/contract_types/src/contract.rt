//! Contracts.
ghost use Rattle.std.specs.Prelude.{◌≡◌, IfOk};

use crate::Placed;
use memory::OutOfMemory;
use region_map::{Id, NodeId, NodeSet, Region};
use std::alloc::Global;

/// Who holds a region as its primary, and to whom it hands it over, if to anyone.
#[derive(Clone, Copy, Debug, PartialEq, Eq)]
pub struct Holder {
    pub server: NodeId,
    pub hand_over: Option<NodeId>,
}

/// One contract of the table.
#[derive(Drop)]
pub struct Contract {
    pub id: Id,
    pub region: Region,
    /// Who keeps the region's rows.
    pub replicas: NodeSet,
    /// Which of them are counted for a majority.
    pub voters: NodeSet,
    /// The voters that are to come: while they are set, a majority of these is wanted too.
    pub temp_voters: Option<NodeSet>,
    pub primary: Option<Holder>,
    /// The log index that made the contract. An ack counts from this view on.
    pub since: u64,
    /// The log index since which this primary holds this region.
    pub tenure: u64,
}

impl Placed for Contract {
    ghost place = { λ c. c.region };

    fn region(&self) -> &Region {
        &self.region
    }
}

impl Contract {
    /// The same contract again.
    pub fn copy(&self, alloc: Global) -> Result<Contract, OutOfMemory>
        ensures { IfOk result (λ contract. contract ≡ self.now) }
    {
        Ok(Contract {
            id: self.id,
            region: self.region.copy(alloc)?,
            replicas: self.replicas,
            voters: self.voters,
            temp_voters: self.temp_voters,
            primary: self.primary,
            since: self.since,
            tenure: self.tenure,
        })
    }
}
