//! A secondary that waits to join its primary.
ghost use Rattle.std.specs.Prelude.{◌≡◌, IfOk};

use contract_types::Contract;
use memory::OutOfMemory;
use region_map::{Id, NodeId, Region};
use std::alloc::Global;

/// What a secondary keeps of a contract until its primary lets it join a session.
#[derive(Drop)]
pub struct Waiting {
    pub primary: NodeId,
    pub region: Region,
    pub tenure: u64,
    /// Under this id it asks for a session.
    pub asked: Id,
}

impl Waiting {
    /// A secondary that begins to ask the primary of a contract under this id.
    pub fn begin(
        alloc: Global,
        contract: &Contract,
        primary: NodeId,
        asked: Id,
    ) -> Result<Waiting, OutOfMemory>
        ensures { IfOk result (λ waiting. waiting
            ≡ record { primary = primary; region = contract.now.region; tenure = contract.now.tenure; asked = asked }) }
    {
        Ok(Waiting {
            primary,
            region: contract.region.copy(alloc)?,
            tenure: contract.tenure,
            asked,
        })
    }
}
