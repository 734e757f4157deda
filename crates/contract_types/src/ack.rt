//! What servers say of how far they are under a contract.
ghost use Rattle.std.specs.Prelude.{◌≡◌, IfOk};

use branch_history::Version;
use memory::OutOfMemory;
use region_map::{Id, NodeId, RegionMap};
use std::alloc::Global;

/// How far a server is under a contract.
#[derive(Drop)]
pub enum Ack {
    /// The primary wants this branch to be registered. It goes on from these versions of its own, and it knew
    /// these branches as the current ones of the contract's region.
    NeedBranch {
        branch: Id,
        based_on: RegionMap<Id>,
        origin: RegionMap<Version>,
    },
    /// The primary writes, and what it wrote under the contract is not yet known to be safe.
    InProgress,
    /// The primary writes, and a sync under the contract was decided.
    Ready,
    /// The contract has no primary. These are the server's versions of its region.
    NeedPrimary {
        versions: RegionMap<Version>,
    },
    /// The secondary does not have all of the region yet.
    Backfilling,
    /// The secondary has all of the region, and follows the primary's writes.
    Streaming,
}

impl Ack {
    /// The same ack again.
    pub fn copy(&self, alloc: Global) -> Result<Ack, OutOfMemory>
        ensures { IfOk result (λ ack. ack ≡ self.now) }
    {
        match self {
            Ack::NeedBranch {
                branch,
                based_on,
                origin,
            } => {
                let based_on = based_on.copy(alloc)?;
                let origin = origin.copy(alloc)?;
                Ok(Ack::NeedBranch {
                    branch: *branch,
                    based_on,
                    origin,
                })
            }
            Ack::InProgress => Ok(Ack::InProgress),
            Ack::Ready => Ok(Ack::Ready),
            Ack::NeedPrimary { versions } => {
                let versions = versions.copy(alloc)?;
                Ok(Ack::NeedPrimary { versions })
            }
            Ack::Backfilling => Ok(Ack::Backfilling),
            Ack::Streaming => Ok(Ack::Streaming),
        }
    }
}

/// An ack, and who said it.
#[derive(Drop)]
pub struct ServerAck {
    pub server: NodeId,
    pub ack: Ack,
}
