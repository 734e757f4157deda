//! A primary that waits for its branch.
ghost use Rattle.std.specs.Prelude.{◌≡◌, IfOk};
ghost use Rattle.primary_exec.specs.Execution.{needs_branch};

use contract_types::{Ack, Contract};
use memory::OutOfMemory;
use region_map::{Id, RegionMap};
use std::alloc::Global;
use store_api::Store;

/// What a primary keeps of a contract while it asks for a branch of its own to be registered.
#[derive(Drop)]
pub struct Asking {
    pub contract: Contract,
    pub branch: Id,
}

impl Asking {
    /// What it says meanwhile: its branch, the current branches that it knows of its region, and its own versions
    /// there.
    pub fn ack<T: Store>(
        &self,
        alloc: Global,
        current: &RegionMap<Id>,
        store: &T,
    ) -> Result<Ack, OutOfMemory>
        ensures { IfOk result (λ ack. ack ≡ needs_branch self.now current.now (T.versions store.now)) }
    {
        let based_on = current.mask(alloc, &self.contract.region)?;
        let origin = store.versions(alloc, &self.contract.region)?;
        Ok(Ack::NeedBranch {
            branch: self.branch,
            based_on,
            origin,
        })
    }
}
