//! The change that the logs of the tests hold.
use memory::OutOfMemory;
use raft_vote::RaftEntry;
use std::alloc::Global;

/// A change that sets a number.
#[derive(Clone, Copy, PartialEq, Eq)]
pub struct Set(pub u64);

impl RaftEntry for Set {
    ghost use Rattle.log_tests.specs.declared.change.Set.{Set};

    ghost noop_entry = { record { 0 = 0 } };

    fn noop() -> Self {
        Set(0)
    }

    fn copy(&self, _alloc: Global) -> Result<Self, OutOfMemory> {
        Ok(*self)
    }
}
