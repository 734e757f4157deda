//! Versions.
ghost use Rattle.std.specs.Prelude.{◌≡◌};
ghost use Rattle.region_map.specs.Equal.{same_id};
ghost use Rattle.branch_history.specs.Paths.{is_branch, is_zero, zero};

use region_map::{Id, MapValue, OutOfMemory};
use std::alloc::Global;

/// A point of a branch: how far a part of the data came.
///
/// The zero version has no branch and timestamp 0. It comes before every other.
#[derive(Clone, Copy, Debug, PartialEq, Eq)]
pub struct Version {
    pub branch: Option<Id>,
    pub timestamp: u64,
}

impl Version {
    /// The zero version.
    pub fn zero() -> Version
        ensures { result ≡ zero }
    {
        Version {
            branch: None,
            timestamp: 0,
        }
    }

    /// Whether this is the zero version.
    pub fn is_zero(&self) -> bool
        ensures { result ≡ is_zero self.now }
    {
        match self.branch {
            None => self.timestamp == 0,
            Some(_) => false,
        }
    }

    /// Whether the version is one of this branch.
    pub fn is_of(&self, id: &Id) -> bool
        ensures { result ≡ is_branch self.now id.now }
    {
        match &self.branch {
            None => false,
            Some(branch) => is_same_id(branch, id),
        }
    }
}

/// Whether two ids are the same.
pub fn is_same_id(a: &Id, b: &Id) -> bool
    ensures { result ≡ same_id a.now b.now }
{
    a.node.0 == b.node.0 && a.life == b.life && a.counter == b.counter
}

impl MapValue for Version {
    ghost use Rattle.branch_history.specs.Equal.{same_version, version_decides};

    ghost same = { same_version };

    ghost decides = { version_decides };

    fn same(&self, other: &Version) -> bool {
        self == other
    }

    fn copy(&self, _alloc: Global) -> Result<Version, OutOfMemory> {
        Ok(*self)
    }
}
