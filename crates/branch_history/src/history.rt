//! The branches that are known, and what their births say of paths.
ghost use Rattle.std.specs.Prelude.{◌≡◌, ◌↔◌, ℕ, ◌&&◌, not, nat_le, List, [], ◌∷◌, IsTrue, IfOk, OnOk, OnErr, IsErrOf};
ghost use Rattle.std.specs.List.{list_any};
ghost use Rattle.std.specs.Option.{option_copied};
ghost use Rattle.region_map.specs.Keys.{hash_of};
ghost use Rattle.region_map.specs.Maps.{value_at};
ghost use Rattle.branch_history.specs.Paths.{is_on, is_branch, or_zero, ancestor, whole, both_at};
ghost use Rattle.branch_history.specs.AncestorMaps.{ancestor_map, projected_map};
ghost use Rattle.branch_history.specs.Walks.{on, origin_in, stands_on, walked_at};
ghost use Rattle.branch_history.specs.Histories.{birth_of, knows, knows_branch, knows_origins, HasHashes, hashes_of, IsHistory};

use crate::Version;
use crate::version::is_same_id;
use crate::walk::{Aim, End, Start, Step, Walk, Within};
use region_map::{Id, Key, OutOfMemory, Region, RegionMap, hash_of};
use std::alloc::{AllocFailed, Global};
use std::marker::Model;
use thiserror::Error;

/// How a branch began: the keys that it has, its initial timestamp, the versions that it goes on from, and
/// the tenure of the primary that made it.
#[derive(Drop)]
pub struct BranchBirth {
    pub region: Region,
    pub initial: u64,
    pub origin: RegionMap<Version>,
    pub tenure: u64,
}

/// Why a branch was not added.
#[derive(Clone, Copy, Debug, PartialEq, Eq, Error)]
pub enum AddRefused {
    #[error("the branch is known already")]
    IdKnown,
    #[error("the branch goes on from a branch that is not known")]
    OriginUnknown,
    #[error("out of memory")]
    OutOfMemory,
}

impl<T: Drop> From<AllocFailed<T>> for AddRefused {
    ghost use Rattle.std.specs.Prelude.{◌≡◌};
    ghost use Rattle.branch_history.specs.declared.history.AddRefused.TheVariants.{OutOfMemory};

    ghost from_gives = { λ _ e. e ≡ OutOfMemory };

    fn from(_error: AllocFailed<T>) -> AddRefused {
        AddRefused::OutOfMemory
    }
}

/// The known branches. Contracts see them as a list, the newest first.
#[derive(Drop)]
pub struct History {
    branches: Vec<(Id, BranchBirth)>,
}

impl Model for History {
    ghost use Rattle.std.specs.Prelude.{List};
    ghost use Rattle.region_map.specs.declared.id.Id.{Id};
    ghost use Rattle.branch_history.specs.declared.history.BranchBirth.{BranchBirth};

    ghost Value = { List (Id × BranchBirth) };

    ghost view = { λ a. a.branches.items };

    ghost use Rattle.branch_history.specs.Histories.{IsHistory};

    ghost invariant = { λ a. IsHistory a.branches.items };
}

impl History {
    /// The history without branches.
    pub fn new(alloc: Global) -> History
        ensures { result ≡ [] }
    {
        History {
            branches: Vec::new(alloc),
        }
    }

    /// No branch is there twice, and each starts from branches that were there before it.
    pub fn origins_come_first(&self)
        ensures { IsHistory self.now }
    {
        let _count = self.branches.len();
    }

    /// The birth of a branch.
    pub fn birth(&self, id: &Id) -> Option<&BranchBirth>
        ensures { option_copied result ≡ birth_of self.now id.now }
    {
        find(&self.branches, id)
    }

    /// Adds a branch.
    pub fn add(&mut self, id: Id, birth: BranchBirth) -> Result<(), AddRefused>
        requires { HasHashes self.old birth.origin.hashes }
        ensures id_known { IsErrOf result AddRefused.IdKnown ↔ IsTrue (knows self.old id) }
        ensures origin_unknown { IsErrOf result AddRefused.OriginUnknown
            ↔ IsTrue (not (knows self.old id) && not (knows_origins self.old birth.origin.pieces)) }
        ensures ok { OnOk result (self.new ≡ (id, birth) ∷ self.old) }
        ensures err { OnErr result (self.new ≡ self.old) }
    {
        if is_known(&self.branches, &id) {
            return Err(AddRefused::IdKnown);
        }
        if !are_known(&self.branches, &birth.origin) {
            return Err(AddRefused::OriginUnknown);
        }
        self.branches.insert(0, (id, birth))?;
        Ok(())
    }

    /// Whether a point lies on the path of a version at a key.
    pub fn path_has(&self, end: &Version, key: &Key, point: &Version) -> bool
        ensures { result ≡ is_on self.now (hash_of key.now (hashes_of self.now)) key.now end.now point.now }
    {
        match self.branches.first() {
            None => point.is_zero(),
            Some(branch) => {
                let hash = hash_of(key, branch.1.origin.hashes());
                is_on(&self.branches, hash, key, end, point)
            }
        }
    }

    /// The last point on both paths, at each pair that both maps have.
    pub fn common_ancestor(
        &self,
        alloc: Global,
        a: &RegionMap<Version>,
        b: &RegionMap<Version>,
    ) -> Result<RegionMap<Version>, OutOfMemory>
        requires hashes { a.now.hashes ≡ b.now.hashes }
        requires history { HasHashes self.now a.now.hashes }
        ensures hashes { IfOk result (λ m. m.hashes ≡ a.now.hashes) }
        ensures at { IfOk result (λ m. (h : ℕ) (k : List ℕ) → value_at m.pieces h k
            ≡ both_at (ancestor self.now h k) (value_at a.now.pieces h k) (value_at b.now.pieces h k)) }
        ensures made { IfOk result (λ m. m ≡ ancestor_map self.now a.now b.now) }
    {
        let _hashes = a.hashes();
        let walks = a.zip(alloc, b, &Start)?;
        let ends = walk_back(alloc, &self.branches, walks)?;
        let _count = ends.hashes();
        Ok(ends)
    }

    /// Each version's last point on the path of the whole of a branch, at each pair that both maps have.
    pub fn project(
        &self,
        alloc: Global,
        versions: &RegionMap<Version>,
        branches: &RegionMap<Id>,
    ) -> Result<RegionMap<Version>, OutOfMemory>
        requires hashes { versions.now.hashes ≡ branches.now.hashes }
        requires history { HasHashes self.now versions.now.hashes }
        ensures hashes { IfOk result (λ m. m.hashes ≡ versions.now.hashes) }
        ensures at { IfOk result (λ m. (h : ℕ) (k : List ℕ) → value_at m.pieces h k
            ≡ both_at (λ v id. ancestor self.now h k v (whole id)) (value_at versions.now.pieces h k) (value_at branches.now.pieces h k)) }
        ensures made { IfOk result (λ m. m ≡ projected_map self.now versions.now branches.now) }
    {
        let _hashes = versions.hashes();
        let walks = versions.zip(alloc, branches, &Aim)?;
        let ends = walk_back(alloc, &self.branches, walks)?;
        let _count = ends.hashes();
        Ok(ends)
    }
}

/// The walks after all branches, the newest first.
fn walk_back(
    alloc: Global,
    branches: &[(Id, BranchBirth)],
    walks: RegionMap<Walk>,
) -> Result<RegionMap<Version>, OutOfMemory>
    requires { HasHashes branches.now walks.hashes }
    ensures hashes { IfOk result (λ m. m.hashes ≡ walks.hashes) }
    ensures at { IfOk result (λ m. (h : ℕ) (k : List ℕ) → value_at m.pieces h k ≡ walked_at branches.now h k (value_at walks.pieces h k)) }
{
    let mut walks = walks;
    for branch in branches {
        walks = step_back(alloc, branch, walks)?;
    }
    let ends = walks.zip(alloc, &walks, &End)?;
    Ok(ends)
}

/// The walks after a branch.
fn step_back(
    alloc: Global,
    branch: &(Id, BranchBirth),
    walks: RegionMap<Walk>,
) -> Result<RegionMap<Walk>, OutOfMemory>
    requires { branch.now.1.origin.hashes ≡ walks.hashes }
    ensures hashes { IfOk result (λ m. m.hashes ≡ walks.hashes) }
    ensures at { IfOk result (λ m. (h : ℕ) (k : List ℕ) → value_at m.pieces h k
        ≡ on branch.now.0 branch.now.1.initial (value_at walks.pieces h k) (origin_in branch.now.1 h k)) }
{
    let hashes = walks.hashes();
    if !has_walks_on(walks.pieces(), &branch.0) {
        return Ok(walks);
    }
    let region = branch.1.region.copy(alloc)?;
    let here = RegionMap::constant(alloc, region, hashes, true)?;
    let origins = here.zip(alloc, &branch.1.origin, &Within)?;
    let step = Step {
        id: branch.0,
        initial: branch.1.initial,
    };
    let new = walks.zip(alloc, &origins, &step)?;
    Ok(new)
}

/// Whether a walk stands on a branch anywhere.
fn has_walks_on(pieces: &[(Region, Walk)], id: &Id) -> bool
    ensures { result ≡ list_any (λ p. stands_on p.1 id.now) pieces.now }
{
    for piece in pieces {
        if piece.1.stands_on(id) {
            return true;
        }
    }
    false
}

/// Whether a point lies on the path of a version at a key that has this hash.
fn is_on(
    branches: &[(Id, BranchBirth)],
    hash: u8,
    key: &Key,
    end: &Version,
    point: &Version,
) -> bool
    ensures { result ≡ is_on branches.now hash key.now end.now point.now }
{
    let mut last = *end;
    for branch in branches {
        if last.is_of(&branch.0) {
            if !branch.1.region.contains_at(hash, key) {
                return point.is_zero();
            }
            if is_own(branch, &last, point) {
                return true;
            }
            last = origin(&branch.1.origin, hash, key);
        }
    }
    point.is_zero()
}

/// The birth of a branch among these.
fn find<'a>(branches: &'a [(Id, BranchBirth)], id: &Id) -> Option<&'a BranchBirth>
    ensures { option_copied result ≡ birth_of branches.now id.now }
{
    for branch in branches {
        if is_same_id(&branch.0, id) {
            return Some(&branch.1);
        }
    }
    None
}

/// Whether a branch is among these.
fn is_known(branches: &[(Id, BranchBirth)], id: &Id) -> bool
    ensures { result ≡ knows branches.now id.now }
{
    for branch in branches {
        if is_same_id(&branch.0, id) {
            return true;
        }
    }
    false
}

/// Whether the branch of a version, if it has one, is among these.
fn is_branch_known(branches: &[(Id, BranchBirth)], version: &Version) -> bool
    ensures { result ≡ knows_branch branches.now version.now.branch }
{
    match &version.branch {
        None => true,
        Some(id) => is_known(branches, id),
    }
}

/// Whether all branches that these versions name are among these.
fn are_known(branches: &[(Id, BranchBirth)], versions: &RegionMap<Version>) -> bool
    ensures { result ≡ knows_origins branches.now versions.now.pieces }
{
    for piece in versions.pieces() {
        if !is_branch_known(branches, &piece.1) {
            return false;
        }
    }
    true
}

/// Whether a point is one of a branch's own, up to a version of it.
fn is_own(branch: &(Id, BranchBirth), last: &Version, point: &Version) -> bool
    ensures { result ≡ (is_branch point.now branch.now.0
        && (nat_le branch.now.1.initial point.now.timestamp && nat_le point.now.timestamp last.now.timestamp)) }
{
    point.is_of(&branch.0)
        && (branch.1.initial <= point.timestamp && point.timestamp <= last.timestamp)
}

/// The version at a key that has this hash, and the zero version where there is none.
fn origin(versions: &RegionMap<Version>, hash: u8, key: &Key) -> Version
    ensures { result ≡ or_zero (value_at versions.now.pieces hash key.now) }
{
    match versions.get_at(hash, key) {
        None => Version::zero(),
        Some(version) => *version,
    }
}
