//! Two versions walked back to their last common point, one branch after the other.
ghost use Rattle.std.specs.Prelude.{◌≡◌, if◌then◌else◌};
ghost use Rattle.std.specs.Option.{option_copied};
ghost use Rattle.branch_history.specs.Paths.{or_zero};
ghost use Rattle.branch_history.specs.Walks.{stands_on, stepped, met, finished};

use crate::Version;
use region_map::{Combine, Id, MapValue, OutOfMemory};
use std::alloc::Global;

/// How far two versions were walked back.
#[derive(Clone, Copy, Debug, PartialEq, Eq)]
pub enum Walk {
    /// This is the last common point.
    At(Version),
    /// The last common point of these two lies on older branches.
    Going(Version, Version),
}

impl MapValue for Walk {
    ghost use Rattle.branch_history.specs.Equal.{same_walk, walk_decides};

    ghost same = { same_walk };

    ghost decides = { walk_decides };

    fn same(&self, other: &Walk) -> bool {
        self == other
    }

    fn copy(&self, _alloc: Global) -> Result<Walk, OutOfMemory> {
        Ok(*self)
    }
}

impl Walk {
    /// The walk after a branch with this initial timestamp, whose origin is given where it has the pair.
    fn step(&self, id: &Id, initial: u64, origin: Option<&Option<Version>>) -> Walk
        ensures { result ≡ stepped id.now initial self.now (option_copied origin.entry) }
    {
        match self {
            Walk::At(point) => Walk::At(*point),
            Walk::Going(v, w) => {
                let first = v.is_of(id);
                let second = w.is_of(id);
                if first || second {
                    meet(id, initial, v, w, first, second, origin)
                } else {
                    Walk::Going(*v, *w)
                }
            }
        }
    }

    /// Whether one of the two versions is of this branch.
    pub fn stands_on(&self, id: &Id) -> bool
        ensures { result ≡ stands_on self.now id.now }
    {
        match self {
            Walk::At(_) => false,
            Walk::Going(v, w) => v.is_of(id) || w.is_of(id),
        }
    }

    /// The last common point, behind all branches.
    fn finish(&self) -> Version
        ensures { result ≡ finished self.now }
    {
        match self {
            Walk::At(point) => *point,
            Walk::Going(_, _) => Version::zero(),
        }
    }
}

/// The walk after a branch that the first version is on, or the second, or both.
fn meet(
    id: &Id,
    initial: u64,
    v: &Version,
    w: &Version,
    first: bool,
    second: bool,
    origin: Option<&Option<Version>>,
) -> Walk
    ensures { result ≡ met id.now initial v.now w.now first second (option_copied origin.entry) }
{
    match origin {
        None => Walk::At(Version::zero()),
        Some(origin) => {
            let timestamp = v.timestamp.min(w.timestamp);
            if first && second && initial <= timestamp {
                Walk::At(Version {
                    branch: Some(*id),
                    timestamp,
                })
            } else {
                let start = or_zero(origin);
                Walk::Going(pick(first, &start, v), pick(second, &start, w))
            }
        }
    }
}

/// One of two versions.
fn pick(first: bool, a: &Version, b: &Version) -> Version
    ensures { result ≡ (if first then a.now else b.now) }
{
    if first { *a } else { *b }
}

/// The version, or the zero version where there is none.
pub fn or_zero(version: &Option<Version>) -> Version
    ensures { result ≡ or_zero version.now }
{
    match version {
        None => Version::zero(),
        Some(version) => *version,
    }
}

/// The walk of two versions begins.
pub struct Start;

impl Combine<Version, Version, Walk> for Start {
    ghost use Rattle.branch_history.specs.Walks.{started};

    ghost combined = { λ _ a b. started a b };

    fn combine(
        &self,
        _alloc: Global,
        a: Option<&Version>,
        b: Option<&Version>,
    ) -> Result<Option<Walk>, OutOfMemory> {
        match a {
            None => Ok(None),
            Some(v) => match b {
                None => Ok(None),
                Some(w) => Ok(Some(Walk::Going(*v, *w))),
            },
        }
    }
}

/// The walk of a version and the whole of a branch begins.
pub struct Aim;

impl Combine<Version, Id, Walk> for Aim {
    ghost use Rattle.branch_history.specs.Walks.{aimed};

    ghost combined = { λ _ a b. aimed a b };

    fn combine(
        &self,
        _alloc: Global,
        a: Option<&Version>,
        b: Option<&Id>,
    ) -> Result<Option<Walk>, OutOfMemory> {
        match a {
            None => Ok(None),
            Some(v) => match b {
                None => Ok(None),
                Some(id) => Ok(Some(Walk::Going(
                    *v,
                    Version {
                        branch: Some(*id),
                        timestamp: u64::MAX,
                    },
                ))),
            },
        }
    }
}

/// A branch's origin, wherever the branch has the pair.
pub struct Within;

impl Combine<bool, Version, Option<Version>> for Within {
    ghost use Rattle.branch_history.specs.Walks.{within};

    ghost combined = { λ _ a b. within a b };

    fn combine(
        &self,
        _alloc: Global,
        a: Option<&bool>,
        b: Option<&Version>,
    ) -> Result<Option<Option<Version>>, OutOfMemory> {
        match a {
            None => Ok(None),
            Some(_) => match b {
                None => Ok(Some(None)),
                Some(v) => Ok(Some(Some(*v))),
            },
        }
    }
}

/// The walk goes over a branch.
#[derive(Clone, Copy)]
pub struct Step {
    pub id: Id,
    pub initial: u64,
}

impl Combine<Walk, Option<Version>, Walk> for Step {
    ghost use Rattle.branch_history.specs.Walks.{on};

    ghost combined = { λ s a b. on s.id s.initial a b };

    fn combine(
        &self,
        _alloc: Global,
        a: Option<&Walk>,
        b: Option<&Option<Version>>,
    ) -> Result<Option<Walk>, OutOfMemory> {
        match a {
            None => Ok(None),
            Some(walk) => Ok(Some(walk.step(&self.id, self.initial, b))),
        }
    }
}

/// The walk ends.
pub struct End;

impl Combine<Walk, Walk, Version> for End {
    ghost use Rattle.branch_history.specs.Walks.{ended};

    ghost combined = { λ _ a b. ended a b };

    fn combine(
        &self,
        _alloc: Global,
        a: Option<&Walk>,
        _b: Option<&Walk>,
    ) -> Result<Option<Version>, OutOfMemory> {
        match a {
            None => Ok(None),
            Some(walk) => Ok(Some(walk.finish())),
        }
    }
}
