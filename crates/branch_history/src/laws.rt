//! What holds of all paths, at a pair of a hash and a byte list.
ghost use Rattle.std.specs.Prelude.{◌≡◌, ◌↔◌, ℕ, ◌<◌, ◌≤◌, ◌⊎◌, true, false, ◌&&◌, nat_le, List, ◌++◌, Some, None, if◌then◌else◌};
ghost use Rattle.region_map.specs.declared.id.Id.{Id};
ghost use Rattle.region_map.specs.Regions.{in_region};
ghost use Rattle.region_map.specs.Equal.{same_id};
ghost use Rattle.branch_history.specs.declared.version.Version.{Version};
ghost use Rattle.branch_history.specs.declared.history.BranchBirth.{BranchBirth};
ghost use Rattle.branch_history.specs.Paths.{Branches, is_branch, is_zero, origin_at, is_on, ancestor, whole, zero};
ghost use Rattle.branch_history.specs.Histories.{birth_of, knows_branch, IsHistory, IsInTime};

/// Two ids are the same where their parts are.
pub fn ids_are_their_parts()
    ensures { (a b : Id) → (same_id a b ≡ true) ↔ (a ≡ b) }
{}

/// The path of a version is told by the birth of its branch, wherever that stands in the history: the zero
/// version alone where there is no branch, where it is not known, and where it does not have the pair. Else the
/// branch's own points from the initial timestamp up to the version, and the path of where it starts from.
pub fn paths_follow_births()
    ensures none { (bs : Branches) (h : ℕ) (k : List ℕ) (v x : Version) → v.branch ≡ None → is_on bs h k v x ≡ is_zero x }
    ensures unknown { (bs : Branches) (h : ℕ) (k : List ℕ) (v x : Version) → knows_branch bs v.branch ≡ false → is_on bs h k v x ≡ is_zero x }
    ensures outside { (bs : Branches) (h : ℕ) (k : List ℕ) (id : Id) (birth : BranchBirth) (v x : Version) → birth_of bs id ≡ Some birth → v.branch ≡ Some id
        → in_region birth.region h k ≡ false → is_on bs h k v x ≡ is_zero x }
    ensures inside { (bs : Branches) (h : ℕ) (k : List ℕ) (id : Id) (birth : BranchBirth) (v x : Version) → IsHistory bs → birth_of bs id ≡ Some birth → v.branch ≡ Some id
        → in_region birth.region h k ≡ true → is_on bs h k v x
        ≡ (if is_branch x id && (nat_le birth.initial x.timestamp && nat_le x.timestamp v.timestamp) then true else is_on bs h k (origin_at birth h k) x) }
{}

/// The points of a path are ordered: what is on the path of a point of a path is on the path itself, of two
/// points of one path one is on the path of the other, and two points on one another's paths are the same. Two
/// points of one branch are ordered by their timestamps.
pub fn paths_are_ordered()
    ensures zero { (bs : Branches) (h : ℕ) (k : List ℕ) (v : Version) → is_on bs h k v zero ≡ true }
    ensures itself { (bs : Branches) (h : ℕ) (k : List ℕ) (v x : Version) → IsHistory bs → is_on bs h k v x ≡ true → is_on bs h k x x ≡ true }
    ensures transitive { (bs : Branches) (h : ℕ) (k : List ℕ) (v x y : Version) → IsHistory bs
        → is_on bs h k v x ≡ true → is_on bs h k x y ≡ true → is_on bs h k v y ≡ true }
    ensures linear { (bs : Branches) (h : ℕ) (k : List ℕ) (v x y : Version) → IsHistory bs
        → is_on bs h k v x ≡ true → is_on bs h k v y ≡ true → (is_on bs h k x y ≡ true) ⊎ (is_on bs h k y x ≡ true) }
    ensures antisymmetric { (bs : Branches) (h : ℕ) (k : List ℕ) (x y : Version) → IsHistory bs
        → is_on bs h k x y ≡ true → is_on bs h k y x ≡ true → x ≡ y }
    ensures timestamps { (bs : Branches) (h : ℕ) (k : List ℕ) (v x y : Version) → IsHistory bs
        → is_on bs h k v x ≡ true → is_on bs h k v y ≡ true → x.branch ≡ y.branch → (is_on bs h k y x ≡ true) ↔ (x.timestamp ≤ y.timestamp) }
{}

/// Where each branch starts from a point of a path that is no later than its initial timestamp, timestamps never
/// fall along a path. Behind the initial timestamp of a branch they rise with each point.
pub fn timestamps_rise()
    ensures never_fall { (bs : Branches) (h : ℕ) (k : List ℕ) (v x y : Version) → IsHistory bs → IsInTime bs h k
        → is_on bs h k v x ≡ true → is_on bs h k x y ≡ true → y.timestamp ≤ x.timestamp }
    ensures rise { (bs : Branches) (h : ℕ) (k : List ℕ) (id : Id) (birth : BranchBirth) (x y : Version) → IsHistory bs → IsInTime bs h k → birth_of bs id ≡ Some birth
        → x.branch ≡ Some id → birth.initial < x.timestamp → is_on bs h k x y ≡ true → (y ≡ x) ⊎ (y.timestamp < x.timestamp) }
{}

/// A later version of a branch has all points of an earlier one on its path.
pub fn paths_grow()
    ensures { (bs : Branches) (h : ℕ) (k : List ℕ) (v w x : Version) → v.branch ≡ w.branch → v.timestamp ≤ w.timestamp
        → is_on bs h k v x ≡ true → is_on bs h k w x ≡ true }
{}

/// A path depends only on the births on it: branches that are added change no path and no common ancestor of
/// known branches, and take no point from any path.
pub fn paths_stay()
    ensures path { (added bs : Branches) (h : ℕ) (k : List ℕ) (v x : Version) → IsHistory (added ++ bs)
        → knows_branch bs v.branch ≡ true → is_on (added ++ bs) h k v x ≡ is_on bs h k v x }
    ensures points { (added bs : Branches) (h : ℕ) (k : List ℕ) (v x : Version) → IsHistory (added ++ bs)
        → is_on bs h k v x ≡ true → is_on (added ++ bs) h k v x ≡ true }
    ensures ancestor { (added bs : Branches) (h : ℕ) (k : List ℕ) (v w : Version) → IsHistory (added ++ bs)
        → knows_branch bs v.branch ≡ true → knows_branch bs w.branch ≡ true → ancestor (added ++ bs) h k v w ≡ ancestor bs h k v w }
{}

/// The common ancestor is the last point on both paths: it is on both, and each point on both is on its path.
/// It is the only such point, so the order of the two versions does not matter, and to take it again with either
/// version changes nothing. With a point of its own path a version has that point.
pub fn ancestors_are_last()
    ensures first { (bs : Branches) (h : ℕ) (k : List ℕ) (v w : Version) → IsHistory bs → is_on bs h k v (ancestor bs h k v w) ≡ true }
    ensures second { (bs : Branches) (h : ℕ) (k : List ℕ) (v w : Version) → IsHistory bs → is_on bs h k w (ancestor bs h k v w) ≡ true }
    ensures last { (bs : Branches) (h : ℕ) (k : List ℕ) (v w x : Version) → IsHistory bs
        → is_on bs h k v x ≡ true → is_on bs h k w x ≡ true → is_on bs h k (ancestor bs h k v w) x ≡ true }
    ensures only { (bs : Branches) (h : ℕ) (k : List ℕ) (v w a : Version) → IsHistory bs → is_on bs h k v a ≡ true → is_on bs h k w a ≡ true
        → ((x : Version) → is_on bs h k v x ≡ true → is_on bs h k w x ≡ true → is_on bs h k a x ≡ true) → a ≡ ancestor bs h k v w }
    ensures symmetric { (bs : Branches) (h : ℕ) (k : List ℕ) (v w : Version) → IsHistory bs → ancestor bs h k v w ≡ ancestor bs h k w v }
    ensures point { (bs : Branches) (h : ℕ) (k : List ℕ) (v x : Version) → IsHistory bs → is_on bs h k v x ≡ true → ancestor bs h k v x ≡ x }
    ensures once { (bs : Branches) (h : ℕ) (k : List ℕ) (v w : Version) → IsHistory bs
        → ancestor bs h k (ancestor bs h k v w) w ≡ ancestor bs h k v w }
{}

/// A version that is projected on a branch is its common ancestor with the whole of that branch: with its
/// version at the greatest timestamp, on whose path is all that is on the path of any version of the branch.
pub fn a_whole_branch_has_its_versions()
    ensures { (bs : Branches) (h : ℕ) (k : List ℕ) (id : Id) (t : ℕ) (x : Version) → t < 18446744073709551616
        → is_on bs h k (record { branch = Some id; timestamp = t }) x ≡ true → is_on bs h k (whole id) x ≡ true }
{}

/// The projection of a version on a branch is its last point that is on the path of any version of the branch. To
/// project again changes nothing, and the projection of a point of a path is on the path of the projection.
pub fn projections_are_last()
    ensures version { (bs : Branches) (h : ℕ) (k : List ℕ) (v : Version) (id : Id) → IsHistory bs → is_on bs h k v (ancestor bs h k v (whole id)) ≡ true }
    ensures branch { (bs : Branches) (h : ℕ) (k : List ℕ) (v : Version) (id : Id) → IsHistory bs → is_on bs h k (whole id) (ancestor bs h k v (whole id)) ≡ true }
    ensures last { (bs : Branches) (h : ℕ) (k : List ℕ) (v x : Version) (id : Id) (t : ℕ) → IsHistory bs → t < 18446744073709551616
        → is_on bs h k v x ≡ true → is_on bs h k (record { branch = Some id; timestamp = t }) x ≡ true → is_on bs h k (ancestor bs h k v (whole id)) x ≡ true }
    ensures once { (bs : Branches) (h : ℕ) (k : List ℕ) (v : Version) (id : Id) → IsHistory bs
        → ancestor bs h k (ancestor bs h k v (whole id)) (whole id) ≡ ancestor bs h k v (whole id) }
    ensures ordered { (bs : Branches) (h : ℕ) (k : List ℕ) (v w : Version) (id : Id) → IsHistory bs → is_on bs h k v w ≡ true
        → is_on bs h k (ancestor bs h k v (whole id)) (ancestor bs h k w (whole id)) ≡ true }
{}
