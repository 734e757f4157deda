//! Histories of branches as what they are at one key, so that what holds of the paths of one key holds of theirs.
//!
//! Above: the laws of every run. Below: `branch_history`, `path_facts`.
#![tactic(auto)]

ghost use Rattle.std.specs.Prelude.{◌≡◌, ℕ, ◌<◌, ◌≤◌, true, List, ◌++◌};
ghost use Rattle.region_map.specs.declared.id.Id.{Id};
ghost use Rattle.region_map.specs.Equal.{same_id};
ghost use Rattle.branch_history.specs.declared.version.Version.{Version};
ghost use Rattle.branch_history.specs.Paths.{Branches, is_on};
ghost use Rattle.branch_history.specs.Histories.{knows, IsHistory, IsInTime};
ghost use Rattle.path_facts.specs.Paths.{TellsApart, IsTimed, on, known};
ghost use Rattle.path_facts.specs.Paths as key;
ghost use Rattle.key_births.specs.Births.{key_version, births_at, IsRising, GoOn};

/// Ids tell branches apart, and a path of a history at a pair is that of the pair's branches.
pub fn paths_of_births()
    ensures names { TellsApart same_id }
    ensures paths { (index : Id → ℕ) (bs : Branches) (h : ℕ) (k : List ℕ) (v x : Version) → IsHistory bs
        → is_on bs h k v x ≡ on same_id (births_at index bs h k) (key_version v) (key_version x) }
{}

/// The branches of a pair are a history too, where each goes on from a point of a path and was registered behind those before
/// it; and they are in time where those of the whole are. Those that are known up to an index are those of the history up to
/// it.
pub fn births_are_a_history()
    ensures history { (index : Id → ℕ) (bs : Branches) (h : ℕ) (k : List ℕ) → IsHistory bs → GoOn bs h k → IsRising index bs h k
        → key.IsHistory same_id (births_at index bs h k) }
    ensures timed { (index : Id → ℕ) (bs : Branches) (h : ℕ) (k : List ℕ) → IsHistory bs → IsInTime bs h k → IsTimed same_id (births_at index bs h k) }
    ensures known { (index : Id → ℕ) (w : ℕ) (newer older : Branches) (h : ℕ) (k : List ℕ)
        → ((id : Id) → knows newer id ≡ true → w < index id) → ((id : Id) → knows older id ≡ true → index id ≤ w)
        → known w (births_at index (newer ++ older) h k) ≡ births_at index older h k }
{}
