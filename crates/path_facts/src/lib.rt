//! What becomes of decided points at one key, from the facts of that key alone: no node, no step, no region and no store.
//!
//! Above: the laws of every run, which show that the facts hold. Below: nothing.
//! Promise: a point that is decided is on the path of each branch that is registered later, and a majority of the voters
//! of the key's contract holds it.
#![tactic(auto)]

ghost use Rattle.std.specs.Prelude.{◌≡◌, ◌⊎◌, ◌↔◌, ℕ, ◌≤◌, ◌<◌, true, Bool, List, ◌∷◌, Some};
ghost use Rattle.path_facts.specs.Paths.{Version, Birth, TellsApart, IsIn, IsHistory, IsTimed, zero_version, point, on, known};
ghost use Rattle.path_facts.specs.Runs.{KeyRun, IsMost, StaysReplica, holds};
ghost use Rattle.path_facts.specs.Decided.{Decided, DecidedPoint, place, holds_all};
ghost use Rattle.path_facts.specs.Invariant.{Ready, GoesOver, Elected, Asked, LogFacts, Facts};
ghost use Rattle.path_facts.specs.Example.{example, first_branch, second_branch};

/// The points of a path are ordered. What is on the path of a point of a path is on the path itself; of two points of one path
/// one is on the path of the other; two that are on one another's paths are one. A branch's own points are on the path of its
/// later versions, and so is the path from which it goes on. A later version of a branch has all that an earlier one has.
pub fn paths_are_ordered<B>()
    ensures zero { (same : B → B → Bool) → TellsApart same → (bs : List (Birth B)) (v : Version B) → on same bs v zero_version ≡ true }
    ensures itself { (same : B → B → Bool) → TellsApart same → (bs : List (Birth B)) → IsHistory same bs → (v x : Version B)
        → on same bs v x ≡ true → on same bs x x ≡ true }
    ensures own { (same : B → B → Bool) → TellsApart same → (bs : List (Birth B)) → IsHistory same bs → (y : Birth B) (s t : ℕ)
        → IsIn bs y → y.initial ≤ t → t ≤ s → on same bs (point y.branch s) (point y.branch t) ≡ true }
    ensures origin { (same : B → B → Bool) → TellsApart same → (bs : List (Birth B)) → IsHistory same bs → (y : Birth B) (s : ℕ) (x : Version B)
        → IsIn bs y → on same bs y.origin x ≡ true → on same bs (point y.branch s) x ≡ true }
    ensures transitive { (same : B → B → Bool) → TellsApart same → (bs : List (Birth B)) → IsHistory same bs → (v x y : Version B)
        → on same bs v x ≡ true → on same bs x y ≡ true → on same bs v y ≡ true }
    ensures linear { (same : B → B → Bool) → TellsApart same → (bs : List (Birth B)) → IsHistory same bs → (v x y : Version B)
        → on same bs v x ≡ true → on same bs v y ≡ true → (on same bs x y ≡ true) ⊎ (on same bs y x ≡ true) }
    ensures antisymmetric { (same : B → B → Bool) → TellsApart same → (bs : List (Birth B)) → IsHistory same bs → (x y : Version B)
        → on same bs x y ≡ true → on same bs y x ≡ true → x ≡ y }
    ensures forward { (same : B → B → Bool) → TellsApart same → (bs : List (Birth B)) (v w x : Version B)
        → v.branch ≡ w.branch → v.timestamp ≤ w.timestamp → on same bs v x ≡ true → on same bs w x ≡ true }
{}

/// The path of a version of a branch that is known up to an index of the log is the same in all branches; and what is on a
/// path up to an index is on it in all branches.
pub fn paths_stay<B>()
    ensures path { (same : B → B → Bool) → TellsApart same → (w : ℕ) (bs : List (Birth B)) → IsHistory same bs → (y : Birth B) (v x : Version B)
        → IsIn bs y → y.registered ≤ w → v.branch ≡ Some y.branch → on same (known w bs) v x ≡ on same bs v x }
    ensures points { (same : B → B → Bool) → TellsApart same → (w : ℕ) (bs : List (Birth B)) → IsHistory same bs → (v x : Version B)
        → on same (known w bs) v x ≡ true → on same bs v x ≡ true }
{}

/// Where each branch starts from a point of a path and no later than at its first timestamp, timestamps never fall along a
/// path, and behind the first timestamp of a branch they rise with each point.
pub fn timestamps_rise<B>()
    ensures never_fall { (same : B → B → Bool) → TellsApart same → (bs : List (Birth B)) → IsHistory same bs → IsTimed same bs → (x y : Version B)
        → on same bs x x ≡ true → on same bs x y ≡ true → y.timestamp ≤ x.timestamp }
    ensures rise { (same : B → B → Bool) → TellsApart same → (bs : List (Birth B)) → IsHistory same bs → IsTimed same bs → (b : Birth B) (x y : Version B)
        → IsIn bs b → x.branch ≡ Some b.branch → b.initial < x.timestamp → on same bs x y ≡ true → (y ≡ x) ⊎ (y.timestamp < x.timestamp) }
{}

/// The branches of a key stand in the log in the order of their tenures. Those of one tenure have one maker, and stand in
/// the order of the lives in which it made them.
pub fn branches_are_ordered<B>()
    ensures tenures { (r : KeyRun B) → LogFacts r → (y z : Birth B) → IsIn r.births y → IsIn r.births z → y.registered ≤ z.registered → y.tenure ≤ z.tenure }
    ensures makers { (r : KeyRun B) → LogFacts r → (y z : Birth B) → IsIn r.births y → IsIn r.births z → y.registered ≤ z.registered → y.tenure ≡ z.tenure → y.maker ≡ z.maker }
    ensures lives { (r : KeyRun B) → LogFacts r → (y z : Birth B) → IsIn r.births y → IsIn r.births z → y.tenure ≡ z.tenure
        → (y.registered < z.registered) ↔ (y.life < z.life) }
{}

/// What is decided stays: each branch that is registered later goes on from it, so that it is on the path of every version of
/// such a branch, and of each later version of its own. Of two decided points one is on the path of the other.
pub fn decided_points_stay<B>()
    ensures origins { (r : KeyRun B) → Facts r → (p : DecidedPoint r)
        → (y : Birth B) → IsIn r.births y → p.birth.registered < y.registered → on r.same r.births y.origin (place r p) ≡ true }
    ensures versions { (r : KeyRun B) → Facts r → (p : DecidedPoint r)
        → (y : Birth B) (s : ℕ) → IsIn r.births y → (p.birth.registered < y.registered) ⊎ ((p.birth.registered ≡ y.registered) × (p.timestamp ≤ s))
        → on r.same r.births (point y.branch s) (place r p) ≡ true }
    ensures one_path { (r : KeyRun B) → Facts r → (p q : DecidedPoint r)
        → (on r.same r.births (place r p) (place r q) ≡ true) ⊎ (on r.same r.births (place r q) (place r p) ≡ true) }
{}

/// What is decided is held. At the end more than half of the voters of the last contract hold all that is decided, whether
/// they are up or down; where its primary is ready, so do more than half of its second set. A node that holds a decided point
/// goes on holding it while it is a replica by its own table; and each node that was counted held it as it was.
pub fn decided_points_are_held<B>()
    ensures majority { (r : KeyRun B) → Facts r → (p : DecidedPoint r) (ps : List (DecidedPoint r)) → IsMost (holds_all r (p ∷ ps)) (r.contract r.last).voters }
    ensures ready { (r : KeyRun B) → Facts r → (set : List ℕ) → (r.contract r.last).second ≡ Some set → Ready r r.last
        → (p : DecidedPoint r) (ps : List (DecidedPoint r)) → IsMost (holds_all r (p ∷ ps)) set }
    ensures lasts { (r : KeyRun B) → Facts r → (p : DecidedPoint r)
        → (node m n : ℕ) → m ≤ n → StaysReplica r node m n → holds r (place r p) m node ≡ true → holds r (place r p) n node ≡ true }
    ensures counted { (r : KeyRun B) → Facts r → (p : DecidedPoint r)
        → (node : ℕ) → (c : p.decided.counted node ≡ true) → holds r (place r p) (p.decided.each node c).moment node ≡ true }
{}

/// The facts can be met: a small run has them in which a write is decided, the voters change, the primary is let go, and
/// another one is elected and starts a branch of its own.
pub fn facts_can_be_met()
    ensures facts { Facts example }
    ensures decided { Decided example first_branch 1 }
    ensures goes_over { GoesOver example 1 }
    ensures elected { Elected example 3 1 }
    ensures asked { Asked example second_branch }
{}
