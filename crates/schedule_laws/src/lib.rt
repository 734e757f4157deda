//! Words and laws that every proof over schedules needs. It has no code.
//!
//! Above: the laws of the log, and of nodes and worlds. Below: nothing.
//! Promise: what each event of a run keeps, the run keeps; what holds of each message that was sent,
//! and of each node, still does when one node moves on.
#![tactic(auto)]

ghost use Rattle.std.specs.Prelude.{◌≡◌, ◌∷◌, ◌++◌, [], ℕ, List, Option, Some, length, take, slice_get};
ghost use Rattle.std.specs.List.{filter_map};
ghost use Rattle.schedule_laws.specs.Schedules.{run};

/// A run goes event by event, the first one first.
pub fn runs_go_on<W, Ev>()
    ensures { (happens : W → Ev → W) (events : List Ev) (e : Ev) (w : W)
        → run happens (events ++ e ∷ []) w ≡ happens (run happens events w) e }
{}

/// Where only some messages are of a kind, one of them has among these the place that those before it leave to it.
pub fn kinds_keep_order<X, Y>()
    ensures { (kind : X → Option Y) (xs : List X) (place : ℕ) (x : X) (y : Y) → slice_get xs place ≡ Some x → kind x ≡ Some y
        → slice_get (filter_map kind xs) (length (filter_map kind (take place xs))) ≡ Some y }
{}
