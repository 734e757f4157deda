//! What a node knows of its own entries is kept by each look and by each append, and makes the whole list a run.
ghost use Rattle.std.specs.Prelude.{◌≡◌, ℕ, List, reverse};
ghost use Rattle.std.specs.List.{All};
ghost use Rattle.runs.specs.contract_types.Setup.{SetupState};
ghost use Rattle.runs.specs.node_core.declared.journal.Entry.{Entry};
ghost use Rattle.runs.specs.Run.{IsRun};
ghost use Rattle.journal_seat.specs.declared.book.BookLimits.{BookLimits};
ghost use Rattle.journal_seat.specs.declared.view.View.{View};
ghost use Rattle.journal_seat.specs.Book.{StartsWith, Looked};
ghost use Rattle.journal_seat.specs.Calls.{Appended, IsWhole};
ghost use Rattle.seen_runs.specs.Seen.{node_of, IsOwnStep, IsOwnRun, IsSeatRun};

/// What others added between two looks takes nothing from a node's steps: its state, its messages and their numbers are as
/// they were.
pub fn looks_keep_own_steps()
    ensures { (setup : SetupState) → (home : ℕ → ℕ) → (v w : View Entry) → IsOwnRun setup home v.number v.seen v.made
        → Looked node_of v w → IsOwnRun setup home w.number w.seen w.made }
{}

/// A step over what a node has seen is one over the list that its entry is put behind, whatever others added since it
/// looked.
pub fn appends_keep_own_steps()
    ensures { (setup : SetupState) → (home : ℕ → ℕ) → (weight_of : Entry → ℕ) → (limits : BookLimits) → (e : Entry) → (v : View Entry)
        → (place : ℕ) → (w : View Entry) → IsOwnRun setup home v.number v.seen v.made → e.node.0 ≡ v.number
        → IsOwnStep setup home (reverse v.seen) e → Appended node_of weight_of limits e v place w
        → IsOwnRun setup home w.number w.seen w.made }
{}

/// The list of a book is a run, where the entries of its first seat, and those of each seat that was taken in, are steps of
/// their nodes over what these had seen. What the first seat's node had seen is told beside the view, which may know of a
/// longer list since other seats were taken in.
pub fn runs_of_seen_lists()
    ensures { (setup : SetupState) → (home : ℕ → ℕ) → (v : View Entry) → (list : List Entry) → IsWhole node_of v list
        → (seen : List Entry) → StartsWith list seen → IsOwnRun setup home v.number seen v.made → All (IsSeatRun setup home) v.ended
        → IsRun setup (reverse list) }
{}
