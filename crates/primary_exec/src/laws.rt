//! Laws of a primary's start, and of when it is ready.
ghost use Rattle.std.specs.Prelude.{◌≡◌, ◌+◌, ◌∷◌, [], ℕ, List, Some, None, false, IsTrue, if◌then◌else◌};
ghost use Rattle.region_map.specs.declared.id.NodeId.{NodeId};
ghost use Rattle.region_map.specs.Maps.{Pieced, value_at};
ghost use Rattle.region_map.specs.Regions.{in_region};
ghost use Rattle.branch_history.specs.declared.version.Version.{Version};
ghost use Rattle.register_laws.specs.declared.operation.Op.{Op};
ghost use Rattle.register_laws.specs.declared.operation.OpId.{OpId};
ghost use Rattle.exec_types.specs.declared.message.Got.{Got};
ghost use Rattle.store_api.specs.Calls.{HasValues};
ghost use Rattle.store_api.specs.Rows.{Rows, row_of};
ghost use Rattle.store_api.specs.Versions.{point};
ghost use Rattle.write_dispatch.specs.Dispatch.{is_decided};
ghost use Rattle.primary_exec.specs.declared.asking.Asking.{Asking};
ghost use Rattle.primary_exec.specs.Execution.{Execution, started, started_versions, hand_over_of, dispatch_row, got_row, give_up_row, decided};

use crate::Asking;
use store_api::Store;

/// What a primary starts with: each key has the row that it had, each pair of the region stands at the sync in the
/// branch, and every other pair where it stood.
pub fn starts_stand_at_their_sync<T: Store>(old: &T, new: &T, asking: &Asking, initial: u64)
    requires rows { T.rows new.now ≡ T.rows old.now }
    requires versions { T.versions new.now ≡ started_versions asking.now initial (T.versions old.now) }
    ensures rows { (key : List ℕ) → row_of (T.rows new.now) key ≡ row_of (T.rows old.now) key }
    ensures versions { HasValues (T.versions old.now).hashes
        (λ h k. if in_region asking.now.contract.region h k then Some (point asking.now.branch (initial + 1)) else value_at (T.versions old.now).pieces h k)
        (T.versions new.now) }
{
    let _hashes = old.hashes();
}

/// A primary that votes alone, and hands its region to nobody, is ready at the end of the step in which it starts.
pub fn a_primary_that_votes_alone_is_ready_at_once()
    ensures { (a : Asking) (me : NodeId) (initial : ℕ) → a.contract.voters ≡ me.0 ∷ [] → a.contract.temp_voters ≡ None
        → hand_over_of a.contract.primary ≡ None → IsTrue (decided (started a me initial)).ready }
{}

/// A primary becomes ready only where its sync is decided under the contract in force, and only at the end of a step;
/// then it stays so.
pub fn a_primary_is_ready_once_its_sync_is_decided()
    ensures sync { (x : Execution) → x.ready ≡ false → IsTrue (decided x).ready
        → ((at : ℕ) × (x.sync ≡ Some at) × IsTrue (is_decided x.dispatch.acks x.contract x.me.0 at)) }
    ensures stays { (x : Execution) → IsTrue x.ready → IsTrue (decided x).ready }
    ensures request { (x : Execution) (rows : Rows) (versions : Pieced Version) (op : OpId) (key : List ℕ) (what : Op)
        → (dispatch_row x rows versions op key what).execution.ready ≡ x.ready }
    ensures got { (x : Execution) (from : NodeId) (got : Got) → (got_row x from got).ready ≡ x.ready }
    ensures give_up { (x : Execution) (op : OpId) → (give_up_row x op).ready ≡ x.ready }
{}
