//! Laws of registers and of lists of operations: each holds by its contract, and its body is empty.
ghost use Rattle.std.specs.Prelude.{◌≡◌, ◌||◌, Bool, List, filter, IsTrue, IsFalse};
ghost use Rattle.std.specs.List.{AllByRecursion};
ghost use Rattle.register_laws.specs.declared.operation.Op.{Op};
ghost use Rattle.register_laws.specs.declared.operation.OpId.{OpId};
ghost use Rattle.register_laws.specs.Register.{State, state_after, writes};
ghost use Rattle.register_laws.specs.Lists.{IsLegalFrom, told_from, is_read};

/// An operation that does not write leaves the state as it was.
pub fn unwritten_state_stays()
    ensures { (s : State) (op : Op) → IsFalse (writes s op) → state_after s op ≡ s }
{}

/// A list whose replies the register filled in is legal.
pub fn filled_list_is_legal()
    ensures { (s : State) (ops : List (OpId × Op)) → IsLegalFrom s (told_from s ops) }
{}

/// Reads that are left out before the replies are filled in are what is left out of the filled list, and no
/// other reply changes.
pub fn left_out_reads_change_no_reply()
    ensures { (s : State) (stays : OpId × Op → Bool) (ops : List (OpId × Op))
        → AllByRecursion (λ (x : OpId × Op). IsTrue (stays x || is_read x.1)) ops
        → told_from s (filter stays ops) ≡ filter (λ t. stays (t.op, t.what)) (told_from s ops) }
{}
