//! What an operation replies, and what it tells the secondaries.
ghost use Rattle.std.specs.Prelude.{◌≡◌, IfOk};
ghost use Rattle.register_laws.specs.Register.{writes, reply_of};
ghost use Rattle.store_api.specs.Rows.{value_of};
ghost use Rattle.primary_exec.specs.Execution.{part_of};

use exec_types::Part;
use memory::OutOfMemory;
use region_map::Key;
use register_laws::{Op, Reply, Value, step};
use std::alloc::Global;
use store_api::{Row, Store};

/// Whether the operation writes at a register with this value.
fn is_writing(state: &Option<Value>, what: &Op) -> bool
    ensures { result ≡ writes state.now what.now }
{
    match what {
        Op::Put(_) => true,
        Op::Delete => true,
        Op::Cas { expect, .. } => *state == *expect,
        Op::Read => false,
    }
}

/// The reply to an operation at a timestamp, and the part that tells the secondaries of it.
fn effect_on(
    alloc: Global,
    state: &Option<Value>,
    at: u64,
    key: &Key,
    what: &Op,
) -> Result<(Reply, Part), OutOfMemory>
    ensures reply { IfOk result (λ effect. effect.0 ≡ reply_of state.now what.now) }
    ensures part { IfOk result (λ effect. effect.1 ≡ part_of state.now at key.now what.now) }
{
    let (reply, value) = step(alloc, state, what)?;
    if is_writing(state, what) {
        let key = key.copy(alloc)?;
        let row = Row { value, recency: at };
        Ok((reply, Part::Write { at, key, row }))
    } else {
        Ok((reply, Part::Sync { at }))
    }
}

/// The reply to an operation at a timestamp on a store, and the part that tells the secondaries of it.
pub fn effect<T: Store>(
    alloc: Global,
    store: &T,
    at: u64,
    key: &Key,
    what: &Op,
) -> Result<(Reply, Part), OutOfMemory>
    ensures reply { IfOk result (λ effect. effect.0 ≡ reply_of (value_of (T.rows store.now) key.now) what.now) }
    ensures part { IfOk result
        (λ effect. effect.1 ≡ part_of (value_of (T.rows store.now) key.now) at key.now what.now) }
{
    match store.get(key) {
        Some(row) => effect_on(alloc, &row.value, at, key, what),
        None => effect_on(alloc, &None, at, key, what),
    }
}
