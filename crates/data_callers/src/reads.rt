//! Waiting reads.
ghost use Rattle.std.specs.Prelude.{◌≡◌, ◌<◌, ◌≤◌, Some, IfOk, IsFalse};

use majority_read::Reads;
use memory::OutOfMemory;
use register_laws::{OpId, Value};
use std::alloc::Global;

/// A read is taken from its sync on, with that sync and the value that it found.
pub fn taken(
    alloc: Global,
    op: OpId,
    at: u64,
    value: Option<Value>,
    upto: u64,
) -> Result<Option<(OpId, u64, Option<Value>)>, OutOfMemory>
    requires { at ≤ upto }
    ensures { IfOk result (λ taken. taken ≡ Some (op, at, value)) }
{
    let mut reads = Reads::new(alloc);
    reads.ask(op, at, value)?;
    Ok(reads.take_upto(upto))
}

/// No read is taken before its sync.
pub fn is_taken_early(alloc: Global, op: OpId, at: u64, upto: u64) -> Result<bool, OutOfMemory>
    requires { upto < at }
    ensures { IfOk result (λ taken. IsFalse taken) }
{
    let mut reads = Reads::new(alloc);
    reads.ask(op, at, None)?;
    Ok(reads.take_upto(upto).is_some())
}
