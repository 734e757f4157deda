//! The register.
ghost use Rattle.std.specs.Prelude.{◌≡◌, ◌<◌, IfOk, IsFalse};
ghost use Rattle.register_laws.specs.declared.operation.Reply.TheVariants.{Was};

use memory::OutOfMemory;
use register_laws::{Op, OpId, Reply, Span, Value, keeps_order, step};
use std::alloc::Global;

/// A deletion replies what was there.
pub fn deleted(alloc: Global, state: &Option<Value>) -> Result<Reply, OutOfMemory>
    ensures { IfOk result (λ reply. reply ≡ Was state.now) }
{
    let (reply, _left) = step(alloc, state, &Op::Delete)?;
    Ok(reply)
}

/// Who was answered before another was asked does not stand behind it.
pub fn is_behind(first: OpId, later: OpId, asked: u64, answered: u64) -> bool
    requires { answered < asked }
    ensures { IsFalse result }
{
    let spans = [
        Span {
            op: first,
            asked,
            answered: None,
        },
        Span {
            op: later,
            asked: 0,
            answered: Some(answered),
        },
    ];
    keeps_order(&[first, later], &spans)
}
