//! Operations on a register, their replies, and what a client was told of them.
ghost use Rattle.std.specs.Prelude.{◌≡◌, IfOk};
ghost use Rattle.register_laws.specs.Register.{reply_of, state_after};

use crate::{Value, copy_value};
use memory::OutOfMemory;
use std::alloc::Global;

/// The number that a client gives an operation; no two operations have one number.
#[derive(Clone, Copy, Debug, PartialEq, Eq, PartialOrd, Ord, Hash)]
pub struct OpId(pub u64);

/// What an operation does with a register, whose state is a value or none.
#[derive(Debug, Drop, PartialEq, Eq)]
pub enum Op {
    /// Leaves this value; the reply is the state before.
    Put(Value),
    /// Leaves none; the reply is the state before.
    Delete,
    /// Where the state is `expect`, leaves `put` and replies `Swapped`; else replies `Kept` with the state.
    Cas {
        expect: Option<Value>,
        put: Option<Value>,
    },
    /// Changes nothing; the reply is the state.
    Read,
}

/// What a register replies.
#[derive(Debug, Drop, PartialEq, Eq)]
pub enum Reply {
    /// The state before a put or a delete, or at a read.
    Was(Option<Value>),
    /// The state was as expected.
    Swapped,
    /// The state was not as expected, but this, and stays.
    Kept(Option<Value>),
}

/// An operation with the reply that it got.
#[derive(Debug, Drop)]
pub struct Told {
    pub op: OpId,
    pub what: Op,
    pub reply: Reply,
}

/// When an operation was asked and, where it was, answered, as places in one history.
#[derive(Clone, Copy, Debug, PartialEq, Eq)]
pub struct Span {
    pub op: OpId,
    pub asked: u64,
    pub answered: Option<u64>,
}

impl Op {
    /// The same operation again.
    pub fn copy(&self, alloc: Global) -> Result<Op, OutOfMemory>
        ensures { IfOk result (λ op. op ≡ self.now) }
    {
        match self {
            Op::Put(value) => Ok(Op::Put(value.copy(alloc)?)),
            Op::Delete => Ok(Op::Delete),
            Op::Cas { expect, put } => {
                let expect = copy_value(alloc, expect)?;
                let put = copy_value(alloc, put)?;
                Ok(Op::Cas { expect, put })
            }
            Op::Read => Ok(Op::Read),
        }
    }
}

impl Reply {
    /// The same reply again.
    pub fn copy(&self, alloc: Global) -> Result<Reply, OutOfMemory>
        ensures { IfOk result (λ reply. reply ≡ self.now) }
    {
        match self {
            Reply::Was(value) => Ok(Reply::Was(copy_value(alloc, value)?)),
            Reply::Swapped => Ok(Reply::Swapped),
            Reply::Kept(value) => Ok(Reply::Kept(copy_value(alloc, value)?)),
        }
    }
}

/// What the register replies to an operation from a state, and the state that it leaves.
pub fn step(
    alloc: Global,
    state: &Option<Value>,
    op: &Op,
) -> Result<(Reply, Option<Value>), OutOfMemory>
    ensures reply { IfOk result (λ r. r.0 ≡ reply_of state.now op.now) }
    ensures left { IfOk result (λ r. r.1 ≡ state_after state.now op.now) }
{
    match op {
        Op::Put(value) => Ok((
            Reply::Was(copy_value(alloc, state)?),
            Some(value.copy(alloc)?),
        )),
        Op::Delete => Ok((Reply::Was(copy_value(alloc, state)?), None)),
        Op::Cas { expect, put } => {
            if *state == *expect {
                Ok((Reply::Swapped, copy_value(alloc, put)?))
            } else {
                let kept = copy_value(alloc, state)?;
                Ok((Reply::Kept(kept), copy_value(alloc, state)?))
            }
        }
        Op::Read => {
            let before = copy_value(alloc, state)?;
            Ok((Reply::Was(before), copy_value(alloc, state)?))
        }
    }
}
