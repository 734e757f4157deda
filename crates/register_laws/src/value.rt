//! Values of a register.
ghost use Rattle.std.specs.Prelude.{◌≡◌, ◌<◌, ◌≤◌, ◌↔◌, length, IfOk, IsErr};

use crate::MAX_VALUE_BYTES;
use memory::OutOfMemory;
use std::alloc::Global;
use std::marker::Model;
use thiserror::Error;

/// A value has at most `MAX_VALUE_BYTES` bytes; this one had more.
#[derive(Clone, Copy, Debug, PartialEq, Eq, Error)]
#[error("a value has at most 1024 bytes")]
pub struct ValueLength;

/// The value of a register: at most `MAX_VALUE_BYTES` bytes, perhaps none.
#[derive(Debug, Drop)]
pub struct Value {
    bytes: Vec<u8>,
}

impl Model for Value {
    ghost use Rattle.std.specs.Prelude.{List, ℕ, ◌≤◌, length};

    ghost Value = { List ℕ };

    ghost view = { λ a. a.bytes.items };

    ghost invariant = { λ a. length a.bytes.items ≤ 1024 };
}

impl Value {
    /// Takes the bytes as a value.
    pub fn new(bytes: Vec<u8>) -> Result<Value, ValueLength>
        ensures ok { IfOk result (λ value. value ≡ bytes.items) }
        ensures fits { IfOk result (λ _. length bytes.items ≤ 1024) }
        ensures refused { IsErr result ↔ (1024 < length bytes.items) }
    {
        if bytes.len() > MAX_VALUE_BYTES {
            return Err(ValueLength);
        }
        Ok(Value { bytes })
    }

    /// The bytes of the value.
    pub fn as_bytes(&self) -> &[u8]
        ensures value { result.now ≡ self.now }
        ensures short { length self.now ≤ 1024 }
    {
        self.bytes.as_slice()
    }

    /// The same value again.
    pub fn copy(&self, alloc: Global) -> Result<Value, OutOfMemory>
        ensures { IfOk result (λ value. value ≡ self.now) }
    {
        let bytes = Vec::from_slice(alloc, self.bytes.as_slice())?;
        Ok(Value { bytes })
    }
}

impl PartialEq for Value {
    ghost use Rattle.std.specs.Prelude.{nat_eq};
    ghost use Rattle.std.specs.Cmp.{partial_equiv_from_equiv};
    ghost use Rattle.std.specs.Cmp.Lexicographic.{pointwise, nat_list_eq_equiv};

    ghost eq = { pointwise nat_eq };

    ghost laws = { partial_equiv_from_equiv nat_list_eq_equiv };

    fn eq(&self, other: &Value) -> bool {
        self.bytes.as_slice() == other.bytes.as_slice()
    }
}

impl Eq for Value {
    ghost use Rattle.std.specs.Cmp.Lexicographic.{nat_list_eq_equiv};

    ghost laws = { nat_list_eq_equiv };
}

/// The same optional value again.
pub fn copy_value(alloc: Global, value: &Option<Value>) -> Result<Option<Value>, OutOfMemory>
    ensures { IfOk result (λ copy. copy ≡ value.now) }
{
    match value {
        Some(value) => Ok(Some(value.copy(alloc)?)),
        None => Ok(None),
    }
}
