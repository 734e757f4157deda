//! Keys of rows.
ghost use Rattle.std.specs.Prelude.{◌≡◌, ◌≤◌, ◌↔◌, length, not, IfOk, IsErr, IsTrue};
ghost use Rattle.region_map.specs.Keys.{is_key};

use crate::MAX_KEY_BYTES;
use memory::OutOfMemory;
use std::alloc::Global;
use std::cmp::Ordering;
use std::marker::Model;
use thiserror::Error;

/// A key has 1 to `MAX_KEY_BYTES` bytes; this one had none or more.
#[derive(Clone, Copy, Debug, PartialEq, Eq, Error)]
#[error("a key has 1 to 64 bytes")]
pub struct KeyLength;

/// The key of a row: 1 to 64 bytes, ordered byte by byte.
#[derive(Debug, Drop)]
pub struct Key {
    bytes: Vec<u8>,
}

impl Model for Key {
    ghost use Rattle.std.specs.Prelude.{List, ℕ};
    ghost use Rattle.std.specs.Prelude.{IsTrue};
    ghost use Rattle.region_map.specs.Keys.{is_key};

    ghost Value = { List ℕ };

    ghost view = { λ a. a.bytes.items };

    ghost invariant = { λ a. IsTrue (is_key a.bytes.items) };
}

impl Key {
    /// Takes the bytes as a key.
    pub fn new(bytes: Vec<u8>) -> Result<Key, KeyLength>
        ensures ok { IfOk result (λ key. key ≡ bytes.items) }
        ensures fits { IfOk result (λ key. IsTrue (is_key bytes.items)) }
        ensures refused { IsErr result ↔ IsTrue (not (is_key bytes.items)) }
    {
        if bytes.is_empty() || bytes.len() > MAX_KEY_BYTES {
            return Err(KeyLength);
        }
        Ok(Key { bytes })
    }

    /// The bytes of the key.
    pub fn as_bytes(&self) -> &[u8]
        ensures value { result.now ≡ self.now }
        ensures key { IsTrue (is_key self.now) }
        ensures short { length self.now ≤ 64 }
    {
        self.bytes.as_slice()
    }

    /// The same key again.
    pub fn copy(&self, alloc: Global) -> Result<Key, OutOfMemory>
        ensures { IfOk result (λ key. key ≡ self.now) }
    {
        let bytes = Vec::from_slice(alloc, self.bytes.as_slice())?;
        Ok(Key { bytes })
    }
}

impl PartialEq for Key {
    ghost use Rattle.std.specs.Prelude.{nat_eq};
    ghost use Rattle.std.specs.Cmp.{partial_equiv_from_equiv};
    ghost use Rattle.std.specs.Cmp.Lexicographic.{pointwise, nat_list_eq_equiv};

    ghost eq = { pointwise nat_eq };

    ghost laws = { partial_equiv_from_equiv nat_list_eq_equiv };

    fn eq(&self, other: &Key) -> bool {
        self.bytes.as_slice() == other.bytes.as_slice()
    }
}

impl Eq for Key {
    ghost use Rattle.std.specs.Cmp.Lexicographic.{nat_list_eq_equiv};

    ghost laws = { nat_list_eq_equiv };
}

impl PartialOrd for Key {
    ghost use Rattle.std.specs.Prelude.{Some};
    ghost use Rattle.std.specs.Ordering.{nat_cmp};
    ghost use Rattle.std.specs.Cmp.Lexicographic.{slice_cmp, texts_po};

    ghost partial_cmp = { λ a b. Some (slice_cmp nat_cmp a b) };

    ghost laws = { texts_po };

    fn partial_cmp(&self, other: &Key) -> Option<Ordering> {
        Some(self.cmp(other))
    }
}

impl Ord for Key {
    ghost use Rattle.std.specs.Prelude.{refl};
    ghost use Rattle.std.specs.Ordering.{nat_cmp};
    ghost use Rattle.std.specs.Cmp.Lexicographic.{slice_cmp, nat_list_cmp_total, texts_ties};

    ghost cmp = { slice_cmp nat_cmp };

    ghost total = { nat_list_cmp_total };

    ghost matches_partial_cmp = { λ a b. refl };

    ghost matches_eq = { texts_ties };

    fn cmp(&self, other: &Key) -> Ordering {
        self.bytes.as_slice().cmp(other.bytes.as_slice())
    }
}
