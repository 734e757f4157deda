//! The hash of a key.
ghost use Rattle.std.specs.Prelude.{◌≡◌, ◌<◌};
ghost use Rattle.region_map.specs.Keys.{hash_of};

use crate::Key;

/// The sum of the key's bytes, modulo the number of hashes.
pub fn hash_of(key: &Key, hashes: u8) -> u8
    requires { 0 < hashes }
    ensures { result ≡ hash_of key.now hashes }
{
    let mut total: u16 = 0;
    for byte in key.as_bytes() {
        total += u16::from(*byte);
    }
    (total % u16::from(hashes)) as u8
}
