//! Reading a source to its end.
ghost use Rattle.std.specs.Prelude.{◌≡◌, ◌<◌, ◌≤◌, ℕ, List, length, IfSome, IfOk, IfErr, IsErrOf, OnOk, IsTrue};
ghost use Rattle.line_io.specs.Bytes.{Gives, IsAtEnd};
ghost use Rattle.line_io.specs.Counts.{rose};
ghost use Rattle.line_io.specs.Reading.{CameBefore};

use crate::{ReadRefused, Source};
use std::alloc::Global;

/// How many bytes one call of `read` may give.
const PIECE_BYTES: usize = 8192;

/// Reads the source to its end, and takes at most `limit` bytes.
///
/// `TooLong` comes as soon as more than `limit` bytes came; the source is then read a little past
/// the limit, and not to its end.
pub fn read_all<S: Source>(
    alloc: Global,
    source: &mut S,
    limit: u64,
) -> Result<Vec<u8>, ReadRefused>
    ensures gives { IfOk result
        (λ bytes. Gives (S.left source.old) bytes.items (S.left source.new)) }
    ensures end { OnOk result (IsAtEnd (S.left source.new)) }
    ensures within { IfOk result (λ bytes. length bytes.items ≤ limit) }
    ensures whole { IfOk result (λ bytes. IfSome (S.left source.old) (λ all. bytes.items ≡ all)) }
    ensures refused { IfErr result
        (λ why. CameBefore why limit (S.left source.old) (S.left source.new)) }
    ensures too_long { IsErrOf result ReadRefused.TooLong
        → IfSome (S.left source.old) (λ all. limit < length all) }
    ensures fault { IsErrOf result ReadRefused.ReadFault
        → IsTrue (rose (S.faults source.old) (S.faults source.new)) }
    ensures never_falls { S.faults source.old ≤ S.faults source.new }
{
    let mut bytes = Vec::new(alloc);
    let mut piece = [0u8; PIECE_BYTES];
    loop {
        let count = source.read(&mut piece)?;
        if count == 0 {
            return Ok(bytes);
        }
        if count as u64 > limit - bytes.len() as u64 {
            return Err(ReadRefused::TooLong);
        }
        bytes.extend_from_slice(&piece[..count])?;
    }
}
