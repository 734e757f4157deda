//! Writing a piece whole.
ghost use Rattle.std.specs.Prelude.{◌≡◌, ◌<◌, ◌≤◌, ℕ, length, take, OnOk, OnErr, IsTrue};
ghost use Rattle.line_io.specs.Bytes.{Appends};
ghost use Rattle.line_io.specs.Counts.{rose};

use crate::{Sink, WriteFault};

/// Writes the whole piece, by as many calls as the sink needs; an empty piece needs none.
///
/// After a fault the sink has taken the first bytes of the piece, and not all of them.
pub fn write_all<K: Sink>(sink: &mut K, piece: &[u8]) -> Result<(), WriteFault>
    ensures appends { OnOk result (Appends (K.held sink.old) piece.now (K.held sink.new)) }
    ensures part { OnErr result ((n : ℕ) × (n < length piece.now)
        × Appends (K.held sink.old) (take n piece.now) (K.held sink.new)) }
    ensures fault { OnErr result (IsTrue (rose (K.faults sink.old) (K.faults sink.new))) }
    ensures never_falls { K.faults sink.old ≤ K.faults sink.new }
{
    let mut at = 0;
    while at < piece.len() {
        at += sink.write(&piece[at..])?;
    }
    Ok(())
}
