//! A sink over a writer of std.
ghost use Rattle.std.specs.Prelude.{◌≡◌, ◌<◌, ◌≤◌, None, length, IfOk, OnErr, IsTrue};
ghost use Rattle.std.specs.Io.KnownBytes.{WriteAppends};
ghost use Rattle.line_io.specs.Counts.{rose};

use crate::{Failed, Sink};
use std::io::Write;

/// Gives its pieces to a writer, as that of standard output, and tells nothing of the bytes.
///
/// What the writer itself says of its bytes holds of each write. A write that takes nothing counts
/// as a fault.
#[derive(Drop)]
pub struct StdSink<W> {
    writer: W,
    faults: u64,
}

impl<W: Write> StdSink<W> {
    /// A sink over this writer, as `io::writer(&rt)`, without faults so far.
    pub fn new(writer: W) -> StdSink<W>
        ensures { result ≡ record { writer = writer; faults = 0 } }
    {
        StdSink { writer, faults: 0 }
    }
}

impl<W: Write> Sink for StdSink<W> {
    ghost held = { λ _. None };

    ghost faults = { λ s. s.faults };

    fn write(&mut self, piece: &[u8]) -> Result<usize, Failed>
        requires { 0 < length piece.now }
        ensures within { IfOk result (λ n. n ≤ length piece.now) }
        ensures some { IfOk result (λ n. 0 < n) }
        ensures fault { OnErr result (IsTrue (rose self.old.faults self.new.faults)) }
        ensures never_falls { self.old.faults ≤ self.new.faults }
        ensures writer { WriteAppends (W.contents self.old.writer) (W.contents self.new.writer)
            result piece.now }
    {
        match self.writer.write(piece) {
            Ok(count) if count > 0 => Ok(count),
            _ => {
                self.faults = self.faults.saturating_add(1);
                Err(Failed)
            }
        }
    }
}
