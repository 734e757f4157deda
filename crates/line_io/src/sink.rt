//! What takes bytes.
ghost use Rattle.std.specs.Prelude.{◌≡◌, ◌<◌, ◌≤◌, ℕ, List, Option, IfOk, OnErr, IsTrue, length, take};
ghost use Rattle.line_io.specs.Bytes.{Appends};
ghost use Rattle.line_io.specs.Counts.{rose};

use crate::Failed;

/// What takes bytes in order, and counts its faults in 64 bits.
///
/// A sink tells which bytes it holds, or tells nothing of them; that never changes.
pub trait Sink {
    /// The bytes taken so far, where the sink tells them.
    ghost held: { Self → Option (List ℕ) };

    /// How many calls failed; the count stays at the greatest number of 64 bits.
    ghost faults: { Self → ℕ };

    /// Takes the first bytes of `piece`, at least one, and answers how many.
    fn write(&mut self, piece: &[u8]) -> Result<usize, Failed>
        requires { 0 < length piece.now }
        ensures within { IfOk result (λ n. n ≤ length piece.now) }
        ensures some { IfOk result (λ n. 0 < n) }
        ensures appends { IfOk result
            (λ n. Appends (held self.old) (take n piece.now) (held self.new)) }
        ensures nothing_taken { OnErr result (held self.new ≡ held self.old) }
        ensures fault { OnErr result (IsTrue (rose (faults self.old) (faults self.new))) }
        ensures never_falls { faults self.old ≤ faults self.new };
}
