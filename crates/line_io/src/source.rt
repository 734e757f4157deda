//! What gives bytes.
ghost use Rattle.std.specs.Prelude.{◌≡◌, ◌<◌, ◌≤◌, ℕ, List, Option, IfOk, OnErr, IsTrue, length, take};
ghost use Rattle.line_io.specs.Bytes.{Gives, IsAtEnd};
ghost use Rattle.line_io.specs.Counts.{rose};

use crate::Failed;

/// What gives bytes in order, and counts its faults in 64 bits.
///
/// A source tells which bytes are left, or tells nothing of them; that never changes.
pub trait Source {
    /// The bytes left, where the source tells them.
    ghost left: { Self → Option (List ℕ) };

    /// How many calls failed; the count stays at the greatest number of 64 bits.
    ghost faults: { Self → ℕ };

    /// Moves the next bytes to the front of `buf`, and answers how many; the rest of `buf` may be
    /// anything.
    fn read(&mut self, buf: &mut [u8]) -> Result<usize, Failed>
        ensures within { IfOk result (λ n. n ≤ length buf.new) }
        ensures gives { IfOk result
            (λ n. Gives (left self.old) (take n buf.new) (left self.new)) }
        ensures end { IfOk result (λ n. n ≡ 0 → 0 < length buf.new → IsAtEnd (left self.new)) }
        ensures nothing_taken { OnErr result (left self.new ≡ left self.old) }
        ensures fault { OnErr result (IsTrue (rose (faults self.old) (faults self.new))) }
        ensures never_falls { faults self.old ≤ faults self.new };
}
