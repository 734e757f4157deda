//! A source over a reader of std.
ghost use Rattle.std.specs.Prelude.{◌≡◌, ◌<◌, ◌≤◌, None, length, IfOk, OnErr, IsTrue};
ghost use Rattle.std.specs.Io.KnownBytes.{ReadConsumes};
ghost use Rattle.line_io.specs.Counts.{rose};

use crate::{Failed, Source};
use std::io::Read;

/// Gives what a reader gives, as that of standard input, and tells nothing of the bytes.
///
/// What the reader itself says of its bytes holds of each read.
#[derive(Drop)]
pub struct StdSource<R> {
    reader: R,
    faults: u64,
}

impl<R: Read> StdSource<R> {
    /// A source over this reader, as `rt.reader()`, without faults so far.
    pub fn new(reader: R) -> StdSource<R>
        ensures { result ≡ record { reader = reader; faults = 0 } }
    {
        StdSource { reader, faults: 0 }
    }
}

impl<R: Read> Source for StdSource<R> {
    ghost left = { λ _. None };

    ghost faults = { λ s. s.faults };

    fn read(&mut self, buf: &mut [u8]) -> Result<usize, Failed>
        ensures within { IfOk result (λ n. n ≤ length buf.new) }
        ensures fault { OnErr result (IsTrue (rose self.old.faults self.new.faults)) }
        ensures never_falls { self.old.faults ≤ self.new.faults }
        ensures reader { ReadConsumes (R.remaining self.old.reader) (R.remaining self.new.reader)
            result buf.new }
    {
        match self.reader.read(buf) {
            Ok(count) => Ok(count),
            Err(_error) => {
                self.faults = self.faults.saturating_add(1);
                Err(Failed)
            }
        }
    }
}
