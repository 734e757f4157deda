//! Writing what a call says, and the status with which it then ends.
ghost use Rattle.std.specs.Prelude.{◌≡◌};
ghost use Rattle.table_play.specs.Headline.{Says};

use line_io::{Sink, write_all};
use script_text::Status;

/// Writes one line, and ends with a status; a fault of the sink takes its place.
pub fn say<K: Sink>(sink: &mut K, line: &[u8], status: Status) -> Status
    ensures says { Says status line.now result (K.held sink.old) (K.held sink.new) (K.faults sink.old)
        (K.faults sink.new) }
{
    match write_all(sink, line) {
        Ok(()) => status,
        Err(_) => Status::WriteFault,
    }
}
